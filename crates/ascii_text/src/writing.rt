//! Writing at the end of a text of a fixed capacity, without memory.

ghost use Rattle.std.specs.Prelude.{◌≡◌, ◌+◌, ◌^◌, ◌<◌, ◌≤◌, ◌++◌, length, decimal};
ghost use Rattle.arrayvec.specs.ArrayVec.{array_vec_len};
ghost use Rattle.ascii_text.specs.Digits.{base, digits_text, decimals_text, decimals_width};
ghost use Rattle.ascii_text.specs.Blanks.{blanks};

use crate::digits::{Radix, base_of, byte_of};
use crate::reading::Decimals;
use arrayvec::ArrayVec;

/// Writes the number with `count` digits, the greatest first.
#[tactic(auto, using(crate::proofs::DigitTexts::few_digits))]
pub fn put_digits<const N: usize>(out: &mut ArrayVec<u8, N>, radix: Radix, count: usize, n: u64)
    requires room { array_vec_len out.old + count ≤ N }
    requires within { base radix ^ count ≤ 2 ^ 63 }
    requires below { n < base radix ^ count }
    ensures text { out.new.items ≡ out.old.items ++ digits_text radix count n }
    ensures len { array_vec_len out.new ≡ array_vec_len out.old + count }
{
    let mut left = n;
    for place in (0..count).rev() {
        let unit = base_of(radix).pow(place as u32);
        out.push(byte_of(radix, (left / unit) as u8));
        left %= unit;
    }
}

// The digits of the number without leading zeros.
fn decimal_digits(n: u64) -> ArrayVec<u8, 20>
    ensures { result.items ≡ decimal n }
{
    if n < 10 {
        let mut digits = ArrayVec::new();
        digits.push(b'0' + n as u8);
        return digits;
    }
    let mut digits = decimal_digits(n / 10);
    digits.push(b'0' + (n % 10) as u8);
    digits
}

/// Writes the number without leading zeros.
pub fn put_decimal<const N: usize>(out: &mut ArrayVec<u8, N>, n: u64)
    requires { array_vec_len out.old + length (decimal n) ≤ N }
    ensures text { out.new.items ≡ out.old.items ++ decimal n }
    ensures len { array_vec_len out.new ≡ array_vec_len out.old + length (decimal n) }
{
    for digit in decimal_digits(n).as_slice() {
        out.push(*digit);
    }
}

/// Writes decimals: nothing where there are none, else a point and their digits.
#[tactic(auto, using(crate::proofs::DigitTexts::ten_power), unfolding(crate::specs::Digits::decimals_text))]
pub fn put_decimals<const N: usize>(out: &mut ArrayVec<u8, N>, decimals: Decimals)
    requires room { array_vec_len out.old + decimals_width decimals.count ≤ N }
    requires within { decimals.count ≤ 18 }
    requires below { decimals.value < 10 ^ decimals.count }
    ensures text { out.new.items ≡ out.old.items ++ decimals_text decimals.count decimals.value }
    ensures len { array_vec_len out.new ≡ array_vec_len out.old + decimals_width decimals.count }
{
    if decimals.count > 0 {
        out.push(b'.');
        put_digits(out, Radix::Ten, decimals.count, decimals.value);
    }
}

/// Writes `count` blanks.
#[tactic(auto, unfolding(crate::specs::Blanks::blanks))]
pub fn put_blanks<const N: usize>(out: &mut ArrayVec<u8, N>, count: usize)
    requires { array_vec_len out.old + count ≤ N }
    ensures text { out.new.items ≡ out.old.items ++ blanks count }
    ensures len { array_vec_len out.new ≡ array_vec_len out.old + count }
{
    for _ in 0..count {
        out.push(b' ');
    }
}
