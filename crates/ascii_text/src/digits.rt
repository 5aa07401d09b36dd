//! Digits of a radix.

ghost use Rattle.std.specs.Prelude.{◌≡◌, ◌^◌, ◌<◌, ◌≤◌, IfSome};
ghost use Rattle.ascii_text.specs.Digits.{base, digit_byte};
ghost use Rattle.ascii_text.specs.Reading.{digit_value};

/// The radix that a number is written in.
#[derive(Clone, Copy, Debug, PartialEq, Eq)]
pub enum Radix {
    /// The digits 0 to 9.
    Ten,
    /// The digits 0 to 9, A to Z, a to z, which stand for 0 to 61: base 62 of the Minor Planet Center's packed
    /// designations.
    SixtyTwo,
}

/// How many digits the radix has.
pub fn base_of(radix: Radix) -> u64
    ensures { result ≡ base radix }
{
    match radix {
        Radix::Ten => 10,
        Radix::SixtyTwo => 62,
    }
}

/// The digit that the byte stands for; `None` where it stands for none.
#[tactic(auto, unfolding(crate::specs::Reading::digit_value, crate::specs::Reading::sixty_two_value))]
pub fn digit_of(radix: Radix, byte: u8) -> Option<u8>
    ensures value { result ≡ digit_value radix byte }
    ensures below { IfSome result (λ digit. digit < base radix) }
{
    match (radix, byte) {
        (_, b'0'..=b'9') => Some(byte - b'0'),
        (Radix::SixtyTwo, b'A'..=b'Z') => Some(byte - b'A' + 10),
        (Radix::SixtyTwo, b'a'..=b'z') => Some(byte - b'a' + 36),
        _ => None,
    }
}

/// The byte that stands for the digit.
pub fn byte_of(radix: Radix, digit: u8) -> u8
    requires { digit < base radix }
    ensures { result ≡ digit_byte radix digit }
{
    match radix {
        Radix::SixtyTwo if digit >= 36 => digit - 36 + b'a',
        Radix::SixtyTwo if digit >= 10 => digit - 10 + b'A',
        _ => digit + b'0',
    }
}

/// 10 to this power, which is at most 12.
pub fn power_of_ten(power: usize) -> u64
    requires { power ≤ 12 }
    ensures { result ≡ 10 ^ power }
{
    match power {
        0 => 1,
        1 => 10,
        2 => 100,
        3 => 1_000,
        4 => 10_000,
        5 => 100_000,
        6 => 1_000_000,
        7 => 10_000_000,
        8 => 100_000_000,
        9 => 1_000_000_000,
        10 => 10_000_000_000,
        11 => 100_000_000_000,
        _ => 1_000_000_000_000,
    }
}
