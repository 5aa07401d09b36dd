//! Reading from the front of a text: a value, and the text after it.

ghost use Rattle.std.specs.Prelude.{◌≡◌, ◌+◌, ◌^◌, ◌<◌, ◌≤◌, length, drop, Some, IfSome, option_map};
ghost use Rattle.ascii_text.specs.Digits.{base};
ghost use Rattle.ascii_text.specs.declared.digits.Radix.TheVariants as radixes;
ghost use Rattle.ascii_text.specs.Reading.{decimals_within, run_within, digit_at, digits_at, behind, digit_run, run_at};
ghost use Rattle.ascii_text.specs.Reading.{decimals_at, number_at};

use crate::digits::{Radix, base_of, digit_of};

/// One digit, and the text after it.
#[tactic(auto, unfolding(crate::specs::Reading::digit_at))]
fn digit_front(radix: Radix, text: &[u8]) -> Option<(u64, &[u8])>
    ensures exact { option_map (λ x. (x.0, x.1.now)) result ≡ digit_at radix text.now }
    ensures below { IfSome result (λ x. x.0 < base radix) }
    ensures rest { IfSome result (λ x. length x.1.now + 1 ≡ length text.now) }
{
    match text {
        [] => None,
        [byte, rest @ ..] => {
            let digit = digit_of(radix, *byte)?;
            Some((u64::from(digit), rest))
        }
    }
}

/// The number that the first `count` bytes spell as digits of the radix, and the text after them; `None` where fewer
/// bytes stand there, or one of them is no digit. The radix to the power of `count` is at most 2^63: at most 18 digits
/// of the radix ten.
#[tactic(auto, using(crate::proofs::DigitTexts::digits_fit))]
pub fn digits_at(radix: Radix, count: usize, text: &[u8]) -> Option<(u64, &[u8])>
    requires { base radix ^ count ≤ 2 ^ 63 }
    ensures exact { option_map (λ x. (x.0, x.1.now)) result ≡ digits_at radix count text.now }
    ensures below { IfSome result (λ x. x.0 < base radix ^ count) }
    ensures rest { IfSome result (λ x. length x.1.now + count ≡ length text.now) }
{
    let mut value = 0;
    let mut rest = text;
    for _ in 0..count {
        let (digit, after) = digit_front(radix, rest)?;
        value = value * base_of(radix) + digit;
        rest = after;
    }
    Some((value, rest))
}

/// The text after this byte; `None` where another byte or nothing stands at the front.
#[tactic(auto, unfolding(crate::specs::Reading::behind))]
pub fn behind(byte: u8, text: &[u8]) -> Option<&[u8]>
    ensures exact { option_map (λ x. x.now) result ≡ behind byte text.now }
    ensures rest { IfSome result (λ x. length x.now + 1 ≡ length text.now) }
{
    match text {
        [first, rest @ ..] if *first == byte => Some(rest),
        _ => None,
    }
}

/// How many decimal digits stand at the front.
#[tactic(auto, unfolding(crate::specs::Reading::digit_run))]
pub fn digit_run(text: &[u8]) -> usize
    ensures exact { result ≡ digit_run text.now }
    ensures within { result ≤ length text.now }
{
    text.iter().take_while(|byte| byte.is_ascii_digit()).count()
}

/// The decimals of a number: how many there are, and their value.
#[derive(Clone, Copy, Debug, PartialEq, Eq)]
pub struct Decimals {
    /// How many digits stand after the point; 0 where there is no point.
    pub count: usize,
    /// The number that these digits spell, below 10 to the power of their count.
    pub value: u64,
}

/// The decimal digits at the front of a text, at most this many of them, and the text after them. Each byte is looked
/// at once.
pub(crate) fn digits_front(most: usize, text: &[u8]) -> (Decimals, &[u8])
    requires { most ≤ 18 }
    ensures value { Some (result.0.value, result.1.now) ≡ digits_at radixes.Ten result.0.count text.now }
    ensures below { result.0.value < 10 ^ result.0.count }
    ensures most { result.0.count ≤ most }
    ensures run { digit_run text.now ≡ result.0.count + digit_run result.1.now }
    // Where fewer stand there, they are all.
    ensures all { result.0.count < most → digit_run result.1.now ≡ 0 }
    ensures rest { result.1.now ≡ drop result.0.count text.now }
    ensures left { length result.1.now + result.0.count ≡ length text.now }
{
    let mut value = 0;
    let mut rest = text;
    'digits: for count in 0..most {
        let Some((digit, after)) = digit_front(Radix::Ten, rest) else {
            return (Decimals { count, value }, rest);
        };
        value = value * 10 + digit;
        rest = after;
    }
    (Decimals { count: most, value }, rest)
}

/// All the decimal digits at the front, and the text after them; `None` where none stands there.
#[tactic(auto, using(crate::proofs::NumberTexts::run_is, crate::proofs::NumberTexts::run_end),
// where no digit stands at the front, the definition itself gives nothing
unfolding(crate::specs::Reading::run_at))]
fn run_front(text: &[u8]) -> Option<(Decimals, &[u8])>
    requires { length text.now ≤ 18 }
    ensures exact { option_map (λ x. ((x.0.count, x.0.value), x.1.now)) result ≡ run_at text.now }
    ensures some { IfSome result (λ x. 1 ≤ x.0.count) }
    ensures below { IfSome result (λ x. x.0.value < 10 ^ x.0.count) }
    ensures rest { IfSome result (λ x. length x.1.now + x.0.count ≡ length text.now) }
{
    let (digits, rest) = digits_front(18, text);
    if digits.count == 0 {
        return None;
    }
    Some((digits, rest))
}

/// The decimals at the front, after a point, and the text after them; no decimals where no point stands there, and
/// `None` where a point stands with no digit after it. The text has at most 18 bytes.
#[tactic(auto, unfolding(crate::specs::Reading::decimals_at))]
pub fn decimals_at(text: &[u8]) -> Option<(Decimals, &[u8])>
    requires { length text.now ≤ 18 }
    ensures exact { option_map (λ x. ((x.0.count, x.0.value), x.1.now)) result ≡ decimals_at text.now }
    ensures below { IfSome result (λ x. x.0.value < 10 ^ x.0.count) }
    ensures rest { IfSome result (λ x. length x.1.now + x.0.count ≤ length text.now) }
{
    if text.first() != Some(&b'.') {
        return Some((Decimals { count: 0, value: 0 }, text));
    }
    run_front(behind(b'.', text)?)
}

// All the decimal digits at the front, and the text after them.
#[tactic(auto, unfolding(crate::specs::Reading::run_at))]
fn run_within(most: usize, text: &[u8]) -> Option<(Option<Decimals>, &[u8])>
    requires { most ≤ 18 }
    ensures exact { option_map (λ x. (option_map (λ d. (d.count, d.value)) x.0, x.1.now)) result
        ≡ run_within most text.now }
    ensures below { IfSome result (λ x. IfSome x.0 (λ d. (d.count ≤ most) × (d.value < 10 ^ d.count))) }
    ensures rest { IfSome result (λ x. length x.1.now ≤ length text.now) }
{
    let (digits, rest) = digits_front(most, text);
    let more = digit_run(rest);
    if more > 0 {
        return Some((None, rest.split_at(more).1));
    }
    if digits.count == 0 {
        return None;
    }
    Some((Some(digits), rest))
}

/// The decimals at the front of a text of any length, and the text after them, as `decimals_at` reads them; `None` in
/// their place where they are more than `most`, which is at most 18.
#[tactic(auto, unfolding(crate::specs::Reading::decimals_at, crate::specs::Reading::decimals_within))]
pub fn decimals_within(most: usize, text: &[u8]) -> Option<(Option<Decimals>, &[u8])>
    requires { most ≤ 18 }
    ensures exact { option_map (λ x. (option_map (λ d. (d.count, d.value)) x.0, x.1.now)) result
        ≡ decimals_within most text.now }
    ensures below { IfSome result (λ x. IfSome x.0 (λ d. (d.count ≤ most) × (d.value < 10 ^ d.count))) }
    ensures rest { IfSome result (λ x. length x.1.now ≤ length text.now) }
{
    if text.first() == Some(&b'.') {
        return run_within(most, behind(b'.', text)?);
    }
    Some((Some(Decimals { count: 0, value: 0 }), text))
}

/// The number at the front, without leading zeros, and the text after it: all the decimal digits that stand there.
/// `None` where none stands there, where they are more than `most`, or where a zero leads others. `most` is at most 18.
#[tactic(auto, using(crate::proofs::DigitTexts::ten_power), unfolding(crate::specs::Reading::number_at))]
pub fn number_at(most: usize, text: &[u8]) -> Option<(u64, &[u8])>
    requires { most ≤ 18 }
    ensures exact { option_map (λ x. (x.0, x.1.now)) result ≡ number_at most text.now }
    ensures below { IfSome result (λ x. x.0 < 10 ^ most) }
    ensures rest { IfSome result (λ x. length x.1.now < length text.now) }
{
    let count = digit_run(text);
    if count == 0 || count > most || (count > 1 && text[0] == b'0') {
        return None;
    }
    digits_at(Radix::Ten, count, text)
}
