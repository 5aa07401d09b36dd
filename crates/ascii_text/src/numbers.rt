//! Decimal numbers that are the whole text: digits, then a point and decimals or nothing.

ghost use Rattle.std.specs.Prelude.{◌≡◌, ◌^◌, ◌<◌, ◌≤◌, length, IfSome, option_map};
ghost use Rattle.ascii_text.specs.DecimalNumbers.{whole_at, within, number_parts_at};
ghost use Rattle.ascii_text.specs.Written.{number_parts, number_within};

use crate::reading::{Decimals, decimals_within, digit_run, digits_front};

/// A decimal number as it is written.
#[derive(Clone, Copy, Debug, PartialEq, Eq)]
pub struct DecimalNumber {
    /// How many digits stand before the point, leading zeros among them.
    pub digits: usize,
    /// The value of the digits before the point.
    pub whole: u64,
    /// The decimals after the point; none where there is no point.
    pub decimals: Decimals,
}

// All the digits at the front, at most this many: how many there are, their value, and the text after them.
#[tactic(auto, unfolding(crate::specs::DecimalNumbers::whole_at, crate::specs::Reading::run_at))]
fn whole_front(most: usize, text: &[u8]) -> Option<(usize, u64, &[u8])>
    requires { most ≤ 18 }
    ensures exact { option_map (λ x. ((x.0, x.1), x.2.now)) result ≡ whole_at most text.now }
    ensures within { IfSome result (λ x. x.0 ≤ most) }
    ensures below { IfSome result (λ x. x.1 < 10 ^ x.0) }
{
    let (digits, rest) = digits_front(most, text);
    if digits.count == 0 || digit_run(rest) > 0 {
        return None;
    }
    Some((digits.count, digits.value, rest))
}

// The decimal number that the whole text is, with at most this many decimals.
#[tactic(auto, unfolding(crate::specs::Written::number_within))]
fn number_within(most: usize, few: usize, text: &[u8]) -> Option<Option<DecimalNumber>>
    requires most { most ≤ 18 }
    requires few { few ≤ 18 }
    ensures exact { option_map (λ found. option_map (λ n. number_parts n) found) result
        ≡ number_within most few text.now }
    ensures whole { IfSome result (λ found. IfSome found (λ n. (n.digits ≤ most) × (n.whole < 10 ^ n.digits))) }
    ensures decimals { IfSome result (λ found. IfSome found
        (λ n. (n.decimals.count ≤ few) × (n.decimals.value < 10 ^ n.decimals.count))) }
{
    let (digits, whole, rest) = whole_front(most, text)?;
    let (decimals, rest) = decimals_within(few, rest)?;
    if !rest.is_empty() {
        return None;
    }
    let Some(decimals) = decimals else {
        return Some(None);
    };
    Some(Some(DecimalNumber {
        digits,
        whole,
        decimals,
    }))
}

/// The decimal number that the whole text is: 1 to `most` digits, then a point and one decimal or more, or nothing.
/// None where the text has another shape; `None` in the number's place where it has more than `few` decimals. Both are
/// at most 18.
#[tactic(auto, using(crate::proofs::NumberTexts::number_within_is))]
pub fn decimal_number(most: usize, few: usize, text: &[u8]) -> Option<Option<DecimalNumber>>
    requires most { most ≤ 18 }
    requires few { few ≤ 18 }
    ensures exact { option_map (λ found. option_map (λ n. number_parts n) found) result
        ≡ option_map (λ p. within few p) (number_parts_at most text.now) }
    ensures whole { IfSome result (λ found. IfSome found (λ n. (n.digits ≤ most) × (n.whole < 10 ^ n.digits))) }
    ensures decimals { IfSome result (λ found. IfSome found
        (λ n. (n.decimals.count ≤ few) × (n.decimals.value < 10 ^ n.decimals.count))) }
{
    number_within(most, few, text)
}
