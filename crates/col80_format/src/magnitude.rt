//! The magnitude in columns 66 to 70.

ghost use Rattle.std.specs.Prelude.{◌≡◌, ◌+◌, ◌^◌, ◌<◌, ◌≤◌, length, IfSome, option_map};
ghost use Rattle.col80_format.specs.Magnitudes.{whole_at, written_in, magnitude_in};

use ascii_text::blanks::are_blanks;
use ascii_text::digits::Radix;
use ascii_text::reading::{Decimals, decimals_at, digits_at};
use obs_record::{RuleCode, magnitude_of};

/// The greatest number of decimals of a magnitude.
const MOST_DECIMALS: usize = 2;

/// The numbers that a magnitude is written with.
#[derive(Clone, Copy)]
pub(crate) struct Written {
    pub(crate) whole: u64,
    pub(crate) decimals: Decimals,
}

/// The whole number in the two columns at the front, and the text after them.
#[tactic(auto, unfolding(crate::specs::Magnitudes::whole_at))]
fn whole_at(text: &[u8]) -> Option<(u64, &[u8])>
    ensures exact { option_map (λ x. (x.0, x.1.now)) result ≡ whole_at text.now }
    ensures below { IfSome result (λ x. x.0 < 100) }
    ensures rest { IfSome result (λ x. length x.1.now ≤ length text.now) }
{
    match text {
        [] => None,
        [b' ', rest @ ..] => digits_at(Radix::Ten, 1, rest),
        [b'0', ..] => None,
        [_, ..] => digits_at(Radix::Ten, 2, text),
    }
}

/// The numbers of the magnitude that is the whole text, but for blanks after it.
#[tactic(auto, unfolding(crate::specs::Magnitudes::written_in))]
fn written_in(text: &[u8]) -> Option<Written>
    requires { length text.now ≤ 18 }
    ensures exact { result ≡ written_in text.now }
    ensures whole { IfSome result (λ x. x.whole < 100) }
    ensures few { IfSome result (λ x. x.decimals.count ≤ 2) }
    ensures decimals { IfSome result (λ x. x.decimals.value < 10 ^ x.decimals.count) }
{
    let (whole, rest) = whole_at(text)?;
    let (decimals, rest) = decimals_at(rest)?;
    if decimals.count > MOST_DECIMALS || !are_blanks(rest) {
        return None;
    }
    Some(Written { whole, decimals })
}

/// The magnitude in columns 66 to 70 and the number of its decimals, or rule S9 where they show none. Blanks say that
/// there is no magnitude.
#[tactic(auto, unfolding(crate::specs::Magnitudes::magnitude_in))]
pub(crate) fn magnitude_in(text: &[u8]) -> Result<(Option<u32>, u8), RuleCode>
    requires { length text.now ≤ 18 }
    ensures { result ≡ magnitude_in text.now }
{
    if are_blanks(text) {
        return Ok((None, 0));
    }
    match written_in(text) {
        Some(Written { whole, decimals }) => {
            let magnitude = magnitude_of(whole, decimals);
            Ok((Some(magnitude), decimals.count as u8))
        }
        None => Err(RuleCode::S9),
    }
}
