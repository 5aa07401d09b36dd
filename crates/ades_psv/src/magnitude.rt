//! The magnitude of a data line.

ghost use Rattle.std.specs.Prelude.{◌≡◌};
ghost use Rattle.ades_psv.specs.Magnitudes.{magnitude_in};

use ascii_text::numbers::decimal_number;
use obs_record::{RuleCode, magnitude_of};

/// The greatest number of digits of a magnitude, and of its decimals.
const MOST_DIGITS: usize = 2;

const MOST_DECIMALS: usize = 6;

/// The greatest magnitude, 99.99, in units of 0.000001.
const GREATEST: u32 = 99_990_000;

/// The magnitude in a field, in units of 0.000001, and the number of its decimals; or rule S9 where it shows none. An
/// empty field says that there is no magnitude.
#[tactic(auto, unfolding(crate::specs::Magnitudes::magnitude_in))]
pub(crate) fn magnitude_in(text: &[u8]) -> Result<Option<(u32, u8)>, RuleCode>
    ensures { result ≡ magnitude_in text.now }
{
    if text.is_empty() {
        return Ok(None);
    }
    let Some(Some(number)) = decimal_number(MOST_DIGITS, MOST_DECIMALS, text) else {
        return Err(RuleCode::S9);
    };
    let magnitude = magnitude_of(number.whole, number.decimals);
    if magnitude > GREATEST {
        return Err(RuleCode::S9);
    }
    Ok(Some((magnitude, number.decimals.count as u8)))
}
