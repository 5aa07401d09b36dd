//! Magnitudes, in units of 0.000001.

ghost use Rattle.std.specs.Prelude.{◌≡◌, ◌+◌, ◌*◌, ◌^◌, ◌<◌, ◌≤◌};
ghost use Rattle.obs_record.specs.Magnitudes.{magnitude_of};

use ascii_text::reading::Decimals;
use ascii_text::units::decimals_units;

/// The most decimals of a magnitude.
const MOST_DECIMALS: usize = 6;

/// A magnitude of 1, in units of 0.000001.
const UNITS: u32 = 1_000_000;

/// The magnitude with this whole number, below 100, and these decimals, at most 6, in units of 0.000001.
pub fn magnitude_of(whole: u64, decimals: Decimals) -> u32
    requires whole { whole < 100 }
    requires few { decimals.count ≤ 6 }
    requires decimals { decimals.value < 10 ^ decimals.count }
    ensures value { result ≡ magnitude_of whole decimals.count decimals.value }
    ensures below { result < (whole + 1) * 1000000 }
{
    whole as u32 * UNITS + decimals_units(decimals, MOST_DECIMALS, 1) as u32
}
