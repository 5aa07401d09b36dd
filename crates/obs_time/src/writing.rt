//! Moments written as a date and decimals of the day.

ghost use Rattle.std.specs.Prelude.{◌≡◌, ◌+◌, ◌≤◌, ◌++◌, length, Ok, List, ℕ, ◌^◌, ◌<◌};
ghost use Rattle.arrayvec.specs.ArrayVec.{array_vec_len};
ghost use Rattle.obs_time.specs.Instants.{IsInstantNs};
ghost use Rattle.obs_time.specs.Dates.{DateExists};
ghost use Rattle.obs_time.specs.DateText.{date_text};
ghost use Rattle.obs_time.specs.DayText.{decimal_unit, day_fraction_of};
ghost use Rattle.obs_time.specs.Rounding.{rounded, IsNearest};
ghost use Rattle.obs_time.specs.Written.{date_part};
ghost use Rattle.obs_time.specs.WrittenText.{IsTextOf, day_text_of};

use crate::days::decimal_unit;
use crate::rounding::rounded_civil;
use crate::{Civil, Instant};
use arrayvec::ArrayVec;
use ascii_text::digits::Radix;
use ascii_text::reading::Decimals;
use ascii_text::writing::{put_blanks, put_decimals, put_digits};

/// The greatest number of decimals of a day that are written.
const MOST_DECIMALS: usize = 6;

/// Writes columns 16 to 32 of an 80-column record: `YYYY MM DD.d` with 1 to 6 decimals of the day, and blanks after.
/// The moment is rounded to the last decimal, halves away from 1970-01-01T00:00:00; what reaches the day's end goes
/// into the next day, which may be 2200-01-01.
pub fn write_day_fraction(t: Instant, decimals: u8) -> [u8; 17]
    requires some { 1 ≤ decimals }
    requires few { decimals ≤ 6 }
    ensures exact { result ≡ day_text_of t decimals }
    ensures text { IsTextOf t decimals result }
    // Reading the text gives the rounded moment, where that is in range.
    ensures again { IsInstantNs (rounded t (decimal_unit decimals))
        → day_fraction_of result ≡ Ok (rounded t (decimal_unit decimals), decimals) }
    // A text that was read is written again.
    ensures kept { (text : List ℕ) → length text ≡ 17 → day_fraction_of text ≡ Ok (t, decimals) → text ≡ result }
    // No other text is right.
    ensures only { (other : List ℕ) → length other ≡ 17 → IsTextOf t decimals other → other ≡ result }
    ensures nearest { IsNearest t (decimal_unit decimals) (rounded t (decimal_unit decimals)) }
{
    ascii_text::laws::texts();
    let count = decimals as usize;
    let civil = rounded_civil(t, count);
    let mut out = ArrayVec::<u8, 17>::new();
    put_date(&mut out, b' ', civil);
    let value = civil.ns_of_day / decimal_unit(count);
    put_decimals(&mut out, Decimals { count, value });
    put_blanks(&mut out, MOST_DECIMALS - count);
    out.into_inner().unwrap()
}

/// Writes the date at the start of a text, `YYYY MM DD` with this byte between its parts.
pub(crate) fn put_date<const N: usize>(out: &mut ArrayVec<u8, N>, separator: u8, civil: Civil)
    requires empty { array_vec_len out.old ≡ 0 }
    requires room { 10 ≤ N }
    requires year { civil.year < 10 ^ 4 }
    requires date { DateExists civil.year civil.month civil.day }
    ensures text { (rest : List ℕ) → out.new.items ++ rest ≡ date_text separator (date_part civil) rest }
    ensures len { array_vec_len out.new ≡ 10 }
{
    put_digits(out, Radix::Ten, 4, u64::from(civil.year));
    out.push(separator);
    put_digits(out, Radix::Ten, 2, u64::from(civil.month));
    out.push(separator);
    put_digits(out, Radix::Ten, 2, u64::from(civil.day));
}
