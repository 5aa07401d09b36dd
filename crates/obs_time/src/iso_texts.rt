//! ISO 8601 times that are written.

ghost use Rattle.std.specs.Prelude.{◌≡◌, ◌+◌, ◌<◌, ◌≤◌, ◌++◌, length, Ok, List, ℕ};
ghost use Rattle.arrayvec.specs.ArrayVec.{array_vec_len};
ghost use Rattle.obs_time.specs.IsoText.{clock_of, clock_text, iso_of, iso_text};

use crate::iso::NS_PER_SECOND;
use crate::writing::put_date;
use crate::{Instant, civil_of};
use arrayvec::ArrayVec;
use ascii_text::digits::Radix;
use ascii_text::reading::Decimals;
use ascii_text::writing::{put_decimals, put_digits};

/// Writes a moment as `YYYY-MM-DDThh:mm:ss.nnnnnnnnnZ`, a date and time of ISO 8601 in UTC with nine decimals of the
/// second, which is exact.
pub fn write_iso(t: Instant) -> [u8; 30]
    ensures exact { result ≡ iso_text t }
    // Reading the text gives the moment.
    ensures read { iso_of result ≡ Ok t }
    // A text with nine decimals, thus of 30 bytes, that reads as the moment is the text that is written.
    ensures again { (text : List ℕ) → length text ≡ 30 → iso_of text ≡ Ok t → text ≡ result }
{
    ascii_text::laws::texts();
    let civil = civil_of(t);
    let mut out = ArrayVec::<u8, 30>::new();
    put_date(&mut out, b'-', civil);
    out.push(b'T');
    put_clock(&mut out, civil.ns_of_day / NS_PER_SECOND);
    let value = civil.ns_of_day % NS_PER_SECOND;
    put_decimals(&mut out, Decimals { count: 9, value });
    out.push(b'Z');
    out.into_inner().unwrap()
}

/// Writes the time of day after this many seconds of it, `hh:mm:ss`.
fn put_clock(out: &mut ArrayVec<u8, 30>, seconds: u64)
    requires room { array_vec_len out.old + 8 ≤ 30 }
    requires day { seconds < 86_400 }
    ensures text { (rest : List ℕ) → out.new.items ++ rest ≡ out.old.items ++ clock_text (clock_of seconds) rest }
    ensures len { array_vec_len out.new ≡ array_vec_len out.old + 8 }
{
    put_digits(out, Radix::Ten, 2, seconds / 3600);
    out.push(b':');
    put_digits(out, Radix::Ten, 2, seconds / 60 % 60);
    out.push(b':');
    put_digits(out, Radix::Ten, 2, seconds % 60);
}
