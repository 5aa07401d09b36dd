//! Counts of observations, as one of them or those of a tracklet come or go.

ghost use Rattle.std.specs.Prelude.{◌≡◌, ◌+◌, ◌^◌, ◌<◌, ◌≤◌, IsNone, is_none, IsTrue, if◌then◌else◌};

use packed_names::Designation;

/// The count with one more, where that one counts.
pub(crate) fn with_one(count: u64, counts: bool) -> u64
    requires { count + 1 < 2 ^ 64 }
    ensures { result ≡ count + (if counts then 1 else 0) }
{
    if counts { count + 1 } else { count }
}

/// The count with one less, where that one counts.
pub(crate) fn without_one(count: u64, counts: bool) -> u64
    requires { IsTrue counts → 0 < count }
    ensures { result + (if counts then 1 else 0) ≡ count }
{
    if counts { count - 1 } else { count }
}

/// The count of isolated observations after a tracklet with this many live ones gets another home. The count of
/// isolated tracklets likewise, where the tracklet counts as one.
pub(crate) fn isolated_after(
    isolated: u64,
    live: u64,
    was: Option<Designation>,
    home: Option<Designation>,
) -> u64
    requires counted { IsNone was → live ≤ isolated }
    requires fits { isolated + live < 2 ^ 64 }
    ensures { result + (if is_none was then live else 0) ≡ isolated + (if is_none home then live else 0) }
{
    match (was.is_none(), home.is_none()) {
        (true, false) => isolated - live,
        (false, true) => isolated + live,
        _ => isolated,
    }
}
