//! A day as a word.

ghost use Rattle.std.specs.Prelude.{◌≡◌, IfSome};
ghost use Rattle.obs_time.specs.Dates.{IsObservedDay};
ghost use Rattle.command_line.specs.Days.{day_in};

use obs_time::read_date;

/// The day that a word spells, `YYYY-MM-DD`, of the years 1800 to 2199: days since 1970-01-01, negative before.
pub fn day_in(text: &[u8]) -> Option<i32>
    ensures day { result ≡ day_in text.now }
    ensures range { IfSome result IsObservedDay }
{
    read_date(text).ok()
}
