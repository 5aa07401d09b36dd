//! Moments and dates of observations.
//!
//! A moment is a count of nanoseconds of UTC since 1970-01-01T00:00:00, where every day has 86,400 seconds. The
//! calendar is the Gregorian one, from the year 1800 to the year 2199.
#![tactic(auto)]

mod civil;
mod dates;
mod days;
mod fault;
mod half_months;
mod instant;
mod iso;
mod iso_texts;
pub mod laws;
mod rounding;
mod writing;

pub use civil::{Civil, civil_of, day};
pub use dates::read_date;
pub use days::read_day_fraction;
pub use fault::TimeFault;
pub use half_months::half_month;
pub use instant::Instant;
pub use iso::read_iso;
pub use iso_texts::write_iso;
pub use writing::write_day_fraction;
