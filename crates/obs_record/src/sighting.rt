//! An observation as a line gives it.

use crate::short::Short;
use angle_fixed::{Dec, Ra};
use obs_time::Instant;
use packed_names::{Designation, Number};

/// What a line says of a band, a mode or a catalogue.
#[derive(Clone, Copy, Debug, PartialEq, Eq)]
pub enum Coded {
    /// The line says nothing.
    Nothing,
    /// A letter, as lines of 80 columns have it.
    Letter(u8),
    /// A word, as lines of fields have it.
    Word(Short),
}

/// The form of the line that an observation came with, and how many decimals its numbers had there.
#[derive(Clone, Copy, Debug, PartialEq, Eq)]
pub enum Shape {
    /// A line of 80 columns.
    Eighty {
        /// The decimals of the day, 1 to 6.
        date: u8,
        /// The decimals of the second of right ascension, 0 to 3.
        ra: u8,
        /// The decimals of the arcsecond of declination, 0 to 2.
        dec: u8,
        /// Whether a minus stood before the declination, a declination of 0 included.
        minus: bool,
        /// The decimals of the magnitude, 0 to 2; 0 where there is none.
        mag: u8,
    },
    /// A line of fields, in the PSV form of the ADES format.
    Psv {
        /// The decimals of the magnitude, 0 to 6; 0 where there is none.
        mag: u8,
    },
}

/// One observation, as its line has it: `IsSighting` of the crate's definitions says what its fields may be.
#[derive(Clone, Copy, Debug, PartialEq, Eq)]
pub struct Sighting {
    /// The number of the minor planet, 1 to 15,396,335.
    pub perm: Option<Number>,
    /// Its designation.
    pub prov: Option<Designation>,
    /// The observer's temporary designation. One at least of number, designation and temporary designation is there.
    pub sub: Option<Short>,
    /// The code of the station that observed, as the line has it.
    pub station: Short,
    /// When it was observed, to the nanosecond of UTC.
    pub time: Instant,
    /// The right ascension, 0 to below 360 degrees, in units of 1/9,000,000,000,000 degree.
    pub ra: Ra,
    /// The declination, -90 to 90 degrees, in the same units.
    pub dec: Dec,
    /// The magnitude in units of 0.000001, 0 to 99,990,000. It has at most as many decimals as `shape` says.
    pub mag: Option<u32>,
    /// The band of the magnitude.
    pub band: Coded,
    /// The mode of the instrument.
    pub mode: Coded,
    /// The star catalogue that the position was measured against; lines of 80 columns say nothing of it.
    pub catalogue: Coded,
    /// The character of note 1, a blank where there is none; it is printable.
    pub note1: u8,
    /// The form of the line, and the decimals that its numbers had there.
    pub shape: Shape,
}
