//! The rules that a line may break.

ghost use Rattle.std.specs.Prelude.{◌≡◌};
ghost use Rattle.obs_record.specs.Rules.{rule_name};

use std::error::Error;
use std::fmt;
use std::fmt::{Display, Formatter};

/// The rules that a line of a batch may break. The rules S are of its spelling, the rules T of the
/// tables of the office, the rules B of the office's books.
#[derive(Clone, Copy, Debug, PartialEq, Eq)]
pub enum RuleCode {
    /// An 80-column line has 80 bytes.
    S1,
    /// Each byte is a character of the format.
    S2,
    /// A number, a designation or a temporary designation is spelled as such.
    S3,
    /// The kind of the line is one that this office takes.
    S4,
    /// The time is spelled as such, exists, and lies in the years 1800 to 2199.
    S5,
    /// The right ascension is spelled as such and in range.
    S6,
    /// The declination is spelled as such and in range.
    S7,
    /// Columns 57 to 65 are blank.
    S8,
    /// The magnitude is spelled as such and in range.
    S9,
    /// There are no more fields than columns.
    S10,
    /// No field is missing.
    S11,
    /// A temporary designation has 1 to 8 characters, none of them a blank.
    S12,
    /// The station's code is in the table.
    T1,
    /// The station serves at the day of the observation.
    T2,
    /// The catalogue is in the table.
    T3,
    /// The band is in the table.
    T4,
    /// The mode is in the table.
    T5,
    /// The observation isn't later than its submission.
    B1,
    /// The year is 1925 to 2099.
    B2,
    /// The number and the designation were given by this office.
    B3,
    /// The observation isn't one that stands already.
    B4,
    /// No other position stands for this station, time and name.
    B5,
    /// The line isn't alone under its temporary designation.
    B6,
    /// The line lies within 24 hours of the first of its group.
    B7,
    /// The motion between neighbours in time is at most 30 degrees of declination a day.
    B8,
    /// The number and the designation belong to one object.
    B9,
}

/// What is wrong with the headers of a batch in the PSV form of the ADES format.
#[derive(Clone, Copy, Debug, PartialEq, Eq)]
pub enum HeaderFault {
    /// The batch doesn't begin with the line of the format's version.
    H1,
    /// The batch ends inside a header.
    H2,
    /// The columns have no right ascension or no declination.
    H3,
    /// The columns are those of a roving observer or a satellite.
    H4,
    /// A column stands twice.
    H5,
}

impl Display for HeaderFault {
    fn fmt<W: fmt::Write>(&self, f: &mut Formatter<W>) -> fmt::Result {
        f.pad(match self {
            HeaderFault::H1 => "H1",
            HeaderFault::H2 => "H2",
            HeaderFault::H3 => "H3",
            HeaderFault::H4 => "H4",
            HeaderFault::H5 => "H5",
        })
    }
}

impl Error for HeaderFault {}

impl RuleCode {
    /// The name of the rule, as answers give it.
    pub fn name(self) -> &'static [u8]
        ensures { result.now ≡ rule_name self }
    {
        match self {
            RuleCode::S1 => b"S1",
            RuleCode::S2 => b"S2",
            RuleCode::S3 => b"S3",
            RuleCode::S4 => b"S4",
            RuleCode::S5 => b"S5",
            RuleCode::S6 => b"S6",
            RuleCode::S7 => b"S7",
            RuleCode::S8 => b"S8",
            RuleCode::S9 => b"S9",
            RuleCode::S10 => b"S10",
            RuleCode::S11 => b"S11",
            RuleCode::S12 => b"S12",
            RuleCode::T1 => b"T1",
            RuleCode::T2 => b"T2",
            RuleCode::T3 => b"T3",
            RuleCode::T4 => b"T4",
            RuleCode::T5 => b"T5",
            RuleCode::B1 => b"B1",
            RuleCode::B2 => b"B2",
            RuleCode::B3 => b"B3",
            RuleCode::B4 => b"B4",
            RuleCode::B5 => b"B5",
            RuleCode::B6 => b"B6",
            RuleCode::B7 => b"B7",
            RuleCode::B8 => b"B8",
            RuleCode::B9 => b"B9",
        }
    }
}
