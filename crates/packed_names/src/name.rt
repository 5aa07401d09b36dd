//! Names: numbers and designations.

ghost use Rattle.std.specs.Prelude.{◌≡◌, ◌↔◌, IsTrue, IfOk};
ghost use Rattle.packed_names.specs.Ranges.{IsName, IsHalfMonth};
ghost use Rattle.packed_names.specs.Judging.{is_half_month, is_provisional, is_in_range, judge};

use crate::half_month::HalfMonth;
use crate::number::{GREATEST_NUMBER, Number};
use crate::provisional::{Provisional, limit};
use crate::survey::Survey;
use std::error::Error;
use std::fmt;
use std::fmt::{Display, Formatter};

/// The designation of a minor planet that has no number yet.
///
/// Provisional designations come first in their order, by year, half-month and order; then those of the surveys, by
/// survey and number.
#[derive(Clone, Copy, Debug, PartialEq, Eq, PartialOrd, Ord)]
pub enum Designation {
    /// Given by the Minor Planet Center for a half-month.
    Provisional(Provisional),
    /// Given by a survey, with a number from 1 to 9999.
    Survey(Survey, u16),
}

/// What a minor planet is called by.
#[derive(Clone, Copy, Debug, PartialEq, Eq)]
pub enum Name {
    /// Of a minor planet whose orbit is known well.
    Number(Number),
    /// Of one that has no number, or of what a numbered one was called before.
    Designation(Designation),
}

/// Why a text is no name.
#[derive(Clone, Copy, Debug, PartialEq, Eq)]
pub enum NameFault {
    /// The text has the shape of no name.
    Spelling,
    /// The text has the shape of a name, and its number, year or order is none that a name has.
    OutOfRange,
}

impl Display for NameFault {
    fn fmt<W: fmt::Write>(&self, f: &mut Formatter<W>) -> fmt::Result {
        f.pad(match self {
            NameFault::Spelling => "no spelling of a name",
            NameFault::OutOfRange => "a number, a year or an order that no name has",
        })
    }
}

impl Error for NameFault {}

/// Whether the year and the index are those of a half-month.
pub fn is_half_month(half: HalfMonth) -> bool
    ensures test { result ≡ is_half_month half }
    ensures half { IsTrue result ↔ IsHalfMonth half }
{
    half.year >= 1925 && half.year <= 2099 && half.index < 24
}

/// Whether the half-month is one, and has a designation of this order.
fn is_provisional(provisional: Provisional) -> bool
    ensures { result ≡ is_provisional provisional }
{
    is_half_month(provisional.half)
        && provisional.order >= 1
        && provisional.order <= limit(provisional.half)
}

/// Whether the fields of the name are in their ranges: only such a name has texts.
pub fn is_name(name: Name) -> bool
    ensures test { result ≡ is_in_range name }
    ensures name { IsTrue result ↔ IsName name }
{
    match name {
        Name::Number(number) => number.0 >= 1 && number.0 <= GREATEST_NUMBER,
        Name::Designation(Designation::Provisional(provisional)) => is_provisional(provisional),
        Name::Designation(Designation::Survey(_, number)) => number >= 1 && number <= 9999,
    }
}

/// The values themselves, where they are in range.
pub(crate) fn judged(values: Name) -> Result<Name, NameFault>
    ensures exact { result ≡ judge is_in_range values }
    ensures in_range { IfOk result IsName }
{
    if is_name(values) {
        Ok(values)
    } else {
        Err(NameFault::OutOfRange)
    }
}
