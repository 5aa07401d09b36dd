//! What a line of a batch is, by the place in which it stands.

ghost use Rattle.std.specs.Prelude.{◌≡◌, ◌≢◌, IfOk};
ghost use Rattle.ades_psv.specs.declared.columns.Columns.{Columns as Listed};
ghost use Rattle.ades_psv.specs.declared.header.Place.TheVariants as places;
ghost use Rattle.ades_psv.specs.declared.header.Step.TheVariants as steps;
ghost use Rattle.ades_psv.specs.Headers.{is_version, is_group, is_element, filled_step, step};

use crate::columns::{Columns, columns_of};
use ascii_text::blanks::{are_blanks, trimmed};
use item_list::NoMemory;
use obs_record::HeaderFault;
use std::alloc::Global;

/// Where a line of a batch stands.
#[derive(Clone, Copy, Debug)]
pub(crate) enum Place {
    /// Before all other lines: it is the line of the format's version.
    Opening,
    /// In a header, whose column header is still to come.
    Header,
    /// Below a column header with these columns, among its data lines.
    Listing(Columns),
}

/// What a line is.
#[derive(Clone, Copy)]
pub(crate) enum Step {
    /// It leads on: the next line stands in this place.
    On(Place),
    /// It is a data line below these columns, and so may the next line be.
    Data(Columns),
    /// It breaks this rule of headers.
    Fault(HeaderFault),
}

/// Whether the line is that of the format's version.
#[tactic(auto, unfolding(crate::specs::Headers::is_version))]
fn is_version(line: &[u8]) -> bool
    ensures { result ≡ is_version line.now }
{
    match line {
        [b'#', rest @ ..] => trimmed(rest) == b"version=2017".as_slice(),
        _ => false,
    }
}

/// Whether the line opens a header group.
pub(crate) fn is_group(line: &[u8]) -> bool
    ensures { result ≡ is_group line.now }
{
    line.first() == Some(&b'#')
}

/// Whether the line is an element of a header group.
pub(crate) fn is_element(line: &[u8]) -> bool
    ensures { result ≡ is_element line.now }
{
    line.first() == Some(&b'!')
}

/// What a line is that stands in a header and isn't blank. Takes memory.
#[tactic(auto, unfolding(crate::specs::Headers::filled_step))]
fn header_step(alloc: Global, line: &[u8]) -> Result<Step, NoMemory>
    ensures exact { IfOk result (λ next. next ≡ filled_step places.Header line.now) }
    ensures no_data { (columns : Listed) → IfOk result (λ next. next ≢ steps.Data columns) }
{
    if is_group(line) || is_element(line) {
        return Ok(Step::On(Place::Header));
    }
    match columns_of(alloc, line)? {
        Ok(columns) => Ok(Step::On(Place::Listing(columns))),
        Err(fault) => Ok(Step::Fault(fault)),
    }
}

/// What a line is that stands in this place. Takes memory while a column header is tested.
#[tactic(auto, unfolding(crate::specs::Headers::step, crate::specs::Headers::filled_step))]
pub(crate) fn step_at(alloc: Global, place: &Place, line: &[u8]) -> Result<Step, NoMemory>
    ensures exact { IfOk result (λ next. next ≡ step place.now line.now) }
    ensures below { (columns : Listed) → IfOk result (λ next. next ≡ steps.Data columns
        → place.now ≡ places.Listing columns) }
{
    if are_blanks(line) {
        return Ok(Step::On(*place));
    }
    match place {
        Place::Opening if is_version(line) => Ok(Step::On(Place::Header)),
        Place::Opening => Ok(Step::Fault(HeaderFault::H1)),
        Place::Header => header_step(alloc, line),
        Place::Listing(_) if is_group(line) => Ok(Step::On(Place::Header)),
        Place::Listing(_) if is_element(line) => Ok(Step::On(*place)),
        Place::Listing(columns) => Ok(Step::Data(*columns)),
    }
}
