//! Searches: of a verdict and of a number by designation, and of a designation by its number.

ghost use Rattle.std.specs.Prelude.{◌≡◌, reverse};
ghost use Rattle.ordered_list.specs.Orders.{found};
ghost use Rattle.numbering_core.specs.Verdicts.{is_good};
ghost use Rattle.numbering_core.specs.Numbers.{named, IsUnbroken};
ghost use Rattle.numbering_core.specs.Indexes.{verdict_key, verdict_by, entry_key, number_by};

use crate::entry::{NumberEntry, VerdictEntry};
use crate::numbering::Numbering;
use crate::verdict::Verdict;
use ordered_list::OrderedList;
use packed_names::{Designation, Number};

/// The greatest uncertainty parameter of a good orbit.
const GREATEST_U: u8 = 2;

/// The smallest number of oppositions of a good orbit.
const LEAST_OPPOSITIONS: u8 = 4;

/// Whether a verdict is there, and is good.
pub fn is_good(verdict: Option<Verdict>) -> bool
    ensures { result ≡ is_good verdict }
{
    match verdict {
        Some(verdict) => verdict.u <= GREATEST_U && verdict.oppositions >= LEAST_OPPOSITIONS,
        None => false,
    }
}

/// The verdict on a principal designation.
pub fn verdict_of(entries: &OrderedList<VerdictEntry>, p: Designation) -> Option<Verdict>
    ensures { result ≡ verdict_by (found ⟦<VerdictEntry as Ord>⟧.cmp (verdict_key p) entries.now.items) }
{
    let key = VerdictEntry {
        principal: p,
        u: 0,
        oppositions: 0,
    };
    entries.find(&key).map(|entry| Verdict {
        principal: entry.principal,
        u: entry.u,
        oppositions: entry.oppositions,
    })
}

/// The number of a designation.
pub fn number_of(entries: &OrderedList<NumberEntry>, d: Designation) -> Option<Number>
    ensures { result ≡ number_by (found ⟦<NumberEntry as Ord>⟧.cmp (entry_key d) entries.now.items) }
{
    let key = NumberEntry {
        designation: d,
        number: Number(0),
    };
    entries.find(&key).map(|entry| entry.number)
}

/// The designation that has a number. Numbers are unbroken, so that each stands as many places after the first as it
/// is above it.
pub fn named(numbered: &[Numbering], n: Number) -> Option<Designation>
    requires { IsUnbroken (reverse numbered.now) }
    ensures { result ≡ named (reverse numbered.now) n.0 }
{
    if numbered.is_empty() {
        return None;
    }
    if n.0 < numbered[0].number.0 {
        return None;
    }
    let place = (n.0 - numbered[0].number.0) as usize;
    if place >= numbered.len() {
        return None;
    }
    Some(numbered[place].designation)
}
