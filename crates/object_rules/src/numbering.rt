//! Numbers for the objects that can be numbered.

ghost use Rattle.std.specs.Prelude.{◌≡◌, ◌≤◌, ◌+◌, ◌++◌, ◌∷◌, [], IfOk, OnOk, IfSome, Err, length, take, true};
ghost use Rattle.packed_names.specs.declared.number.TheConstants.{GREATEST_NUMBER};
ghost use Rattle.packed_names.specs.Ranges.{IsNumber};
ghost use Rattle.numbering_core.specs.Numbers.{next_number};
ghost use Rattle.act_model.specs.Rows.{first_row, IsDue};
ghost use Rattle.act_model.specs.Holdings.{holdings};
ghost use Rattle.act_model.specs.Designations.{links_of};
ghost use Rattle.act_model.specs.Verdicts.{verdicts_of};
ghost use Rattle.act_model.specs.Numbers.{numbers_of, is_eligible, numbered_from, last_number};
ghost use Rattle.act_model.specs.Doing.{numbers, eligible_after, next_rows};
ghost use Rattle.object_rules.specs.Noting.{is_of_objects};
ghost use Rattle.object_rules.specs.Numbering.{eligible_among, chosen_rows, numbers_for};

use crate::asking::{is_numbered, is_principal};
use crate::ledger::Ledger;
use crate::observed::is_observed;
use act_model::{Deed, Refusal};
use identify_core::laws::given_in_order;
use item_list::{ItemList, NoMemory};
use numbering_core::Numbering;
use ordered_list::OrderedList;
use ordered_list::laws::same_items;
use packed_names::laws::orders;
use packed_names::{Designation, GREATEST_NUMBER, Number};
use std::alloc::Global;

/// Whether the object has no number, a live observation, and a good verdict that is in force.
fn is_eligible<L: Ledger>(office: &L, p: Designation) -> bool
    ensures { result ≡ is_eligible (holdings (L.deeds office.now)) (links_of (L.deeds office.now))
        (verdicts_of (L.deeds office.now)) (numbers_of (L.deeds office.now)) p }
{
    office.register().good(p) && !is_numbered(office, p) && is_observed(office, p)
}

/// Adds a designation, where it is a principal whose object can be numbered.
fn push_eligible<L: Ledger>(
    office: &L,
    found: &mut ItemList<Designation>,
    d: Designation,
) -> Result<(), NoMemory>
    ensures { OnOk result (found.new ≡ found.old ++ eligible_among (L.deeds office.now) (d ∷ [])) }
{
    if is_principal(office, d) && is_eligible(office, d) {
        found.push(d)?;
    }
    Ok(())
}

/// The first of the principals among designations whose objects can be numbered, at most this many.
fn first_eligible<L: Ledger>(
    office: &L,
    alloc: Global,
    open: &OrderedList<Designation>,
    most: u32,
) -> Result<ItemList<Designation>, NoMemory>
    ensures { IfOk result (λ found. found ≡ take most (eligible_among (L.deeds office.now) open.now.items)) }
{
    let mut found = ItemList::new(alloc);
    for place in 0..open.len() {
        let Some(d) = open.get(place) else {
            return Ok(found);
        };
        if found.len() == u64::from(most) {
            return Ok(found);
        }
        push_eligible(office, &mut found, d)?;
    }
    Ok(found)
}

/// The first principals of the objects that can be numbered, in the order of designations, at most this many. It walks
/// the designations that have a good verdict and no number.
fn eligible<L: Ledger>(
    office: &L,
    alloc: Global,
    most: u32,
) -> Result<ItemList<Designation>, NoMemory>
    ensures { IfOk result (λ found. found ≡ take most (eligible_after (L.deeds office.now))) }
{
    given_in_order();
    orders();
    same_items::<Designation>();
    first_eligible(office, alloc, office.register().open(), most)
}

/// The refusal of a first number that isn't the next one. Where no number was given, any may be the first.
fn not_next<L: Ledger>(office: &L, first: u32) -> Option<Refusal>
    ensures { result ≡ first_row (next_rows (next_number (numbers_of (L.deeds office.now))) first) }
{
    match office.register().next() {
        Some(next) => if next == first {
            None
        } else {
            Some(Refusal::NotNext(next))
        },
        None => None,
    }
}

/// The last of the numbers that this many designations get, from the first on.
fn last_number(first: u32, designations: &[Designation]) -> u64
    requires { IsNumber first }
    ensures { result ≡ last_number first designations.now }
{
    u64::from(first) + designations.len() as u64 - 1
}

/// Designations with numbers from the first upwards.
fn numbered_from(
    alloc: Global,
    first: u32,
    designations: &[Designation],
) -> Result<ItemList<Numbering>, NoMemory>
    requires { first + length designations.now ≤ GREATEST_NUMBER + 1 }
    ensures { IfOk result (λ pairs. pairs ≡ numbered_from first designations.now) }
{
    let mut pairs = ItemList::new(alloc);
    let mut next = first;
    for d in designations {
        pairs.push(Numbering {
            designation: *d,
            number: Number(next),
        })?;
        next += 1;
    }
    Ok(pairs)
}

/// The refusal of numbers for these objects, from the first on.
fn numbers_refusal(first: u32, chosen: &[Designation]) -> Option<Refusal>
    requires { IsNumber first }
    ensures { result ≡ first_row (chosen_rows first chosen.now) }
{
    if chosen.is_empty() {
        return Some(Refusal::NoneEligible);
    }
    if last_number(first, chosen) > u64::from(GREATEST_NUMBER) {
        return Some(Refusal::NumbersFull);
    }
    None
}

/// Numbers for these objects, from the first on, where nothing refuses them.
fn numbers_for(alloc: Global, first: u32, chosen: &[Designation]) -> Result<Deed, Refusal>
    requires { IsNumber first }
    ensures due { IsDue (numbers_for first chosen.now) result }
    ensures refused { IfSome (first_row (chosen_rows first chosen.now)) (λ refusal. result ≡ Err refusal) }
    ensures kind { IfOk result (λ deed. is_of_objects deed ≡ true) }
{
    if let Some(refusal) = numbers_refusal(first, chosen) {
        return Err(refusal);
    }
    match numbered_from(alloc, first, chosen) {
        Ok(pairs) => Ok(Deed::Numbered(pairs)),
        Err(_) => Err(Refusal::NoMemory),
    }
}

/// Objects that can be numbered get numbers, from the first number upwards, in the order of their principal
/// designations; at most this many of them. An object can be numbered where it has no number, a live observation, and a
/// good verdict in force.
///
/// # Errors
///
/// The first refusal that holds: numbers were given, and the first isn't the next one; no object can be numbered; a
/// number over 15,396,335 would be needed. `NoMemory` where memory was refused.
pub fn numbers<L: Ledger>(office: &L, alloc: Global, first: u32, most: u32) -> Result<Deed, Refusal>
    requires first { IsNumber first }
    requires most { 1 ≤ most }
    ensures due { IsDue
        (numbers (numbers_of (L.deeds office.now)) first most (eligible_after (L.deeds office.now))) result }
    ensures not_next { IfSome (first_row (next_rows (next_number (numbers_of (L.deeds office.now))) first))
        (λ refusal. result ≡ Err refusal) }
    ensures kind { IfOk result (λ deed. is_of_objects deed ≡ true) }
{
    if let Some(refusal) = not_next(office, first) {
        return Err(refusal);
    }
    match eligible(office, alloc, most) {
        Ok(chosen) => numbers_for(alloc, first, chosen.as_slice()),
        Err(_) => Err(Refusal::NoMemory),
    }
}
