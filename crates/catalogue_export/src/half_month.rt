//! The text of a half-month.

ghost use Rattle.std.specs.Prelude.{◌≡◌, ◌++◌, codes, decimal, IfOk, OnOk};
ghost use Rattle.packed_names.specs.Ranges.{IsHalfMonth};
ghost use Rattle.designate_core.specs.Takes.{next_of};
ghost use Rattle.act_model.specs.Deeds.{deeds};
ghost use Rattle.act_model.specs.Designations.{row_acts_of};
ghost use Rattle.act_model.specs.QueryTexts.{next_text, half_month_line};
ghost use Rattle.act_model.specs.Texts.{half_month_text};

use crate::writing::push_numbered;
use act_model::{Shelf, push_designation};
use item_list::{Bytes, NoMemory};
use packed_names::{Designation, HalfMonth, Provisional, limit, print_half};
use std::alloc::Global;

/// The next designation of a half-month. None where it has all that it can have.
fn next_of<V: Shelf>(shelf: &V, half: HalfMonth) -> Option<Provisional>
    requires { IsHalfMonth half }
    ensures { result ≡ next_of half (row_acts_of (deeds (V.history shelf.now))) }
{
    let given = shelf.given(half);
    if given < limit(half) {
        let order = given + 1;
        Some(Provisional { half, order })
    } else {
        None
    }
}

fn push_next(out: &mut Bytes, next: Option<Provisional>) -> Result<(), NoMemory>
    ensures { OnOk result (out.new ≡ out.old ++ next_text next) }
{
    match next {
        Some(next) => push_designation(out, Designation::Provisional(next)),
        None => out.extend_from_slice(b"none"),
    }
}

/// Writes a half-month and how many designations were given in it.
fn push_given(out: &mut Bytes, half: HalfMonth, given: u32) -> Result<(), NoMemory>
    requires { IsHalfMonth half }
    ensures { OnOk result (out.new
        ≡ out.old ++ codes "halfmonth " ++ half_month_text half ++ codes " given " ++ decimal given) }
{
    out.extend_from_slice(b"halfmonth ")?;
    out.extend_from_slice(print_half(half).as_slice())?;
    push_numbered(out, b" given ", u64::from(given))
}

fn push_half_month<V: Shelf>(shelf: &V, out: &mut Bytes, half: HalfMonth) -> Result<(), NoMemory>
    requires { IsHalfMonth half }
    ensures { OnOk result (out.new ≡ out.old ++ half_month_line (row_acts_of (deeds (V.history shelf.now))) half) }
{
    push_given(out, half, shelf.given(half))?;
    out.extend_from_slice(b" next ")?;
    push_next(out, next_of(shelf, half))?;
    out.push(b'\n')
}

/// The line of a half-month: how many designations were given in it, elsewhere and here, and which one is next.
pub(crate) fn half_month_text<V: Shelf>(
    alloc: Global,
    shelf: &V,
    half: HalfMonth,
) -> Result<Bytes, NoMemory>
    requires { IsHalfMonth half }
    ensures { IfOk result (λ text. text ≡ half_month_line (row_acts_of (deeds (V.history shelf.now))) half) }
{
    let mut out = Bytes::new(alloc);
    push_half_month(shelf, &mut out, half)?;
    Ok(out)
}
