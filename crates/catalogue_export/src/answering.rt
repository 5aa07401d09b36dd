//! The answers to queries.

ghost use Rattle.std.specs.Prelude.{◌≡◌, ℕ, List, Result, Ok, Err, IfOk, IfErr};
ghost use Rattle.act_model.specs.Queries.{IsReadQuery};
ghost use Rattle.act_model.specs.Rows.{IsDue};
ghost use Rattle.act_model.specs.Step.{answer_of_query};
ghost use Rattle.catalogue_export.specs.Telling.{Tells};

use crate::exporting::catalogue_text;
use crate::half_month::half_month_text;
use crate::isolated::isolated_text;
use crate::name::name_text;
use crate::object::object_text;
use crate::tracklet::tracklet_text;
use act_model::{Query, Refusal, Reply, Shelf, Thing, tally_answer};
use item_list::{Bytes, NoMemory};
use packed_names::Designation;
use std::alloc::Global;

/// A text, or that memory was refused for it.
fn text_or_refusal(text: Result<Bytes, NoMemory>) -> Result<Bytes, Refusal>
    ensures { (due : Result (List ℕ) Refusal) → IfOk text (λ text. due ≡ Ok text) → IsDue due result }
{
    match text {
        Ok(text) => Ok(text),
        Err(_) => Err(Refusal::NoMemory),
    }
}

/// A copy of the answer that is kept for the caller's act with this number.
fn receipt<V: Shelf>(alloc: Global, shelf: &V, caller: u32, number: u64) -> Result<Bytes, Refusal>
    ensures due { IsDue (answer_of_query (V.history shelf.now) caller (Query.Receipt number)) result }
    ensures refused { IfErr (answer_of_query (V.history shelf.now) caller (Query.Receipt number))
        (λ refusal. result ≡ Err refusal) }
{
    match shelf.kept(caller, number) {
        Some(Reply::Done(text)) => text_or_refusal(Bytes::from_slice(alloc, text.as_slice())),
        Some(Reply::Refused(_)) => Err(Refusal::UnknownThing(Thing::Receipt(number))),
        None => Err(Refusal::UnknownThing(Thing::Receipt(number))),
    }
}

/// The object that a designation belongs to.
fn object<V: Shelf>(alloc: Global, shelf: &V, caller: u32, d: Designation) -> Result<Bytes, Refusal>
    ensures due { IsDue (answer_of_query (V.history shelf.now) caller (Query.Object d)) result }
    ensures refused { IfErr (answer_of_query (V.history shelf.now) caller (Query.Object d))
        (λ refusal. result ≡ Err refusal) }
{
    match shelf.principal(d) {
        Some(p) => text_or_refusal(object_text(alloc, shelf, p)),
        None => Err(Refusal::UnknownThing(Thing::Designation(d))),
    }
}

/// A tracklet with its observations.
fn tracklet<V: Shelf>(alloc: Global, shelf: &V, caller: u32, t: u64) -> Result<Bytes, Refusal>
    ensures due { IsDue (answer_of_query (V.history shelf.now) caller (Query.Tracklet t)) result }
    ensures refused { IfErr (answer_of_query (V.history shelf.now) caller (Query.Tracklet t))
        (λ refusal. result ≡ Err refusal) }
{
    match shelf.track(t) {
        Some(head) => text_or_refusal(tracklet_text(alloc, shelf, t, &head)),
        None => Err(Refusal::UnknownThing(Thing::Tracklet(t))),
    }
}

/// What a caller's query is told, where a refusal is an error.
fn told<V: Shelf>(alloc: Global, shelf: &V, caller: u32, query: &Query) -> Result<Bytes, Refusal>
    requires { IsReadQuery query.now }
    ensures due { IsDue (answer_of_query (V.history shelf.now) caller query.now) result }
    ensures refused { IfErr (answer_of_query (V.history shelf.now) caller query.now) (λ refusal. result ≡ Err refusal) }
{
    match *query {
        Query::Receipt(number) => receipt(alloc, shelf, caller, number),
        Query::Tally => text_or_refusal(tally_answer(alloc, shelf.tally())),
        Query::Object(d) => object(alloc, shelf, caller, d),
        Query::Tracklet(t) => tracklet(alloc, shelf, caller, t),
        Query::Isolated => text_or_refusal(isolated_text(alloc, shelf)),
        Query::HalfMonth(half) => text_or_refusal(half_month_text(alloc, shelf, half)),
        Query::Name(name) => text_or_refusal(name_text(alloc, shelf, name)),
        Query::Catalogue => text_or_refusal(catalogue_text(alloc, shelf)),
    }
}

/// The reply to a caller's query: the text that tells what is asked, or `UnknownThing` exactly where the thing isn't
/// there; `NoMemory` where memory was refused for the text, so never for a thing that isn't there. A half-month that is
/// asked for is one of the years 1925 to 2099, as [`read_query`](act_model::read_query) gives it.
pub fn answer<V: Shelf>(alloc: Global, shelf: &V, caller: u32, query: &Query) -> Reply
    requires read { IsReadQuery query.now }
    ensures told { Tells (answer_of_query (V.history shelf.now) caller query.now) result }
    ensures refused { IfErr (answer_of_query (V.history shelf.now) caller query.now)
        (λ refusal. result ≡ Reply.Refused refusal) }
{
    match told(alloc, shelf, caller, query) {
        Ok(text) => Reply::Done(text),
        Err(refusal) => Reply::Refused(refusal),
    }
}
