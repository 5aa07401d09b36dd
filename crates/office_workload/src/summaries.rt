//! What is said about the office after the workload.

ghost use Rattle.std.specs.Prelude.{◌≡◌, ◌≤◌, ◌++◌, [], false, length, IfOk, OnOk};
ghost use Rattle.act_model.specs.Catalogue.{catalogue};
ghost use Rattle.act_model.specs.Deeds.{deeds};
ghost use Rattle.act_model.specs.Designations.{links_of, principals};
ghost use Rattle.act_model.specs.Replies.{refusal_text};
ghost use Rattle.act_model.specs.Tallies.{tally, tally_text};
ghost use Rattle.office_workload.specs.Running.{is_no_memory};
ghost use Rattle.office_workload.specs.Summaries.{head_line, last_line, last_designation, catalogue_line, summary_at};
ghost use Rattle.office_workload.specs.Summaries.{summary};
ghost use Rattle.office_workload.specs.Workloads.{officer};

use crate::counting::catalogue_bytes;
use crate::requests::{officer, push_numbered};
use crate::running::take_all;
use act_model::{
    Refusal, Reply, Shelf, Text, push_designation, push_packed, reply_text, tally_answer,
};
use item_list::{Bytes, NoMemory};
use packed_names::Designation;
use plain_keeper::PlainKeeper;
use std::alloc::{AllocError, Global};

#[tactic(auto, unfolding(crate::specs::Summaries::head_line))]
fn push_head(out: &mut Bytes, seed: u64, count: u64) -> Result<(), NoMemory>
    ensures { OnOk result (out.new ≡ out.old ++ head_line seed count) }
{
    push_numbered(out, b"workload seed ", seed)?;
    push_numbered(out, b" count ", count)?;
    out.push(b'\n')
}

#[tactic(auto, unfolding(crate::specs::Summaries::last_line))]
fn push_last(out: &mut Bytes, last: Option<Designation>) -> Result<(), NoMemory>
    ensures { OnOk result (out.new ≡ out.old ++ last_line last) }
{
    match last {
        Some(d) => {
            out.extend_from_slice(b"last ")?;
            push_designation(out, d)?;
            out.extend_from_slice(b" ")?;
            push_packed(out, d)?;
            out.push(b'\n')
        }
        None => Ok(()),
    }
}

#[tactic(auto, unfolding(crate::specs::Summaries::catalogue_line))]
fn push_catalogue(out: &mut Bytes, bytes: u64) -> Result<(), NoMemory>
    ensures { OnOk result (out.new ≡ out.old ++ catalogue_line bytes) }
{
    push_numbered(out, b"catalogue ", bytes)?;
    out.extend_from_slice(b" bytes")?;
    out.push(b'\n')
}

/// The last principal designation in the order of designations.
fn last_designation<V: Shelf>(shelf: &V) -> Result<Option<Designation>, NoMemory>
    ensures { IfOk result (λ last. last ≡ last_designation (V.history shelf.now)) }
{
    let names = shelf.principals()?;
    Ok(names.get(names.len().saturating_sub(1)).copied())
}

#[tactic(auto, unfolding(crate::specs::Summaries::summary_at))]
fn push_summary<V: Shelf>(
    alloc: Global,
    out: &mut Bytes,
    shelf: &V,
    seed: u64,
    count: u64,
) -> Result<(), NoMemory>
    ensures { OnOk result (out.new ≡ out.old ++ summary_at seed count (V.history shelf.now)) }
{
    let tally = tally_answer(alloc, shelf.tally())?;
    let last = last_designation(shelf)?;
    let bytes = catalogue_bytes(alloc, shelf)?;
    push_head(out, seed, count)?;
    out.extend_from_slice(tally.as_slice())?;
    push_last(out, last)?;
    push_catalogue(out, bytes)
}

/// What is said about an office.
fn summary_at<V: Shelf>(alloc: Global, shelf: &V, seed: u64, count: u64) -> Result<Bytes, NoMemory>
    ensures { IfOk result (λ text. text ≡ summary_at seed count (V.history shelf.now)) }
{
    let mut out = Bytes::new(alloc);
    push_summary(alloc, &mut out, shelf, seed, count)?;
    Ok(out)
}

/// The lines of a refusal.
fn refusal_text(alloc: Global, refusal: Refusal) -> Result<Bytes, NoMemory>
    ensures { IfOk result (λ text. text ≡ refusal_text refusal) }
{
    match reply_text(alloc, Reply::Refused(refusal)) {
        Ok(Text::Lines(text)) => Ok(text),
        Ok(Text::Line(line)) => Bytes::from_slice(alloc, line.as_slice()),
        Err(_) => Err(AllocError),
    }
}

/// Whether memory was refused.
fn is_no_memory(refusal: &Refusal) -> bool
    ensures { result ≡ is_no_memory refusal.now }
{
    matches!(refusal, Refusal::NoMemory)
}

/// What is said about a refusal: nothing where memory was refused.
fn told_refusal(alloc: Global, refusal: Refusal) -> Result<Bytes, NoMemory>
    ensures text { IfOk result (λ text. text ≡ refusal_text refusal) }
    ensures other { IfOk result (λ _. is_no_memory refusal ≡ false) }
{
    if is_no_memory(&refusal) {
        return Err(AllocError);
    }
    refusal_text(alloc, refusal)
}

/// What is said of an office without entries that takes the workload.
fn summary_of(
    alloc: Global,
    keeper: &mut PlainKeeper,
    seed: u64,
    count: u64,
) -> Result<Bytes, NoMemory>
    requires last { count ≤ 20000 }
    requires founder { keeper.old.founder ≡ officer }
    requires empty { keeper.old.history ≡ [] }
    ensures { IfOk result (λ text. text ≡ summary seed count) }
{
    match take_all(alloc, keeper, seed, count) {
        Ok(()) => summary_at(alloc, keeper.core(), seed, count),
        Err(refusal) => told_refusal(alloc, refusal),
    }
}

/// Lets an office go. So deep a type is let go in one place, since the proof of that takes long, and where it stands in
/// a longer function the list of its steps is as long again.
fn let_go(keeper: PlainKeeper) {
    drop(keeper);
}

/// The summary of the workload that this seed starts, of this many objects, at most 20,000. The requests are taken by
/// an office in memory one after another; then the tally of the office is told, its last designation, and how many
/// bytes its catalogue has. Where a request is refused, the lines of the first refusal stand in the summary's place. It
/// takes memory.
///
/// # Errors
///
/// Memory was refused.
pub fn summary(alloc: Global, seed: u64, count: u64) -> Result<Bytes, NoMemory>
    requires { count ≤ 20000 }
    ensures { IfOk result (λ text. text ≡ summary seed count) }
{
    match PlainKeeper::new(alloc, officer()) {
        Ok(mut keeper) => {
            let text = summary_of(alloc, &mut keeper, seed, count);
            let_go(keeper);
            text
        }
        Err(_) => Err(AllocError),
    }
}
