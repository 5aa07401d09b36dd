//! The text of the isolated tracklets.

ghost use Rattle.std.specs.Prelude.{◌≡◌, ◌≤◌, ◌++◌, filter_map, if◌then◌else◌, [], length, IfOk, OnOk};
ghost use Rattle.act_model.specs.Deeds.{deeds};
ghost use Rattle.act_model.specs.Discoveries.{seen_at, seen_of};
ghost use Rattle.act_model.specs.Holdings.{holdings};
ghost use Rattle.act_model.specs.QueryTexts.{live_line, isolated_text};
ghost use Rattle.act_model.specs.Shelves.{has_no_home};

use crate::reading::is_live;
use crate::writing::push_numbered;
use act_model::Shelf;
use item_list::{Bytes, NoMemory};
use std::alloc::Global;

/// How many of these observations are live.
fn live_in<V: Shelf>(shelf: &V, items: &[u64]) -> u64
    ensures count { result
        ≡ length (filter_map (seen_at (holdings (deeds (V.history shelf.now))).observations) items.now) }
    ensures within { result ≤ length items.now }
{
    let mut live = 0;
    for k in items {
        if is_live(shelf, *k) {
            live += 1;
        }
    }
    live
}

/// How many live observations a tracklet has.
fn live_of_track<V: Shelf>(shelf: &V, t: u64) -> Result<u64, NoMemory>
    ensures { IfOk result (λ live. live ≡ length (seen_of (holdings (deeds (V.history shelf.now))).observations t)) }
{
    let items = shelf.items(t)?;
    Ok(live_in(shelf, items.as_slice()))
}

fn push_live_line<V: Shelf>(shelf: &V, out: &mut Bytes, t: u64) -> Result<(), NoMemory>
    ensures { OnOk result (out.new ≡ out.old ++ live_line (holdings (deeds (V.history shelf.now))).observations t) }
{
    let live = live_of_track(shelf, t)?;
    push_numbered(out, b"track ", t)?;
    push_numbered(out, b" live ", live)?;
    out.push(b'\n')
}

/// Writes the line of a tracklet that is there, where it is isolated.
fn push_isolated_line<V: Shelf>(shelf: &V, out: &mut Bytes, t: u64) -> Result<(), NoMemory>
    ensures { OnOk result (out.new ≡ out.old ++
        (if has_no_home (holdings (deeds (V.history shelf.now))).tracklets t
        then live_line (holdings (deeds (V.history shelf.now))).observations t else [])) }
{
    match shelf.track(t) {
        Some(head) if head.home.is_some() => Ok(()),
        _ => push_live_line(shelf, out, t),
    }
}

fn push_isolated<V: Shelf>(shelf: &V, out: &mut Bytes) -> Result<(), NoMemory>
    ensures { OnOk result (out.new ≡ out.old ++ isolated_text (holdings (deeds (V.history shelf.now)))) }
{
    for before in 0..shelf.tracks() {
        push_isolated_line(shelf, out, before + 1)?;
    }
    Ok(())
}

/// The isolated tracklets by number, each with the count of its live observations.
pub(crate) fn isolated_text<V: Shelf>(alloc: Global, shelf: &V) -> Result<Bytes, NoMemory>
    ensures { IfOk result (λ text. text ≡ isolated_text (holdings (deeds (V.history shelf.now)))) }
{
    let mut out = Bytes::new(alloc);
    push_isolated(shelf, &mut out)?;
    Ok(out)
}
