//! The live observations of tracklets.

ghost use Rattle.std.specs.Prelude.{◌≡◌, ◌++◌, Ok, OnOk, IfOk, IfSome, IsTrue, flat_map};
ghost use Rattle.std.specs.Option.{option_to_list};
ghost use Rattle.act_model.specs.Rows.{first_row, unless, IsDue};
ghost use Rattle.act_model.specs.Holdings.{holdings};
ghost use Rattle.act_model.specs.Discoveries.{seen_at, seen_of, seen_in};
ghost use Rattle.act_model.specs.Doing.{free_rows};
ghost use Rattle.object_rules.specs.Seeing.{is_of_years, AreOfYears, FileIsOfYears, IsFree};

use crate::asking::home;
use crate::chains::{first_in, next_in};
use crate::ledger::Ledger;
use act_model::{Refusal, Seen};
use item_list::{ItemList, NoMemory};
use std::alloc::Global;
use tracklet_file::TrackletFile;

/// An observation with its number, where it is live.
fn seen_at(file: &TrackletFile, k: u64) -> Option<Seen>
    requires years { FileIsOfYears file.now.observations }
    ensures seen { result ≡ seen_at file.now.observations k }
    ensures years { IfSome result (λ seen. IsTrue (is_of_years seen.time)) }
{
    let Some(s) = file.sighting(k) else {
        return None;
    };
    if file.is_live(k) {
        Some(Seen {
            number: k,
            time: s.time,
        })
    } else {
        None
    }
}

/// Adds an observation, where there is one.
#[tactic(auto, using(crate::proofs::SeenLemmas::of_years_more))]
fn push_one(seen: &mut ItemList<Seen>, one: Option<Seen>) -> Result<(), NoMemory>
    requires before { AreOfYears seen.old }
    requires one { IfSome one (λ one. IsTrue (is_of_years one.time)) }
    ensures seen { OnOk result (seen.new ≡ seen.old ++ option_to_list one) }
    ensures years { OnOk result (AreOfYears seen.new) }
{
    match one {
        Some(one) => seen.push(one),
        None => Ok(()),
    }
}

/// Adds the live observations of a tracklet, in the order of their numbers.
fn push_seen(file: &TrackletFile, seen: &mut ItemList<Seen>, t: u64) -> Result<(), NoMemory>
    requires years { FileIsOfYears file.now.observations }
    requires before { AreOfYears seen.old }
    ensures seen { OnOk result (seen.new ≡ seen.old ++ seen_of file.now.observations t) }
    ensures years { OnOk result (AreOfYears seen.new) }
{
    let mut next = first_in(file, t);
    while let Some(k) = next {
        push_one(seen, seen_at(file, k))?;
        next = next_in(file, t, k);
    }
    Ok(())
}

/// Tests a tracklet that is to come into an object, and adds its live observations.
fn free_track<L: Ledger>(office: &L, seen: &mut ItemList<Seen>, t: u64) -> Result<(), Refusal>
    requires before { AreOfYears seen.old }
    ensures free { IsFree (first_row (free_rows (holdings (L.deeds office.now)) t)) result }
    ensures seen { OnOk result (seen.new ≡ seen.old ++ seen_of (holdings (L.deeds office.now)).observations t) }
    ensures years { OnOk result (AreOfYears seen.new) }
{
    if home(office, t).is_some() {
        return Err(Refusal::NotIsolated(t));
    }
    let before = seen.len();
    if push_seen(office.file(), seen, t).is_err() {
        return Err(Refusal::NoMemory);
    }
    if seen.len() == before {
        return Err(Refusal::Empty(t));
    }
    Ok(())
}

/// Tests tracklets that are to come into an object, one after the other, and gives their live observations.
pub(crate) fn free_seen<L: Ledger>(
    office: &L,
    alloc: Global,
    tracklets: &[u64],
) -> Result<ItemList<Seen>, Refusal>
    ensures due { IsDue
        (unless (first_row (flat_map (free_rows (holdings (L.deeds office.now))) tracklets.now))
        (Ok (seen_in (holdings (L.deeds office.now)).observations tracklets.now))) result }
    ensures years { IfOk result AreOfYears }
{
    let mut seen = ItemList::new(alloc);
    for t in tracklets {
        match free_track(office, &mut seen, *t) {
            Ok(()) => {}
            Err(refusal) => return Err(refusal),
        }
    }
    Ok(seen)
}
