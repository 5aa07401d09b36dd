//! A mirror made to hold the rows of an office.

ghost use Rattle.std.specs.Prelude.{◌≡◌, ◌≢◌, ◌≤◌, ◌<◌, Err, IfOk, OnOk, OnErr, IsSome, length};
ghost use Rattle.call_log.specs.Counts.{Rises};
ghost use Rattle.act_model.specs.Deeds.{deeds};
ghost use Rattle.act_model.specs.Designations.{links_of, principals};
ghost use Rattle.act_model.specs.Observations.{observations};
ghost use Rattle.mirror_store.specs.declared.refreshing.RefreshFault.{RefreshFault};
ghost use Rattle.mirror_store.specs.Mirrored.{greatest, mirrored, refresh_result, too_many, uncountable, RefusesBy};
ghost use Rattle.mirror_store.specs.Mirrors.{IsReplaced};

use crate::laws;
use crate::mirror::{Mirror, MirrorErr};
use crate::objects::object_rows;
use crate::rows::MirrorRows;
use crate::sights::sight_rows;
use act_model::{Names, Shelf};
use item_list::NoMemory;
use packed_names::Designation;
use std::alloc::Global;

/// The greatest number that a row has.
const GREATEST: u64 = 4_294_967_295;

/// What a refresh did.
#[derive(Clone, Copy, Debug, PartialEq, Eq)]
pub struct Refreshed {
    /// The entries of the history that the rows are of.
    pub entries: u64,
    /// The objects that are in the mirror.
    pub objects: u32,
    /// The observations that are in the mirror.
    pub sights: u32,
}

/// Why a mirror wasn't refreshed.
#[derive(Clone, Copy, Debug, PartialEq, Eq)]
pub enum RefreshFault {
    /// The mirror failed, and its count of faults rose.
    Failed,
    /// There are more than 4,294,967,295 accepted observations, or else this many objects.
    TooMany {
        /// How many there are.
        count: u64,
    },
    /// Out of memory.
    NoMemory,
}

/// How many there are where they are more than rows can count: the accepted observations, or else the objects, each
/// with its principal designation.
pub fn too_many(accepted: u64, principals: u64) -> Option<u64>
    ensures { result ≡ too_many accepted principals }
{
    if accepted > GREATEST {
        Some(accepted)
    } else if principals > GREATEST {
        Some(principals)
    } else {
        None
    }
}

/// The principal designations, where rows can count them and the accepted observations.
fn countable_names<V: Shelf>(shelf: &V) -> Result<Names, RefreshFault>
    ensures names { IfOk result (λ names. names ≡ principals (links_of (deeds (V.history shelf.now)))) }
    ensures too_many { RefusesBy (uncountable (V.history shelf.now)) result }
    ensures accepted { greatest < observations (deeds (V.history shelf.now)) →
        result ≡ Err (RefreshFault.TooMany (observations (deeds (V.history shelf.now)))) }
    ensures unfailed { result ≢ Err RefreshFault.Failed }
{
    let accepted = shelf.tally().accepted;
    if let Some(count) = too_many(accepted, 0) {
        return Err(RefreshFault::TooMany { count });
    }
    let Ok(names) = shelf.principals() else {
        return Err(RefreshFault::NoMemory);
    };
    match too_many(accepted, names.len()) {
        Some(count) => Err(RefreshFault::TooMany { count }),
        None => Ok(names),
    }
}

/// The rows of an office with these principal designations.
#[tactic(auto, unfolding(crate::specs::Mirrored::mirrored))]
fn rows_of_names<V: Shelf>(
    alloc: Global,
    shelf: &V,
    names: &[Designation],
) -> Result<MirrorRows, NoMemory>
    requires names { names.now ≡ principals (links_of (deeds (V.history shelf.now))) }
    requires countable { uncountable (V.history shelf.now) ≡ None }
    ensures { IfOk result (λ rows. rows ≡ mirrored (V.history shelf.now)) }
{
    laws::names_are_names();
    let objects = object_rows(alloc, shelf, names)?;
    let sights = sight_rows(alloc, shelf)?;
    Ok(MirrorRows { objects, sights })
}

/// The rows of an office, where rows can count its observations and its objects.
fn rows_of<V: Shelf>(alloc: Global, shelf: &V) -> Result<MirrorRows, RefreshFault>
    ensures rows { IfOk result (λ rows. rows ≡ mirrored (V.history shelf.now)) }
    ensures too_many { RefusesBy (uncountable (V.history shelf.now)) result }
    ensures accepted { greatest < observations (deeds (V.history shelf.now)) →
        result ≡ Err (RefreshFault.TooMany (observations (deeds (V.history shelf.now)))) }
    ensures unfailed { result ≢ Err RefreshFault.Failed }
{
    let names = match countable_names(shelf) {
        Ok(names) => names,
        Err(fault) => return Err(fault),
    };
    match rows_of_names(alloc, shelf, names.as_slice()) {
        Ok(rows) => Ok(rows),
        Err(_) => Err(RefreshFault::NoMemory),
    }
}

/// What is said about the rows of an office, once they are in a mirror.
fn told_of<V: Shelf>(shelf: &V, rows: &MirrorRows) -> Refreshed
    requires rows { rows.now ≡ mirrored (V.history shelf.now) }
    requires countable { uncountable (V.history shelf.now) ≡ None }
    ensures { result ≡ refresh_result (V.history shelf.now) }
{
    Refreshed {
        entries: shelf.tally().entries,
        objects: rows.objects.len() as u32,
        sights: rows.sights.len() as u32,
    }
}

/// Replaces the rows of a mirror by those of an office, all of them or none. It takes memory.
///
/// # Errors
///
/// `TooMany` where rows can't count the office's accepted observations or its objects; the mirror isn't called then.
/// `Failed` where the mirror failed, which raised its count of faults. `NoMemory` where memory was refused.
pub fn refresh<V: Shelf, M: Mirror>(
    alloc: Global,
    shelf: &V,
    mirror: &mut M,
) -> Result<Refreshed, RefreshFault>
    ensures replaced { OnOk result
        (IsReplaced (M.told mirror.old) (M.told mirror.new) (mirrored (V.history shelf.now))) }
    ensures numbers { IfOk result (λ numbers. numbers ≡ refresh_result (V.history shelf.now)) }
    ensures kept { OnErr result (M.told mirror.new ≡ M.told mirror.old) }
    ensures too_many { RefusesBy (uncountable (V.history shelf.now)) result }
    ensures accepted { greatest < observations (deeds (V.history shelf.now)) →
        result ≡ Err (RefreshFault.TooMany (observations (deeds (V.history shelf.now)))) }
    ensures uncalled { IsSome (uncountable (V.history shelf.now)) → mirror.new ≡ mirror.old }
    ensures counts { M.faults mirror.old ≤ M.faults mirror.new }
    ensures cause { result ≡ Err RefreshFault.Failed → Rises (M.faults mirror.old) (M.faults mirror.new) }
    ensures faultless { result ≢ Err RefreshFault.Failed → M.faults mirror.new ≡ M.faults mirror.old }
{
    laws::rows_are_replaceable();
    let rows = match rows_of(alloc, shelf) {
        Ok(rows) => rows,
        Err(fault) => return Err(fault),
    };
    match mirror.replace(&rows) {
        Ok(()) => Ok(told_of(shelf, &rows)),
        Err(MirrorErr::Failed) => Err(RefreshFault::Failed),
        Err(MirrorErr::NoMemory) => Err(RefreshFault::NoMemory),
    }
}
