//! The workload on an office in memory.

ghost use Rattle.std.specs.Prelude.{◌≡◌, ◌≤◌, [], ◌∷◌, true, flat_map, OnOk, IfErr};
ghost use Rattle.std.specs.List.{range_with_len};
ghost use Rattle.act_model.specs.Requests.{is_act};
ghost use Rattle.office_workload.specs.Running.{AreTaken, IsRefusedOne, reply_result};
ghost use Rattle.office_workload.specs.Workloads.{officer, station_request, submission, designation, object_requests};
ghost use Rattle.office_workload.specs.Workloads.{workload};

use crate::generating::number_after;
use crate::requests::{designation, moment, station_request, submission};
use act_model::{Refusal, Reply, Request};
use plain_keeper::PlainKeeper;
use std::alloc::Global;

/// Whether the request was done, or why not.
fn reply_result(reply: Reply) -> Result<(), Refusal>
    ensures { result ≡ reply_result reply }
{
    match reply {
        Reply::Done(_) => Ok(()),
        Reply::Refused(refusal) => Err(refusal),
    }
}

/// Takes one request.
fn take(keeper: &mut PlainKeeper, request: &Request) -> Result<(), Refusal>
    requires act { is_act request.now.verb ≡ true }
    requires founder { keeper.old.founder ≡ officer }
    ensures taken { OnOk result (AreTaken keeper.old.history (request.now ∷ []) keeper.new.history) }
    ensures refused { IfErr result (IsRefusedOne keeper.old.history (request.now ∷ [])) }
    ensures founder { keeper.new.founder ≡ officer }
{
    reply_result(keeper.act(request, moment()))
}

/// Takes the request by which the station is entered.
fn take_station(alloc: Global, keeper: &mut PlainKeeper) -> Result<(), Refusal>
    requires founder { keeper.old.founder ≡ officer }
    ensures taken { OnOk result (AreTaken keeper.old.history (station_request ∷ []) keeper.new.history) }
    ensures refused { IfErr result (IsRefusedOne keeper.old.history (station_request ∷ [])) }
    ensures founder { keeper.new.founder ≡ officer }
{
    match station_request(alloc) {
        Ok(request) => take(keeper, &request),
        Err(_) => Err(Refusal::NoMemory),
    }
}

/// Takes the four lines of an object.
fn take_submission(alloc: Global, keeper: &mut PlainKeeper, i: u64, x: u64) -> Result<(), Refusal>
    requires first { 1 ≤ i }
    requires last { i ≤ 20000 }
    requires founder { keeper.old.founder ≡ officer }
    ensures taken { OnOk result (AreTaken keeper.old.history (submission i x ∷ []) keeper.new.history) }
    ensures refused { IfErr result (IsRefusedOne keeper.old.history (submission i x ∷ [])) }
    ensures founder { keeper.new.founder ≡ officer }
{
    match submission(alloc, i, x) {
        Ok(request) => take(keeper, &request),
        Err(_) => Err(Refusal::NoMemory),
    }
}

/// Takes the request that makes an object of its two tracklets.
fn take_designation(alloc: Global, keeper: &mut PlainKeeper, i: u64) -> Result<(), Refusal>
    requires first { 1 ≤ i }
    requires last { i ≤ 20000 }
    requires founder { keeper.old.founder ≡ officer }
    ensures taken { OnOk result (AreTaken keeper.old.history (designation i ∷ []) keeper.new.history) }
    ensures refused { IfErr result (IsRefusedOne keeper.old.history (designation i ∷ [])) }
    ensures founder { keeper.new.founder ≡ officer }
{
    match designation(alloc, i) {
        Ok(request) => take(keeper, &request),
        Err(_) => Err(Refusal::NoMemory),
    }
}

/// Takes both requests of an object.
fn take_object(alloc: Global, keeper: &mut PlainKeeper, i: u64, x: u64) -> Result<(), Refusal>
    requires first { 1 ≤ i }
    requires last { i ≤ 20000 }
    requires founder { keeper.old.founder ≡ officer }
    ensures taken { OnOk result (AreTaken keeper.old.history (submission i x ∷ designation i ∷ [])
        keeper.new.history) }
    ensures refused { IfErr result (IsRefusedOne keeper.old.history (submission i x ∷ designation i ∷ [])) }
    ensures founder { keeper.new.founder ≡ officer }
{
    match take_submission(alloc, keeper, i, x) {
        Ok(()) => take_designation(alloc, keeper, i),
        Err(refusal) => Err(refusal),
    }
}

/// Takes the requests of this many objects.
fn take_objects(
    alloc: Global,
    keeper: &mut PlainKeeper,
    seed: u64,
    count: u64,
) -> Result<(), Refusal>
    requires last { count ≤ 20000 }
    requires founder { keeper.old.founder ≡ officer }
    ensures taken { OnOk result (AreTaken keeper.old.history
        (flat_map (object_requests seed) (range_with_len 1 count)) keeper.new.history) }
    ensures refused { IfErr result (IsRefusedOne keeper.old.history
        (flat_map (object_requests seed) (range_with_len 1 count))) }
    ensures founder { keeper.new.founder ≡ officer }
{
    let mut x = seed;
    'objects: for before in 0..count {
        x = number_after(x);
        match take_object(alloc, keeper, before + 1, x) {
            Ok(()) => {}
            Err(refusal) => return Err(refusal),
        }
    }
    Ok(())
}

/// Takes the whole workload, request by request; no list of them is kept. It takes memory.
///
/// # Errors
///
/// A request was refused, or memory was.
pub(crate) fn take_all(
    alloc: Global,
    keeper: &mut PlainKeeper,
    seed: u64,
    count: u64,
) -> Result<(), Refusal>
    requires last { count ≤ 20000 }
    requires founder { keeper.old.founder ≡ officer }
    ensures taken { OnOk result (AreTaken keeper.old.history (workload seed count) keeper.new.history) }
    ensures refused { IfErr result (IsRefusedOne keeper.old.history (workload seed count)) }
{
    match take_station(alloc, keeper) {
        Ok(()) => take_objects(alloc, keeper, seed, count),
        Err(refusal) => Err(refusal),
    }
}
