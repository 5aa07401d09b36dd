//! Opening a desk: the second file's parcels are taken in one after the other, each as the entry that it was; where it
//! isn't in force, those of the first file are, and are then carried into it.

ghost use Rattle.std.specs.Prelude.{◌≡◌, ◌≢◌, ◌+◌, ◌<◌, ◌≤◌, ◌^◌, ℕ, List, [], IfOk, IfErr, IfSome, IsErr, IsErrOf};
ghost use Rattle.std.specs.Prelude.{IsSome, OnOk, Err};
ghost use Rattle.std.specs.Prelude.{None, Some};
ghost use Rattle.call_log.specs.Counts.{Rises};
ghost use Rattle.disk_model.specs.Crashes.{During};
ghost use Rattle.obs_journal.specs.Chains.{IsInForce, chained};
ghost use Rattle.obs_journal.specs.Files.{Spells};
ghost use Rattle.obs_journal.specs.Formats.{row_length_in};
ghost use Rattle.obs_journal.specs.Journals.{IsUnwritten};
ghost use Rattle.obs_journal.specs.Moves.{IsIdle};
ghost use Rattle.obs_journal.specs.Opening.{parcels_of, SpellsAlike};
ghost use Rattle.act_model.specs.Legal.{IsLegal};
ghost use Rattle.act_model.specs.Roster.{IsFounder};
ghost use Rattle.mpc_desk.specs.Files.{parcels_in, AreActs, Stands};
ghost use Rattle.mpc_desk.specs.Desks.{IsAtRest};
ghost use Rattle.mpc_desk.specs.Disks.{disk_words};
ghost use Rattle.mpc_desk.specs.Pairs.{pair};
ghost use Rattle.mpc_desk.specs.Opening.{ComesNext, IsNotNext, StopsIn, IsDamagedFirst, IsDamagedSecond, second_after};
ghost use Rattle.mpc_desk.specs.Opening.{EndsMove, EndsOpening};

use crate::chained::{ChainedDesk, let_go};
use crate::desk::Desk;
use crate::laws as desk_laws;
use act_model::Key;
use desk_core::{Core, ReplayFault};
use disk_model::Disk;
use obs_journal::{
    Journal, OpenFault, Parcel, Parcels, Placed, carried_length, in_force, open_first,
};
use std::alloc::Global;

/// Takes in the entry of a parcel.
fn replay(core: &mut Core, parcel: &Parcel) -> Result<(), ReplayFault>
    ensures taken { OnOk result (ComesNext core.old.founder core.old.history parcel.now core.new.history) }
    ensures not_next { IsErrOf result ReplayFault.NotLegal → IsNotNext core.old.founder core.old.history parcel.now }
    ensures founder { core.new.founder ≡ core.old.founder }
{
    core.replay(
        parcel.caller(),
        parcel.number(),
        parcel.moment(),
        parcel.verb(),
        parcel.body(),
    )
}

/// Takes in the entry of a parcel of this file, which stands behind a gate.
fn take_in(core: &mut Core, file: u8, placed: &Placed) -> Result<(), OpenFault>
    ensures taken { OnOk result (ComesNext core.old.founder core.old.history placed.now.parcel core.new.history) }
    ensures damaged { (number offset : ℕ) → result ≡ Err (OpenFault.Damaged number offset) →
        (number ≡ file) × (placed.now.offset ≡ offset)
        × IsNotNext core.old.founder core.old.history placed.now.parcel }
    ensures no_disk { result ≢ Err OpenFault.DiskFault }
    ensures founder { core.new.founder ≡ core.old.founder }
{
    match replay(core, &placed.parcel) {
        Ok(()) => Ok(()),
        Err(ReplayFault::NotLegal) => Err(OpenFault::Damaged {
            file,
            offset: placed.offset,
        }),
        Err(ReplayFault::NoMemory) => Err(OpenFault::NoMemory),
    }
}

/// Takes in the entries of these parcels, the first of a journal's.
fn replay_all(core: &mut Core, file: u8, parcels: &[Placed]) -> Result<(), OpenFault>
    requires empty { core.old.history ≡ [] }
    ensures taken { OnOk result (parcels_in core.new.history ≡ parcels_of parcels.now) }
    ensures legal { OnOk result (IsLegal core.new.founder core.new.history) }
    ensures acts { OnOk result (AreActs core.new.history) }
    ensures damaged { (number offset : ℕ) → result ≡ Err (OpenFault.Damaged number offset) →
        (number ≡ file) × StopsIn core.old.founder parcels.now offset }
    ensures some { IsErr result → parcels.now ≢ [] }
    ensures no_disk { result ≢ Err OpenFault.DiskFault }
    ensures founder { core.new.founder ≡ core.old.founder }
{
    for placed in parcels {
        match take_in(core, file, placed) {
            Ok(()) => {}
            Err(fault) => return Err(fault),
        }
    }
    Ok(())
}

/// The same of parcels that are let go one by one, so that no body stands in memory twice for longer than its entry
/// takes to be taken in.
fn replay_each(core: &mut Core, file: u8, parcels: Parcels) -> Result<(), OpenFault>
    requires empty { core.old.history ≡ [] }
    ensures taken { OnOk result (parcels_in core.new.history ≡ parcels_of parcels) }
    ensures legal { OnOk result (IsLegal core.new.founder core.new.history) }
    ensures acts { OnOk result (AreActs core.new.history) }
    ensures damaged { (number offset : ℕ) → result ≡ Err (OpenFault.Damaged number offset) →
        (number ≡ file) × StopsIn core.old.founder parcels offset }
    ensures no_disk { result ≢ Err OpenFault.DiskFault }
    ensures founder { core.new.founder ≡ core.old.founder }
{
    for placed in parcels.into_iter() {
        match take_in(core, file, &placed) {
            Ok(()) => {}
            Err(fault) => return Err(fault),
        }
    }
    Ok(())
}

/// Opens the office on a second disk, which is in force. Nothing is written.
fn open_second<D: Disk>(
    alloc: Global,
    mut core: Core,
    limit: u64,
    second: D,
) -> Result<ChainedDesk<D>, (OpenFault, D)>
    requires empty { core.history ≡ [] }
    requires in_force { IfSome (D.reads second) IsInForce }
    ensures stands { IfOk result (λ desk. IfSome (D.reads second) (λ file. Stands file desk.state.settled)) }
    ensures legal { IfOk result (λ desk. IsLegal core.founder desk.state.settled) }
    ensures settled { IfOk result (λ desk. desk.state.doubt ≡ None) }
    ensures at_rest { IfOk result (λ desk. IsAtRest D.leaves desk) }
    ensures founder { IfOk result (λ desk. desk.founder ≡ core.founder) }
    ensures limit { IfOk result (λ desk. desk.limit ≡ limit) }
    ensures damaged { IfErr result (λ failed. (file offset : ℕ) → failed.0 ≡ OpenFault.Damaged file offset →
        (file ≡ 2) × IfSome (D.reads second) (λ bytes. IsDamagedSecond core.founder bytes offset)) }
    ensures unwritten { IsUnwritten D.reads D.moment D.since second (second_after result) }
    ensures counts { D.faults second ≤ D.faults (second_after result) }
    ensures cause { IfErr result (λ failed. failed.0 ≡ OpenFault.DiskFault →
        Rises (D.faults second) (D.faults failed.1)) }
{
    obs_journal::laws::one_chain();
    let (journal, parcels) = match Journal::open(alloc, second) {
        Ok(opened) => opened,
        Err(failed) => return Err(failed),
    };
    // A position is fewer than 2 ^ 64 bytes.
    let _ = journal.position();
    match replay_each(&mut core, 2, parcels) {
        Ok(()) => Ok(ChainedDesk {
            alloc,
            core,
            journal,
            limit,
            doubt: None,
        }),
        Err(fault) => {
            let_go(core);
            return Err((fault, journal.close()));
        }
    }
}

/// Reads the parcels of a first disk, and takes in the entry of each: they are those that are carried over.
fn take_first<D: Disk>(alloc: Global, core: &mut Core, first: &mut D) -> Result<Parcels, OpenFault>
    requires empty { core.old.history ≡ [] }
    ensures taken { IfOk result (λ parcels. parcels_in core.new.history ≡ parcels_of parcels) }
    ensures legal { OnOk result (IsLegal core.old.founder core.new.history) }
    ensures acts { OnOk result (AreActs core.new.history) }
    ensures spelled { IfOk result (λ parcels. IfSome (D.reads first.old) (λ file. Spells file (parcels_of parcels))) }
    ensures fits { IfOk result (λ parcels. row_length_in chained (parcels_of parcels) + 2 < 2 ^ 64) }
    ensures damaged { (file offset : ℕ) → result ≡ Err (OpenFault.Damaged file offset) →
        (file ≡ 1) × IfSome (D.reads first.old) (λ bytes. IsDamagedFirst core.old.founder bytes offset) }
    ensures any_moment { During D.moment D.since first.old first.new (SpellsAlike (D.reads first.old)) }
    ensures unwritten { IsErr result → result ≢ Err OpenFault.DiskFault → IsSome (D.reads first.old) →
        IsUnwritten D.reads D.moment D.since first.old first.new }
    ensures founder { core.new.founder ≡ core.old.founder }
    ensures counts { D.faults first.old ≤ D.faults first.new }
    ensures cause { result ≡ Err OpenFault.DiskFault → Rises (D.faults first.old) (D.faults first.new) }
{
    obs_journal::laws::one_list();
    let parcels = match open_first(alloc, first) {
        Ok(parcels) => parcels,
        Err(fault) => return Err(fault),
    };
    match replay_all(core, 1, parcels.as_slice()) {
        Ok(()) => {}
        Err(fault) => return Err(fault),
    }
    match carried_length(&parcels) {
        Some(_) => Ok(parcels),
        None => Err(OpenFault::NoMemory),
    }
}

/// Opens the office on a first disk, and carries it over to a second one, which isn't in force. That is written last,
/// so that a first file which stands for no office leaves it as it was.
fn move_over<D: Disk>(
    alloc: Global,
    mut core: Core,
    limit: u64,
    first: &mut D,
    second: D,
) -> Result<ChainedDesk<D>, (OpenFault, D)>
    requires empty { core.history ≡ [] }
    requires safe { (image : List ℕ) → D.leaves second image → D.reads second ≡ Some image }
    requires idle { IfSome (D.reads second) IsIdle }
    ensures ends { EndsMove (disk_words D.reads D.leaves D.moment D.since D.faults) core.founder limit
        (pair first.old second) first.new result }
{
    let parcels = match take_first(alloc, &mut core, first) {
        Ok(parcels) => parcels,
        Err(fault) => {
            let_go(core);
            return Err((fault, second));
        }
    };
    match Journal::carried(&parcels, second) {
        Ok(journal) => {
            // A position is fewer than 2 ^ 64 bytes.
            let _ = journal.position();
            Ok(ChainedDesk {
                alloc,
                core,
                journal,
                limit,
                doubt: None,
            })
        }
        Err(second) => {
            let_go(core);
            return Err((OpenFault::DiskFault, second));
        }
    }
}

impl<D: Disk> Desk<D> {
    /// Opens the office of the founding officer with this key on its two disks, where the second file may have this
    /// many bytes. The second disk is made safe, and where its file is in force its parcels are read, and the entry of
    /// each is taken in, by all rules of the office. Else those of the first file are, which gets its first gate where
    /// it is fresh, and the history is carried over: the second file is in force then. The key begins with a plus and
    /// has at most 33 bytes. It takes memory.
    ///
    /// # Errors
    /// The disks come back beside the fault: `DiskFault` where one of them failed; `Damaged` where the file that counts
    /// spells no list of parcels, with its number and the offset of the gate where it stops, and else where an entry
    /// isn't legal after those before it, with the offset of its gate; `NoMemory` where memory was refused, or a `u64`
    /// can't count the bytes of the second file.
    pub fn open(
        alloc: Global,
        founder: Key,
        limit: u64,
        mut disk: D,
        mut second: D,
    ) -> Result<Desk<D>, (OpenFault, D, D)>
        requires founder { IsFounder founder }
        // What is promised at each end stands in `specs/Opening.antt`.
        ensures ends { EndsOpening (disk_words D.reads D.leaves D.moment D.since D.faults) founder limit
            (pair disk second) result }
    {
        obs_journal::laws::one_list();
        obs_journal::laws::one_chain();
        desk_laws::damage();
        let Ok(core) = Core::new(alloc, founder) else {
            return Err((OpenFault::NoMemory, disk, second));
        };
        let Ok(is_in_force) = in_force(&mut second) else {
            let_go(core);
            return Err((OpenFault::DiskFault, disk, second));
        };
        if is_in_force {
            return match open_second(alloc, core, limit, second) {
                Ok(chained) => Ok(Desk {
                    first: disk,
                    chained,
                }),
                Err((fault, second)) => Err((fault, disk, second)),
            };
        }
        match move_over(alloc, core, limit, &mut disk, second) {
            Ok(chained) => Ok(Desk {
                first: disk,
                chained,
            }),
            Err((fault, second)) => Err((fault, disk, second)),
        }
    }
}
