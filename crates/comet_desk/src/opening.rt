//! Opening a register: the parcels of its file are taken in one after the other, each as the entry that it was; where
//! the file isn't in force, it is made an empty one that is.

ghost use Rattle.std.specs.Prelude.{◌≡◌, ◌≢◌, ◌≤◌, ℕ, List, [], IfErr, IfOk, IfSome, IsErrOf, OnOk};
ghost use Rattle.std.specs.Prelude.{Err, None, Some};
ghost use Rattle.call_log.specs.Counts.{Rises};
ghost use Rattle.disk_model.specs.Crashes.{During};
ghost use Rattle.obs_journal.specs.Chains.{IsInForce};
ghost use Rattle.obs_journal.specs.Journals.{IsUnwritten};
ghost use Rattle.obs_journal.specs.Moves.{IsIdle, IsCarriedInto};
ghost use Rattle.obs_journal.specs.Opening.{parcels_of};
ghost use Rattle.act_model.specs.declared.deed.Deed.{Deed};
ghost use Rattle.act_model.specs.Deeds.{deeds};
ghost use Rattle.mpc_desk.specs.Disks.{disk_words};
ghost use Rattle.mpc_desk.specs.Files.{parcels_in, Stands};
ghost use Rattle.comet_core.specs.Register.{IsOver};
ghost use Rattle.comet_desk.specs.Desks.{IsBeside, IsAtRest};
ghost use Rattle.comet_desk.specs.Opening.{ComesNext, IsNotNext, StopsIn, IsDamaged, EndsOpening, disk_after};

use crate::desk::{CometDesk, let_go};
use crate::laws as desk_laws;
use act_model::{Key, Shelf};
use comet_core::{Register, ReplayFault};
use disk_model::Disk;
use obs_journal::{Journal, OpenFault, Parcel, Parcels, Placed, in_force};
use std::alloc::Global;

/// The number of a register's file, beside the two of an office.
const FILE_NUMBER: u8 = 3;

/// The fault of a journal, as that of a register's file.
fn of_register(fault: OpenFault) -> OpenFault
    ensures damaged { (file offset : ℕ) → result ≡ OpenFault.Damaged file offset →
        (file ≡ 3) × ((number : ℕ) × (fault ≡ OpenFault.Damaged number offset)) }
    ensures disk { result ≡ OpenFault.DiskFault → fault ≡ OpenFault.DiskFault }
{
    match fault {
        OpenFault::Damaged { offset, .. } => OpenFault::Damaged {
            file: FILE_NUMBER,
            offset,
        },
        OpenFault::DiskFault => OpenFault::DiskFault,
        OpenFault::NoMemory => OpenFault::NoMemory,
    }
}

/// Takes in the entry of a parcel.
fn replay<V: Shelf>(
    register: &mut Register,
    alloc: Global,
    shelf: &V,
    parcel: &Parcel,
) -> Result<(), ReplayFault>
    requires over { IsOver (deeds (V.history shelf.now)) register.old }
    ensures taken { OnOk result (ComesNext register.old.founder (deeds (V.history shelf.now)) register.old.entries
        parcel.now register.new.entries) }
    ensures not_next { IsErrOf result ReplayFault.NotLegal →
        IsNotNext register.old.founder (deeds (V.history shelf.now)) register.old.entries parcel.now }
    ensures over { IsOver (deeds (V.history shelf.now)) register.new }
    ensures founder { register.new.founder ≡ register.old.founder }
{
    register.replay(
        alloc,
        shelf,
        parcel.caller(),
        parcel.number(),
        parcel.moment(),
        parcel.verb(),
        parcel.body(),
    )
}

/// Takes in the entries of these parcels, the first of a journal's.
fn replay_all<V: Shelf>(
    register: &mut Register,
    alloc: Global,
    shelf: &V,
    parcels: &[Placed],
) -> Result<(), OpenFault>
    requires over { IsOver (deeds (V.history shelf.now)) register.old }
    requires empty { register.old.entries ≡ [] }
    ensures taken { OnOk result (parcels_in register.new.entries ≡ parcels_of parcels.now) }
    ensures over { IsOver (deeds (V.history shelf.now)) register.new }
    ensures damaged { (file offset : ℕ) → result ≡ Err (OpenFault.Damaged file offset) →
        (file ≡ 3) × StopsIn register.old.founder (deeds (V.history shelf.now)) parcels.now offset }
    ensures no_disk { result ≢ Err OpenFault.DiskFault }
    ensures founder { register.new.founder ≡ register.old.founder }
{
    for placed in parcels {
        match replay(register, alloc, shelf, &placed.parcel) {
            Ok(()) => {}
            Err(ReplayFault::NotLegal) => {
                return Err(OpenFault::Damaged {
                    file: FILE_NUMBER,
                    offset: placed.offset,
                });
            }
            Err(ReplayFault::NoMemory) => return Err(OpenFault::NoMemory),
        }
    }
    Ok(())
}

/// Opens the register whose file is in force. Nothing is written.
fn open_chain<D: Disk, V: Shelf>(
    alloc: Global,
    mut register: Register,
    limit: u64,
    shelf: &V,
    disk: D,
) -> Result<CometDesk<D>, (OpenFault, D)>
    requires over { IsOver (deeds (V.history shelf.now)) register }
    requires empty { register.entries ≡ [] }
    requires in_force { IfSome (D.reads disk) IsInForce }
    ensures stands { IfOk result (λ opened. IfSome (D.reads disk) (λ file. Stands file opened.state.settled)) }
    ensures settled { IfOk result (λ opened. opened.state.doubt ≡ None) }
    ensures beside { IfOk result (IsBeside (deeds (V.history shelf.now))) }
    ensures at_rest { IfOk result (IsAtRest D.leaves) }
    ensures founder { IfOk result (λ opened. opened.founder ≡ register.founder) }
    ensures limit { IfOk result (λ opened. opened.limit ≡ limit) }
    ensures damaged { IfErr result (λ failed. (file offset : ℕ) → failed.0 ≡ OpenFault.Damaged file offset →
        (file ≡ 3) × IfSome (D.reads disk) (λ bytes.
        IsDamaged register.founder (deeds (V.history shelf.now)) bytes offset)) }
    ensures unwritten { IsUnwritten D.reads D.moment D.since disk (disk_after result) }
    ensures counts { D.faults disk ≤ D.faults (disk_after result) }
    ensures cause { IfErr result (λ failed. failed.0 ≡ OpenFault.DiskFault →
        Rises (D.faults disk) (D.faults failed.1)) }
{
    let (journal, parcels) = match Journal::open(alloc, disk) {
        Ok(opened) => opened,
        Err((fault, disk)) => {
            let_go(register);
            return Err((of_register(fault), disk));
        }
    };
    // A position is fewer than 2 ^ 64 bytes.
    let _ = journal.position();
    match replay_all(&mut register, alloc, shelf, parcels.as_slice()) {
        Ok(()) => Ok(CometDesk {
            alloc,
            register,
            journal,
            limit,
            doubt: None,
        }),
        Err(fault) => {
            let_go(register);
            Err((fault, journal.close()))
        }
    }
}

/// Begins a register without entries on a disk whose file isn't in force.
fn begin<D: Disk>(
    alloc: Global,
    register: Register,
    limit: u64,
    disk: D,
) -> Result<CometDesk<D>, (OpenFault, D)>
    requires empty { register.entries ≡ [] }
    requires safe { (image : List ℕ) → D.leaves disk image → D.reads disk ≡ Some image }
    requires idle { IfSome (D.reads disk) IsIdle }
    ensures none { IfOk result (λ opened. opened.state.settled ≡ []) }
    ensures settled { IfOk result (λ opened. opened.state.doubt ≡ None) }
    ensures beside { (desk : List Deed) → IsOver desk register → IfOk result (IsBeside desk) }
    ensures at_rest { IfOk result (IsAtRest D.leaves) }
    ensures founder { IfOk result (λ opened. opened.founder ≡ register.founder) }
    ensures limit { IfOk result (λ opened. opened.limit ≡ limit) }
    ensures fault { IfErr result (λ failed. failed.0 ≡ OpenFault.DiskFault) }
    ensures any_moment { During D.moment D.since disk (disk_after result) (IsCarriedInto (D.reads disk) []) }
    ensures counts { D.faults disk ≤ D.faults (disk_after result) }
    ensures cause { IfErr result (λ failed. Rises (D.faults disk) (D.faults failed.1)) }
{
    match Journal::carried(&Parcels::new(alloc), disk) {
        Ok(journal) => Ok(CometDesk {
            alloc,
            register,
            journal,
            limit,
            doubt: None,
        }),
        Err(disk) => {
            let_go(register);
            Err((OpenFault::DiskFault, disk))
        }
    }
}

impl<D: Disk> CometDesk<D> {
    /// Opens the register of the founding officer with this key on its disk, where the file may have this many bytes,
    /// beside an office that is read. The disk is made safe, and where its file is in force its parcels are read, and
    /// the entry of each is taken in, by all rules of the register. Else the register has no entries, and the file is
    /// made one that is in force. It takes memory.
    ///
    /// # Errors
    ///
    /// The disk comes back beside the fault: `DiskFault` where it failed; `Damaged` in file 3 where the file spells no
    /// list of parcels, with the offset of the gate where it stops, and else where an entry isn't legal beside the
    /// office after those before it, with the offset of its gate; `NoMemory` where memory was refused.
    pub fn open<V: Shelf>(
        alloc: Global,
        founder: Key,
        limit: u64,
        shelf: &V,
        mut disk: D,
    ) -> Result<CometDesk<D>, (OpenFault, D)>
        // What is promised at each end stands in `specs/Opening.antt`.
        ensures ends { EndsOpening (disk_words D.reads D.leaves D.moment D.since D.faults) founder limit
            (deeds (V.history shelf.now)) disk result }
    {
        obs_journal::laws::one_chain();
        desk_laws::damage();
        let Ok(register) = Register::new(alloc, founder) else {
            return Err((OpenFault::NoMemory, disk));
        };
        let Ok(is_in_force) = in_force(&mut disk) else {
            let_go(register);
            return Err((OpenFault::DiskFault, disk));
        };
        if is_in_force {
            return open_chain(alloc, register, limit, shelf, disk);
        }
        begin(alloc, register, limit, disk)
    }
}
