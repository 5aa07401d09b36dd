//! Opening the register beside an office that was opened to be read.

ghost use Rattle.std.specs.Prelude.{◌≡◌, IfOk, IfErr};
ghost use Rattle.act_model.specs.Deeds.{deeds};
ghost use Rattle.command_ends.specs.declared.status.Status.{Status};
ghost use Rattle.command_ends.specs.Disks.{disk_words};
ghost use Rattle.command_ends.specs.Opening.{status_of};
ghost use Rattle.comet_desk.specs.Opening.{IsOpened};
ghost use Rattle.comets_command.specs.Opening.{EndsUnbegun};
ghost use Rattle.comets_command.specs.Terms.{register_bytes};

use act_model::Key;
use comet_desk::{CometDesk, OpenFault};
use command_ends::Status;
use disk_model::Disk;
use mpc_desk::Desk;
use std::alloc::Global;

/// How many bytes the file of the register may have.
pub const REGISTER_BYTES: u64 = 16_777_216;

/// The status of a register that couldn't be opened.
fn unopened(fault: OpenFault) -> Status
    ensures { result ≡ status_of fault }
{
    match fault {
        OpenFault::DiskFault => Status::DiskFault,
        OpenFault::Damaged { file, offset } => Status::Damaged { file, offset },
        OpenFault::NoMemory => Status::NoMemory,
    }
}

/// Opens the register of the founding officer with this key on its disk, beside an office, where its file may have
/// [`REGISTER_BYTES`]. It takes memory.
///
/// # Errors
/// How the command ends, with the disk: `DiskFault` where the disk failed, `Damaged` in file 3 where the file holds no
/// legal list of entries, with the offset of the gate where it stops, `NoMemory` where memory was refused.
pub fn open_register<D: Disk>(
    alloc: Global,
    founder: Key,
    office: &Desk<D>,
    disk: D,
) -> Result<CometDesk<D>, (Status, D)>
    ensures opens { IfOk result (λ register. IsOpened (disk_words D.reads D.leaves D.moment D.since D.faults) founder
        register_bytes (deeds office.now.chained.state.settled) disk register) }
    ensures unbegun { IfErr result (λ failed. EndsUnbegun (disk_words D.reads D.leaves D.moment D.since D.faults)
        founder (deeds office.now.chained.state.settled) disk failed.1 failed.0) }
{
    match CometDesk::open(alloc, founder, REGISTER_BYTES, office.core(), disk) {
        Ok(register) => Ok(register),
        Err((fault, disk)) => Err((unopened(fault), disk)),
    }
}
