//! Opening the office on the disks of a command.

ghost use Rattle.std.specs.Prelude.{◌≡◌, ℕ, List, IfOk, IfErr};
ghost use Rattle.act_bodies.specs.declared.key.Key.{Key};
ghost use Rattle.act_model.specs.declared.entry.Entry.{Entry};
ghost use Rattle.act_model.specs.Legal.{IsLegal};
ghost use Rattle.act_model.specs.Roster.{IsFounder};
ghost use Rattle.mpc_desk.specs.Pairs.{FilePair, StandBoth, pair, AreRead, NeitherFell, EitherRises};
ghost use Rattle.command_ends.specs.declared.status.Status.{Status};
ghost use Rattle.command_ends.specs.Disks.{disk_words};
ghost use Rattle.command_ends.specs.Opening.{Opens, status_of, EndsUnopened};

use crate::status::{Ended, Status};
use act_model::Key;
use disk_model::Disk;
use mpc_desk::{Desk, OpenFault, laws as desk_laws};
use std::alloc::Global;

/// How many bytes the second file may have, which is the journal.
pub const JOURNAL_BYTES: u64 = 536_870_912;

/// An end before anything was begun.
pub fn not_begun<D: Disk>(status: Status, disk: D, second: D) -> Ended<D>
    ensures status { result.status ≡ status }
    ensures disk { result.disk ≡ disk }
    ensures second { result.second ≡ second }
    ensures added { result.added ≡ 0 }
    // Where memory was refused before a device was called, the disks are as they were.
    ensures no_memory { (founder : Key) → status ≡ Status.NoMemory → EndsUnopened
        (disk_words D.reads D.leaves D.moment D.since D.faults) founder (pair disk second)
        (pair result.disk result.second) result.added result.status }
{
    Ended {
        status,
        disk,
        second,
        added: 0,
    }
}

/// The status of a desk that couldn't be opened.
fn unopened(fault: OpenFault) -> Status
    ensures { result ≡ status_of fault }
{
    match fault {
        OpenFault::DiskFault => Status::DiskFault,
        OpenFault::Damaged { file, offset } => Status::Damaged { file, offset },
        OpenFault::NoMemory => Status::NoMemory,
    }
}

/// Opens the office of the founding officer with this key on a command's two disks, of which the second file may have
/// [`JOURNAL_BYTES`]. It takes memory.
///
/// # Errors
/// How the command ends: `DiskFault` where a disk failed, `Damaged` where the file that counts stands for no legal
/// history, with its number and the offset of the gate where it stops, `NoMemory` where memory was refused. Nothing is
/// added.
pub fn open_desk<D: Disk>(
    alloc: Global,
    founder: Key,
    disk: D,
    second: D,
) -> Result<Desk<D>, Ended<D>>
    requires founder { IsFounder founder }
    ensures opens { IfOk result (λ desk.
        Opens (disk_words D.reads D.leaves D.moment D.since D.faults) founder (pair disk second) desk) }
    ensures unopened { IfErr result (λ ended. EndsUnopened (disk_words D.reads D.leaves D.moment D.since D.faults)
        founder (pair disk second) (pair ended.disk ended.second) ended.added ended.status) }
    ensures counts { IfErr result (λ ended. NeitherFell (disk_words D.reads D.leaves D.moment D.since D.faults)
        (pair disk second) (pair ended.disk ended.second)) }
    // A disk failed where the end is `DiskFault`. Files that stand for a legal history aren't damaged.
    ensures cause { IfErr result (λ ended. ended.status ≡ Status.DiskFault →
        EitherRises (disk_words D.reads D.leaves D.moment D.since D.faults) (pair disk second)
        (pair ended.disk ended.second)) }
    ensures sound { IfErr result (λ ended. (files : FilePair) (history : List Entry) (file offset : ℕ) →
        AreRead (disk_words D.reads D.leaves D.moment D.since D.faults) (pair disk second) files →
        StandBoth files history → IsLegal founder history → ended.status ≡ Status.Damaged file offset → ⊥) }
{
    desk_laws::damage();
    match Desk::open(alloc, founder, JOURNAL_BYTES, disk, second) {
        Ok(desk) => Ok(desk),
        Err((fault, disk, second)) => Err(not_begun(unopened(fault), disk, second)),
    }
}
