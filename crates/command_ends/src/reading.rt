//! Opening the office to read it, and ending that.

ghost use Rattle.std.specs.Prelude.{◌≡◌, IfOk, IfErr};
ghost use Rattle.act_bodies.specs.declared.key.Key.{Key};
ghost use Rattle.act_model.specs.Roster.{IsFounder};
ghost use Rattle.mpc_desk.specs.Pairs.{DiskPair, pair, disks_of, NeitherFell, EitherRises};
ghost use Rattle.command_ends.specs.declared.status.Status.{Status};
ghost use Rattle.command_ends.specs.Disks.{disk_words};
ghost use Rattle.command_ends.specs.Opening.{Opens, EndsUnopened};
ghost use Rattle.command_ends.specs.Reading.{reader, KeepsOffice, IsSound};

use crate::opening::open_desk;
use crate::status::{Ended, Status};
use act_model::{Key, laws as office_laws};
use disk_model::Disk;
use mpc_desk::{Desk, laws as desk_laws};
use std::alloc::Global;

/// The key with which the office is opened.
fn reader() -> Key
    ensures key { result ≡ reader }
    ensures founder { IsFounder result }
{
    Key::new(b"+")
}

/// Opens the office on a command's two disks to read it, as [`open_desk`] does: with a key that no founding officer
/// has, by which nobody asks. It takes memory. [`end_reading`] closes it.
///
/// # Errors
/// How the command ends, as [`open_desk`] says: `DiskFault`, `Damaged` or `NoMemory`. Nothing is added.
pub fn open_to_read<D: Disk>(alloc: Global, disk: D, second: D) -> Result<Desk<D>, Ended<D>>
    ensures opens { IfOk result (λ desk.
        Opens (disk_words D.reads D.leaves D.moment D.since D.faults) reader (pair disk second) desk) }
    ensures unopened { IfErr result (λ ended. EndsUnopened (disk_words D.reads D.leaves D.moment D.since D.faults)
        reader (pair disk second) (pair ended.disk ended.second) ended.added ended.status) }
    ensures counts { IfErr result (λ ended. NeitherFell (disk_words D.reads D.leaves D.moment D.since D.faults)
        (pair disk second) (pair ended.disk ended.second)) }
    // A disk failed where the end is `DiskFault`. Files that stand for a legal history, under whatever founding
    // officer, aren't damaged.
    ensures cause { IfErr result (λ ended. ended.status ≡ Status.DiskFault →
        EitherRises (disk_words D.reads D.leaves D.moment D.since D.faults) (pair disk second)
        (pair ended.disk ended.second)) }
    ensures sound { IfErr result (λ ended.
        IsSound (disk_words D.reads D.leaves D.moment D.since D.faults) (pair disk second) ended.status) }
{
    office_laws::any_founder();
    open_desk(alloc, reader(), disk, second)
}

/// Ends a command that only read the office which it had opened: with this status, the office closed as it is. No
/// device is called.
pub fn end_reading<D: Disk>(desk: Desk<D>, status: Status) -> Ended<D>
    ensures status { result.status ≡ status }
    ensures disks { pair result.disk result.second ≡ disks_of desk }
    ensures added { result.added ≡ 0 }
    // Whatever disks it was opened on, they stood for its history, and stand for it still.
    ensures keeps { (founder : Key) (disks : DiskPair D) →
        Opens (disk_words D.reads D.leaves D.moment D.since D.faults) founder disks desk →
        KeepsOffice (disk_words D.reads D.leaves D.moment D.since D.faults) founder disks
        (pair result.disk result.second) result.added desk.chained.state.settled }
{
    office_laws::legal_numbers_once();
    office_laws::one_place();
    office_laws::unbroken_rows();
    office_laws::unbroken_numbers();
    desk_laws::lines_are_added();
    let (disk, second) = desk.close();
    Ended {
        status,
        disk,
        second,
        added: 0,
    }
}
