//! The last mending.

ghost use Rattle.command_ends.specs.Closing.{MendsLast};
ghost use Rattle.command_ends.specs.Disks.{disk_words};

use crate::status::Status;
use disk_model::Disk;
use mpc_desk::ChainedDesk;

/// Mends an act in doubt, once the office is asked nothing more. `Done` where nothing is in doubt after it; `DiskFault`
/// where the disk failed, and the act stays in doubt.
pub fn mend_last<D: Disk>(desk: &mut ChainedDesk<D>) -> Status
    ensures { MendsLast (disk_words D.reads D.leaves D.moment D.since D.faults) desk.old result desk.new }
{
    match desk.mend() {
        Ok(_) => Status::Done,
        Err(_) => Status::DiskFault,
    }
}
