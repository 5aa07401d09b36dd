//! What is done once serving has stopped.

ghost use Rattle.command_ends.specs.Disks.{disk_words};
ghost use Rattle.comets_command.specs.Closing.{MendsLast, Finishes};

use comet_desk::CometDesk;
use command_ends::Status;
use disk_model::Disk;
use frame_service::Stop;

/// Mends an act in doubt. `Done` where nothing is in doubt after it; `DiskFault` where the disk failed, and the act
/// stays in doubt.
fn mend_last<D: Disk>(register: &mut CometDesk<D>) -> Status
    ensures { MendsLast (disk_words D.reads D.leaves D.moment D.since D.faults) register.old result register.new }
{
    match register.mend() {
        Ok(_) => Status::Done,
        Err(_) => Status::DiskFault,
    }
}

/// An act in doubt is mended where the source was read to its end, and the status says how the call ended.
pub fn finish<D: Disk>(register: &mut CometDesk<D>, stop: Stop) -> Status
    ensures { Finishes (disk_words D.reads D.leaves D.moment D.since D.faults) register.old stop result register.new }
{
    match stop {
        Stop::Over => mend_last(register),
        Stop::NoFrameAt(offset) => Status::BadFrame { offset },
        Stop::ReadFailed => Status::ReadFault,
        Stop::WriteFailed => Status::WriteFault,
    }
}
