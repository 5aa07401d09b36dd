//! Writing out the summary.

ghost use Rattle.std.specs.Prelude.{◌≤◌};
ghost use Rattle.command_ends.specs.Courses.{sink_words, change};
ghost use Rattle.workload_command.specs.Promises.{KeepsWorkload};

use command_ends::Status;
use desk_io::{Sink, write_all};
use office_workload::summary;
use std::alloc::Global;

/// Writes the summary of the workload that this seed starts, of this many objects, at most 20,000. The workload is
/// taken by an office in memory; nothing but the sink is called. It takes memory.
///
/// Ends with `Done`, `WriteFault` or `NoMemory`.
pub fn workload<K: Sink>(alloc: Global, seed: u64, count: u32, sink: &mut K) -> Status
    requires { count ≤ 20000 }
    // What is promised at each end stands in `specs/Promises.antt`.
    ensures promises { KeepsWorkload (sink_words K.taken K.faults K.is_open) (change sink.old sink.new) result
        seed count }
{
    let text = match summary(alloc, seed, u64::from(count)) {
        Ok(text) => text,
        Err(_) => return Status::NoMemory,
    };
    match write_all(sink, text.as_slice()) {
        Ok(()) => Status::Done,
        Err(_) => Status::WriteFault,
    }
}
