//! Reading frames and answering them, one after the other.

ghost use Rattle.std.specs.Prelude.{◌≡◌, ◌≤◌, ◌<◌, ℕ, List, [], IfOk, OnOk, OnErr};
ghost use Rattle.std.specs.Io.KnownBytes.{Appends};
ghost use Rattle.call_log.specs.Counts.{Rises};
ghost use Rattle.frame_reader.specs.Frames.{IsFrameRead};
ghost use Rattle.read_ahead.specs.Reading.{Supplies, work};
ghost use Rattle.frame_service.specs.Exchanges.{Exchange, attending_of, Attends};
ghost use Rattle.frame_service.specs.Runs.{Run, AwaitsNext, Stops};
ghost use Rattle.frame_service.specs.Steps.{AnswersFrame, TakesStep, SourceFaults, SinkFaults};

use crate::attendant::Attendant;
use crate::spoken::write_spoken;
use desk_io::{Clock, Failed, Sink, Source};
use frame_grammar::laws;
use frame_reader::{FrameReader, Halt, ReadFrame};
use std::alloc::Global;

/// Why serving stopped.
#[derive(Debug, Drop)]
pub enum Stop {
    /// The source ended after the last frame, and all were answered.
    Over,
    /// From this offset on the bytes are no frame.
    NoFrameAt(u64),
    /// The source failed.
    ReadFailed,
    /// The sink failed inside a reply.
    WriteFailed,
}

/// Answers a frame that was read. Says how many bytes it has.
fn answer_frame<A: Attendant, K: Sink, C: Clock>(
    alloc: Global,
    attendant: &mut A,
    read: ReadFrame,
    sink: &mut K,
    clock: &mut C,
) -> Result<u64, Failed>
    ensures answers { (front rest : List ℕ) (r : IsFrameRead front read rest) → AnswersFrame A.answers
        (record { at = attending_of C.reading C.last attendant.old clock.old; taken = K.taken sink.old })
        (record { at = attending_of C.reading C.last attendant.new clock.new; taken = K.taken sink.new })
        r.frame result }
    ensures size { IfOk result (λ size. size ≡ read.size) }
    ensures counts { K.faults sink.old ≤ K.faults sink.new }
    ensures faultless { OnOk result (K.faults sink.new ≡ K.faults sink.old) }
    ensures cause { OnErr result (Rises (K.faults sink.old) (K.faults sink.new)) }
    ensures stays { K.is_open sink.new ≡ K.is_open sink.old }
{
    let size = read.size;
    let spoken = attendant.answer(alloc, read, clock);
    match write_spoken(sink, &spoken) {
        Ok(()) => Ok(size),
        Err(failed) => Err(failed),
    }
}

/// Reads the next frame, at this offset, and answers it. Says how many bytes it has, or why serving stops.
fn serve_next<A: Attendant, S: Source, K: Sink, C: Clock>(
    alloc: Global,
    attendant: &mut A,
    reader: &mut FrameReader,
    source: &mut S,
    sink: &mut K,
    clock: &mut C,
    offset: u64,
) -> Result<u64, Stop>
    ensures step { TakesStep S.left S.gives A.answers
        (record {
          at = attending_of C.reading C.last attendant.old clock.old;
          taken = K.taken sink.old;
          source = source.old;
          ahead = reader.old;
        })
        (record {
          at = attending_of C.reading C.last attendant.new clock.new;
          taken = K.taken sink.new;
          source = source.new;
          ahead = reader.new;
        }) offset result }
    ensures source_counts { S.faults source.old ≤ S.faults source.new }
    ensures sink_counts { K.faults sink.old ≤ K.faults sink.new }
    ensures source_faults { SourceFaults result (S.faults source.old) (S.faults source.new) }
    ensures sink_faults { SinkFaults result (K.faults sink.old) (K.faults sink.new) }
    ensures source_stays { S.is_open source.new ≡ S.is_open source.old }
    ensures sink_stays { K.is_open sink.new ≡ K.is_open sink.old }
    ensures nearer { OnOk result (work (S.reads source.new) reader.new < work (S.reads source.old) reader.old) }
{
    laws::never_a_frame();
    match reader.next_frame(source) {
        Ok(read) => match answer_frame(alloc, attendant, read, sink, clock) {
            Ok(size) => Ok(size),
            Err(Failed) => Err(Stop::WriteFailed),
        },
        Err(Halt::End) => Err(Stop::Over),
        Err(Halt::Bad) => Err(Stop::NoFrameAt(offset)),
        Err(Halt::Failed) => Err(Stop::ReadFailed),
    }
}

/// Answers the frames of the source to its end, or to where it has none. The reader has read nothing ahead yet.
///
/// Of the bytes that came, the frames from their front on were answered by the attendant, in their order, and the sink
/// took the replies and nothing else. No read was made but while the next frame was awaited.
pub fn serve<A: Attendant, S: Source, K: Sink, C: Clock>(
    alloc: Global,
    attendant: &mut A,
    reader: &mut FrameReader,
    source: &mut S,
    sink: &mut K,
    clock: &mut C,
) -> Stop
    requires unread { reader.old ≡ [] }
    ensures stops { (run : Run) × (served : List Exchange)
        × Supplies S.left S.gives (AwaitsNext run.answered) source.old source.new run.came run.more
        × Appends (K.taken sink.old) (K.taken sink.new) run.texts
        × Stops run result served
        × Attends A.answers (attending_of C.reading C.last attendant.old clock.old) served
        (attending_of C.reading C.last attendant.new clock.new) }
    ensures read_cause { result ≡ Stop.ReadFailed → Rises (S.faults source.old) (S.faults source.new) }
    ensures read_faultless { (result ≡ Stop.ReadFailed → ⊥) → S.faults source.new ≡ S.faults source.old }
    ensures write_cause { result ≡ Stop.WriteFailed → Rises (K.faults sink.old) (K.faults sink.new) }
    ensures write_faultless { (result ≡ Stop.WriteFailed → ⊥) → K.faults sink.new ≡ K.faults sink.old }
    ensures counts { (S.faults source.old ≤ S.faults source.new) × (K.faults sink.old ≤ K.faults sink.new) }
    ensures stays { (S.is_open source.new ≡ S.is_open source.old) × (K.is_open sink.new ≡ K.is_open sink.old) }
{
    laws::goes_on();
    laws::session_behind();
    laws::no_frame_yet();
    let mut offset = 0u64;
    'frames: loop {
        match serve_next(alloc, attendant, reader, source, sink, clock, offset) {
            Ok(size) => offset = offset.saturating_add(size),
            Err(stop) => return stop,
        }
    }
}
