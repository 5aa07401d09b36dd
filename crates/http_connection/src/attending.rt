//! A connection, request after request.

ghost use Rattle.std.specs.Prelude.{◌≡◌, ◌<◌, ℕ, List, Some};
ghost use Rattle.call_log.specs.Counts.{Rises};
ghost use Rattle.act_model.specs.Clocks.{clock_of};
ghost use Rattle.http_connection.specs.Streams.{HasNoHeadFault};
ghost use Rattle.http_connection.specs.Attending.{is_last, IsAttended, ReadCounts, WriteCounts, IsEndedOrWanting};
ghost use Rattle.http_connection.specs.Steps.{IsRefused, Becomes, GoesOn};

use crate::ANSWERS;
use crate::answering::OneByOne;
use crate::laws::{call_laws, stream_laws};
use crate::left::Left;
use act_model::Keeper;
use desk_http::{Heard, SendFault, Wire, laws as http_laws, write_reply, write_unread};
use desk_io::{Clock, Failed, Sink, Source};
use intake_lock::{Pass, TurnLock};
use std::alloc::Global;
use std::sync::Wait;

// Whether an answer is the last one of its connection, where this many were given before.
fn is_last(answered: usize, closes: bool) -> bool
    requires { answered < ANSWERS }
    ensures { result ≡ is_last answered closes }
{
    closes || answered + 1 == ANSWERS
}

// Answers bytes that are no request.
fn refuse_head<K: Sink>(sink: &mut K) -> Left
    ensures refused { IsRefused (K.taken sink.old) (K.taken sink.new) (Some result) }
    ensures faults { WriteCounts result (K.faults sink.old) (K.faults sink.new) }
    ensures stays { K.is_open sink.new ≡ K.is_open sink.old }
{
    match write_unread(sink) {
        Ok(()) => Left::Unread,
        Err(Failed) => Left::WriteFault,
    }
}

// Answers what was heard. Says why the connection is left, and None where it goes on.
fn answer_heard<V: Keeper, K: Sink, C: Clock, R: Wait>(
    rt: &R,
    alloc: Global,
    lock: &OneByOne<V>,
    pass: Pass,
    heard: Heard,
    sink: &mut K,
    clock: &mut C,
    answered: usize,
) -> (Pass, Option<Left>)
    requires lock { pass.lock ≡ lock.now.id }
    requires few { answered < ANSWERS }
    ensures pass { (result.0.lock ≡ pass.lock) × (result.0.id ≡ pass.id) × (result.0.view.role ≡ pass.view.role) }
    ensures becomes { Becomes
        (record { view = pass.view; clock = clock_of C.reading C.last clock.old; taken = K.taken sink.old })
        (record { view = result.0.view; clock = clock_of C.reading C.last clock.new; taken = K.taken sink.new })
        answered heard result.1 }
    ensures faults { GoesOn WriteCounts result.1 (K.faults sink.old) (K.faults sink.new) }
    ensures stays { K.is_open sink.new ≡ K.is_open sink.old }
{
    match heard {
        Heard::Request { request, last } => {
            let (pass, reply) = lock.answer(rt, alloc, pass, &request, clock);
            let ended = match write_reply(alloc, sink, &reply, is_last(answered, last)) {
                Ok(()) if last => Some(Left::Ended),
                Ok(()) => None,
                Err(SendFault::WriteFault) => Some(Left::WriteFault),
                Err(SendFault::NoMemory) => Some(Left::NoMemory),
            };
            (pass, ended)
        }
        Heard::End => (pass, Some(Left::Ended)),
        Heard::Unread => {
            let left = refuse_head(sink);
            (pass, Some(left))
        }
        Heard::ReadFault => (pass, Some(Left::ReadFault)),
    }
}

/// Attends a connection: reads its requests and answers each in a turn of its own, up to the end of its input, a
/// request that asks to close, 1,000 answers, or a fault. The answer after which no more comes says so.
///
/// The pass that comes back is the same root or branch, and has the calls of the connection, each with the reply that
/// was written. The calls stand at places of the one history that rise: none is before what the pass had seen or before
/// an earlier call, and each is after the entry that an earlier call added.
pub fn attend<V: Keeper, S: Source, K: Sink, C: Clock, R: Wait>(
    rt: &R,
    alloc: Global,
    lock: &TurnLock<V>,
    pass: Pass,
    source: &mut S,
    sink: &mut K,
    clock: &mut C,
) -> (Pass, Left)
    requires { pass.lock ≡ lock.now.id }
    ensures pass { (result.0.lock ≡ pass.lock) × (result.0.id ≡ pass.id) × (result.0.view.role ≡ pass.view.role) }

    // What was read, asked and written at each end: of the bytes that came, whether the source tells its bytes or not.
    // A reply that the disk failed comes only where the keeper's count of faults rose in that call.
    ensures attended { IsAttended S.left S.gives
        (record {
          view = pass.view;
          clock = clock_of C.reading C.last clock.old;
          taken = K.taken sink.old;
          source = source.old;
        })
        (record {
          view = result.0.view;
          clock = clock_of C.reading C.last clock.new;
          taken = K.taken sink.new;
          source = source.new;
        }) result.1 }

    // Bytes without a head fault, and no fault of the source or the sink, give `Ended`, `Enough` or `NoMemory`.
    ensures complete { (bytes : List ℕ) → S.left source.old ≡ Some bytes → HasNoHeadFault bytes →
        ¬ Rises (S.faults source.old) (S.faults source.new) → ¬ Rises (K.faults sink.old) (K.faults sink.new) →
        IsEndedOrWanting result.1 }

    // The source failed where the end is `ReadFault`, and nowhere else; the sink where it is `WriteFault`.
    ensures source_faults { ReadCounts result.1 (S.faults source.old) (S.faults source.new) }
    ensures sink_faults { WriteCounts result.1 (K.faults sink.old) (K.faults sink.new) }

    // What was open is open.
    ensures stays { (S.is_open source.new ≡ S.is_open source.old) × (K.is_open sink.new ≡ K.is_open sink.old) }
{
    call_laws();
    stream_laws();
    http_laws::one_stream();
    let Ok(mut wire) = Wire::new(alloc) else {
        return (pass, Left::NoMemory);
    };
    // From here on a turn can be taken for one request alone: none is held while a message is read or answered.
    let lock = OneByOne::new(lock);
    let mut mine = pass;
    'messages: for answered in 0..ANSWERS {
        let heard = wire.read_request(source);
        let (next, ended) = answer_heard(rt, alloc, &lock, mine, heard, sink, clock, answered);
        mine = next;
        if let Some(left) = ended {
            return (mine, left);
        }
    }
    (mine, Left::Enough)
}
