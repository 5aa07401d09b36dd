//! Reply frames into a sink.

ghost use Rattle.std.specs.Prelude.{◌≡◌, ◌≤◌, [], ◌∷◌, ◌++◌, OnOk, OnErr, decimal};
ghost use Rattle.std.specs.Io.KnownBytes.{Appends};
ghost use Rattle.call_log.specs.Counts.{Rises};
ghost use Rattle.desk_io.specs.Outside.{AppendsPart};
ghost use Rattle.frame_grammar.specs.Replies.{reply_frame};

use arrayvec::ArrayVec;
use ascii_text::writing::put_decimal;
use desk_io::{Failed, Sink, write_all};

/// The most bytes that the head of a reply has: five digits, a blank, 20 digits and a line feed.
const REPLY_HEAD_BYTES: usize = 27;

// The head of a reply: its status, and the length of its text.
fn reply_head(status: u16, length: u64) -> ArrayVec<u8, REPLY_HEAD_BYTES>
    ensures { result.items ≡ decimal status ++ 32 ∷ (decimal length ++ 10 ∷ []) }
{
    let mut head = ArrayVec::new();
    put_decimal(&mut head, u64::from(status));
    head.push(b' ');
    put_decimal(&mut head, length);
    head.push(b'\n');
    head
}

/// Writes the frame of a reply: its status, its length, and its text.
///
/// It takes no memory. After a failure the sink took a front of the frame and not all of it.
///
/// # Errors
///
/// The sink failed.
pub fn write_reply_frame<K: Sink>(sink: &mut K, status: u16, text: &[u8]) -> Result<(), Failed>
    ensures whole { OnOk result (Appends (K.taken sink.old) (K.taken sink.new) (reply_frame status text.now)) }
    ensures part { OnErr result (AppendsPart (K.taken sink.old) (K.taken sink.new) (reply_frame status text.now)) }
    ensures counts { K.faults sink.old ≤ K.faults sink.new }
    ensures faultless { OnOk result (K.faults sink.new ≡ K.faults sink.old) }
    ensures cause { OnErr result (Rises (K.faults sink.old) (K.faults sink.new)) }
    ensures stays { K.is_open sink.new ≡ K.is_open sink.old }
{
    let written = reply_head(status, text.len() as u64);
    let head = written.as_slice();
    write_all(sink, head)?;
    write_all(sink, text)
}
