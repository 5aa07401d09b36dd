//! Answers into a sink.

ghost use Rattle.std.specs.Prelude.{◌≡◌, ◌≢◌, ◌+◌, ◌≤◌, ◌++◌, length, decimal, Err, OnOk, OnErr};
ghost use Rattle.ascii_text.specs.ArrayVec.{array_vec_len};
ghost use Rattle.std.specs.Io.KnownBytes.{Appends};
ghost use Rattle.call_log.specs.Counts.{Rises};
ghost use Rattle.desk_io.specs.Outside.{AppendsPart};
ghost use Rattle.act_model.specs.Replies.{refusal_status, refusal_text};
ghost use Rattle.desk_http.specs.ReplyTexts.{reason_of, closing_field, answer_head, answer_text, answer_of};
ghost use Rattle.desk_http.specs.ReplyTexts.{unread_text, unread_answer};
ghost use Rattle.desk_http.specs.Sent.{IsSent, CountsSent, IfWanting};

use act_model::{Refusal, Reply, no_line_text, refusal_line, refusal_status};
use arrayvec::ArrayVec;
use ascii_text::writing::put_decimal;
use desk_io::{Failed, Sink, write_all};
use std::alloc::Global;
use std::error::Error;
use std::fmt;
use std::fmt::{Display, Formatter};

/// The most bytes that the head of an answer has.
const ANSWER_HEAD_BYTES: usize = 160;

/// How many bytes of an answer are written at first: an answer that isn't longer leaves in one write.
const FIRST_BYTES: usize = 4_096;

/// Why an answer wasn't sent whole.
#[derive(Clone, Copy, Debug, PartialEq, Eq)]
pub enum SendFault {
    /// The sink failed. It took a front of the answer and not all of it.
    WriteFault,
    /// Memory was refused for the answer's text. Nothing was written.
    NoMemory,
}

impl Display for SendFault {
    fn fmt<W: fmt::Write>(&self, f: &mut Formatter<W>) -> fmt::Result {
        f.pad(match self {
            SendFault::WriteFault => "the sink failed",
            SendFault::NoMemory => "out of memory",
        })
    }
}

impl Error for SendFault {}

// The words beside a status.
fn reason_of(status: u16) -> &'static [u8]
    ensures words { result.now ≡ reason_of status }
    ensures short { length result.now ≤ 21 }
{
    match status {
        200 => b"OK",
        400 => b"Bad Request",
        401 => b"Unauthorized",
        403 => b"Forbidden",
        404 => b"Not Found",
        409 => b"Conflict",
        413 => b"Content Too Large",
        422 => b"Unprocessable Content",
        503 => b"Service Unavailable",
        _ => b"Insufficient Storage",
    }
}

// The field that says that no more answers come.
fn closing_field(last: bool) -> &'static [u8]
    ensures field { result.now ≡ closing_field last }
    ensures short { length result.now ≤ 19 }
{
    if last { b"Connection: close\r\n" } else { b"" }
}

// A number in decimal.
fn decimal(n: u64) -> ArrayVec<u8, 20>
    ensures text { result.items ≡ decimal n }
    ensures short { length result.items ≤ 20 }
{
    let mut digits = ArrayVec::new();
    put_decimal(&mut digits, n);
    digits
}

// A text after what stands in the head so far.
fn put(head: &mut ArrayVec<u8, ANSWER_HEAD_BYTES>, text: &[u8])
    requires { array_vec_len head.old + length text.now ≤ ANSWER_HEAD_BYTES }
    ensures text { head.new.items ≡ head.old.items ++ text.now }
    ensures len { array_vec_len head.new ≡ array_vec_len head.old + length text.now }
{
    head.try_extend_from_slice(text).unwrap();
}

// The head of an answer.
fn answer_head(status: u16, size: u64, last: bool) -> ArrayVec<u8, ANSWER_HEAD_BYTES>
    ensures { result.items ≡ answer_head status size last }
{
    let digits = decimal(u64::from(status));
    let length = decimal(size);
    let mut head = ArrayVec::new();
    put(&mut head, b"HTTP/1.1 ");
    put(&mut head, digits.as_slice());
    put(&mut head, b" ");
    put(&mut head, reason_of(status));
    put(&mut head, b"\r\nContent-Length: ");
    put(&mut head, length.as_slice());
    put(&mut head, b"\r\nContent-Type: text/plain\r\n");
    put(&mut head, closing_field(last));
    put(&mut head, b"\r\n");
    head
}

// The head of an answer, and as much of the text as has room behind it.
fn first_bytes(head: &[u8], text: &[u8]) -> ArrayVec<u8, FIRST_BYTES>
    requires short { length head.now ≤ ANSWER_HEAD_BYTES }
    requires fits { length head.now + length text.now ≤ FIRST_BYTES }
    ensures { result.items ≡ head.now ++ text.now }
{
    let mut first = ArrayVec::new();
    first.try_extend_from_slice(head).unwrap();
    first.try_extend_from_slice(text).unwrap();
    first
}

// Writes an answer with this status and this text. It takes no memory. Head and text leave together where they fit a
// buffer; else the buffer is filled, and the rest of the text follows.
#[tactic(auto, unfolding(crate::specs::ReplyTexts::answer_text))]
fn write_answer<K: Sink>(sink: &mut K, status: u16, text: &[u8], last: bool) -> Result<(), Failed>
    ensures whole { OnOk result (Appends (K.taken sink.old) (K.taken sink.new) (answer_text status text.now last)) }
    ensures part { OnErr result (AppendsPart (K.taken sink.old) (K.taken sink.new) (answer_text status text.now last)) }
    ensures counts { K.faults sink.old ≤ K.faults sink.new }
    ensures faultless { OnOk result (K.faults sink.new ≡ K.faults sink.old) }
    ensures cause { OnErr result (Rises (K.faults sink.old) (K.faults sink.new)) }
    ensures stays { K.is_open sink.new ≡ K.is_open sink.old }
{
    let written = answer_head(status, text.len() as u64, last);
    let head = written.as_slice();
    let (front, rest) = text.split_at(text.len().min(FIRST_BYTES - head.len()));
    let first = first_bytes(head, front);
    write_all(sink, first.as_slice())?;
    write_all(sink, rest)
}

// The same, with the fault that a caller is told.
fn send<K: Sink>(sink: &mut K, status: u16, text: &[u8], last: bool) -> Result<(), SendFault>
    ensures sent { IsSent (K.taken sink.old) (K.taken sink.new) (answer_text status text.now last) result }
    ensures faults { CountsSent (K.faults sink.old) (K.faults sink.new) result }
    ensures memory { result ≢ Err SendFault.NoMemory }
    ensures stays { K.is_open sink.new ≡ K.is_open sink.old }
{
    match write_answer(sink, status, text, last) {
        Ok(()) => Ok(()),
        Err(Failed) => Err(SendFault::WriteFault),
    }
}

// The line that says that a head can't be read.
fn unread_text() -> &'static [u8]
    ensures { result.now ≡ unread_text }
{
    b"refused 1 Unread head\n"
}

/// Writes the answer to bytes that are no request: the status 400, the line `refused 1 Unread head`, and that no more
/// answers come. It takes no memory.
///
/// # Errors
///
/// The sink failed, and took a front of the answer and not all of it.
pub fn write_unread<K: Sink>(sink: &mut K) -> Result<(), Failed>
    ensures whole { OnOk result (Appends (K.taken sink.old) (K.taken sink.new) unread_answer) }
    ensures part { OnErr result (AppendsPart (K.taken sink.old) (K.taken sink.new) unread_answer) }
    ensures counts { K.faults sink.old ≤ K.faults sink.new }
    ensures faultless { OnOk result (K.faults sink.new ≡ K.faults sink.old) }
    ensures cause { OnErr result (Rises (K.faults sink.old) (K.faults sink.new)) }
    ensures stays { K.is_open sink.new ≡ K.is_open sink.old }
{
    write_answer(sink, 400, unread_text(), true)
}

/// Writes the answer of a reply: the status line, `Content-Length`, `Content-Type: text/plain`, where it is
/// the last answer of its connection `Connection: close`, an empty line, and the reply's text.
///
/// It takes memory for the lines of a `NoLine` alone.
///
/// # Errors
///
/// The sink failed, and took a front of the answer and not all of it; or memory was refused, and nothing
/// was written.
pub fn write_reply<K: Sink>(
    alloc: Global,
    sink: &mut K,
    reply: &Reply,
    last: bool,
) -> Result<(), SendFault>
    ensures sent { IsSent (K.taken sink.old) (K.taken sink.new) (answer_of reply.now last) result }
    // It is `WriteFault` where the sink failed in this call, and another answer where it didn't.
    ensures faults { CountsSent (K.faults sink.old) (K.faults sink.new) result }
    ensures memory { IfWanting reply.now result }
    // The sink isn't given up.
    ensures stays { K.is_open sink.new ≡ K.is_open sink.old }
{
    match reply {
        Reply::Done(text) => send(sink, 200, text.as_slice(), last),
        Reply::Refused(refusal) => write_refusal(alloc, sink, refusal, last),
    }
}

// The answer of a refusal.
fn write_refusal<K: Sink>(
    alloc: Global,
    sink: &mut K,
    refusal: &Refusal,
    last: bool,
) -> Result<(), SendFault>
    ensures sent { IsSent (K.taken sink.old) (K.taken sink.new)
        (answer_text (refusal_status refusal.now) (refusal_text refusal.now) last) result }
    ensures faults { CountsSent (K.faults sink.old) (K.faults sink.new) result }
    ensures memory { IfWanting (Reply.Refused refusal.now) result }
    ensures stays { K.is_open sink.new ≡ K.is_open sink.old }
{
    let status = refusal_status(refusal);
    match refusal {
        Refusal::NoLine(faults) => match no_line_text(alloc, faults) {
            Ok(text) => send(sink, status, text.as_slice(), last),
            Err(_) => Err(SendFault::NoMemory),
        },
        other => match refusal_line(other) {
            Some(line) => send(sink, status, line.as_slice(), last),
            None => unreachable!(),
        },
    }
}
