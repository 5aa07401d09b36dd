//! Replies and refusals of the register, with their statuses and texts.

ghost use Rattle.std.specs.Prelude.{◌≡◌, ◌≢◌, ◌≤◌, ◌+◌, ◌++◌, List, length};
ghost use Rattle.arrayvec.specs.ArrayVec.{array_vec_len};
ghost use Rattle.act_model.specs.Replies.{text_bytes};
ghost use Rattle.act_model.specs.Texts.{line_of, designation_text};
ghost use Rattle.act_model.specs.declared.reply.Fault.{Fault};
ghost use Rattle.act_model.specs.Replies.{refusal_text as desk_text};
ghost use Rattle.comet_model.specs.Texts.{comet_text};
ghost use Rattle.comet_model.specs.Replies.{refusal_text, text_of, status_of, refusal_status};

use act_model::{Excess, Part, REFUSAL_BYTES, Refusal, Text, Thing, refusal_line};
use arrayvec::ArrayVec;
use comet_names::{Comet, is_comet, print_comet};
use item_list::Bytes;
use packed_names::{Designation, HalfMonth, Name, is_name, print};

/// Why the register refuses a request. A refused request changes nothing.
#[derive(Debug, Drop)]
pub enum CometRefusal {
    /// The body is too large.
    TooLarge(Excess),
    /// This part of the request could not be read.
    Unread(Part),
    /// The key isn't the founding officer's.
    UnknownKey,
    /// The number was used for another request.
    OtherRequest {
        /// The receipt of that request, counted from 1.
        receipt: u64,
    },
    /// The office didn't give this designation.
    UnknownThing(Designation),
    /// The office took this designation over from elsewhere, so that no observation of its own discovered the object.
    NoDiscovery(Designation),
    /// The designation has this name of a comet already.
    AlreadyComet(Comet),
    /// The half-month in which the object was discovered has all the comets that it may have.
    HalfMonthFull {
        /// The half-month.
        half: HalfMonth,
        /// How many comets it may have.
        limit: u32,
    },
    /// The journal has no room for the act's entry.
    JournalFull {
        /// How many bytes the journal has.
        used: u64,
        /// How many more the entry would take.
        more: u64,
        /// How many it may have.
        limit: u64,
    },
    /// The disk failed, and the act wasn't done; or it is in doubt, and may or may not be kept. The same request, sent
    /// again, settles it.
    DiskFault {
        /// Whether this call left the act in doubt.
        doubt: bool,
    },
    /// Memory was refused. The same request may be done when it is sent again.
    NoMemory,
}

/// What the register answers.
#[derive(Debug, Drop)]
pub enum CometReply {
    /// The request was done; this is the text of the answer.
    Done(Bytes),
    /// The request was refused, and changed nothing.
    Refused(CometRefusal),
}

/// The status of a refusal.
fn refusal_status(refusal: &CometRefusal) -> u16
    ensures { result ≡ refusal_status refusal.now }
{
    match refusal {
        CometRefusal::TooLarge(_) => 413,
        CometRefusal::Unread(_) => 400,
        CometRefusal::UnknownKey => 401,
        CometRefusal::UnknownThing(_) => 404,
        CometRefusal::OtherRequest { .. }
        | CometRefusal::NoDiscovery(_)
        | CometRefusal::AlreadyComet(_)
        | CometRefusal::HalfMonthFull { .. }
        | CometRefusal::JournalFull { .. } => 409,
        CometRefusal::DiskFault { .. } => 503,
        CometRefusal::NoMemory => 507,
    }
}

/// The status of a reply, as HTTP numbers them (RFC 9110, and RFC 4918 where memory was refused): 200 for a request
/// that was done, 400 for one that can't be read, 401 for a key that isn't the founding officer's, 404 for a
/// designation that the office didn't give, 409 for a number that was used and for what the register's state doesn't
/// allow or its journal has no room for, 413 for a body that is too large, 503 where the disk failed, and 507 where
/// memory was refused.
pub fn comet_status(reply: &CometReply) -> u16
    ensures { result ≡ status_of reply.now }
{
    match reply {
        CometReply::Done(_) => 200,
        CometReply::Refused(refusal) => refusal_status(refusal),
    }
}

/// The line of a refusal that the office has too, and that has one line.
fn desk_line(refusal: &Refusal) -> ArrayVec<u8, REFUSAL_BYTES>
    requires { (faults : List Fault) → refusal.now ≢ Refusal.NoLine faults }
    ensures { result.items ≡ desk_text refusal.now }
{
    match refusal_line(refusal) {
        Some(line) => line,
        None => unreachable!(),
    }
}

/// The words, the printed form of a designation, and the line feed.
fn designation_line(words: &[u8], d: Designation) -> ArrayVec<u8, REFUSAL_BYTES>
    requires { length words.now ≤ 40 }
    ensures { result.items ≡ line_of (words.now ++ designation_text d) }
{
    let name = Name::Designation(d);
    let mut line = ArrayVec::new();
    line.try_extend_from_slice(words).unwrap();
    if is_name(name) {
        line.try_extend_from_slice(print(name).as_slice()).unwrap();
    }
    line.push(b'\n');
    line
}

/// Puts the printed form of a comet, and no text for a value that is none.
fn put_comet(line: &mut ArrayVec<u8, REFUSAL_BYTES>, comet: Comet)
    requires { array_vec_len line.old ≤ 50 }
    ensures text { line.new.items ≡ line.old.items ++ comet_text comet }
    ensures len { array_vec_len line.new ≤ array_vec_len line.old + 10 }
{
    if is_comet(comet) {
        line.try_extend_from_slice(print_comet(comet).as_slice())
            .unwrap();
    }
}

/// The line of the refusal of a designation that has this name already.
fn already_line(comet: Comet) -> ArrayVec<u8, REFUSAL_BYTES>
    ensures { result.items ≡ refusal_text (CometRefusal.AlreadyComet comet) }
{
    let mut line = ArrayVec::new();
    line.try_extend_from_slice(b"refused 20 AlreadyComet ")
        .unwrap();
    put_comet(&mut line, comet);
    line.push(b'\n');
    line
}

/// The line of a refusal.
fn refusal_as_line(refusal: &CometRefusal) -> ArrayVec<u8, REFUSAL_BYTES>
    ensures { result.items ≡ refusal_text refusal.now }
{
    match refusal {
        CometRefusal::TooLarge(excess) => desk_line(&Refusal::TooLarge(*excess)),
        CometRefusal::Unread(part) => desk_line(&Refusal::Unread(*part)),
        CometRefusal::UnknownKey => desk_line(&Refusal::UnknownKey),
        CometRefusal::OtherRequest { receipt } => {
            desk_line(&Refusal::OtherRequest { receipt: *receipt })
        }
        CometRefusal::UnknownThing(d) => {
            desk_line(&Refusal::UnknownThing(Thing::Designation(*d)))
        }
        CometRefusal::NoDiscovery(d) => designation_line(b"refused 19 NoDiscovery ", *d),
        CometRefusal::AlreadyComet(comet) => already_line(*comet),
        CometRefusal::HalfMonthFull { half, limit } => desk_line(&Refusal::HalfMonthFull {
            half: *half,
            limit: *limit,
        }),
        CometRefusal::JournalFull { used, more, limit } => desk_line(&Refusal::JournalFull {
            used: *used,
            more: *more,
            limit: *limit,
        }),
        CometRefusal::DiskFault { doubt } => desk_line(&Refusal::DiskFault { doubt: *doubt }),
        CometRefusal::NoMemory => desk_line(&Refusal::NoMemory),
    }
}

/// The text of a reply: what was answered, or the line of the refusal. It takes no memory.
pub fn comet_reply_text(reply: CometReply) -> Text
    ensures { text_bytes result ≡ text_of reply }
{
    match reply {
        CometReply::Done(text) => Text::Lines(text),
        CometReply::Refused(refusal) => Text::Line(refusal_as_line(&refusal)),
    }
}
