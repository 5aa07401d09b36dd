//! Replies and refusals, with their statuses and texts.

ghost use Rattle.std.specs.Prelude.{◌≡◌, ◌+◌, ◌++◌, ◌≤◌, IfOk, IfErr, IfSome, IfNone, List, length, decimal};
ghost use Rattle.act_model.specs.declared.reply.Fault.{Fault};
ghost use Rattle.arrayvec.specs.ArrayVec.{array_vec_len};
ghost use Rattle.act_model.specs.Texts.{line_of, header_name, designation_text, half_month_text};
ghost use Rattle.act_model.specs.Replies.{status_of, text_of, text_bytes, refusal_text, refusal_status, fault_lines};

use crate::texts::push_fault_lines;
use arrayvec::ArrayVec;
use item_list::{Bytes, ItemList, NoMemory};
use itoa::Buffer;
use obs_record::{HeaderFault, RuleCode};
use packed_names::{Designation, HalfMonth, Name, is_half_month, is_name, print, print_half};
use std::alloc::Global;

/// The most bytes that the line of a refusal has.
pub const REFUSAL_BYTES: usize = 104;

/// What of a request could not be read.
#[derive(Clone, Copy, Debug, PartialEq, Eq)]
pub enum Part {
    /// The verb is none of the office's.
    Verb,
    /// An act's number is 0, too great, or misspelt.
    Number,
    /// The body isn't as the verb wants it.
    Body,
}

/// What there is too much of in a request's body.
#[derive(Clone, Copy, Debug, PartialEq, Eq)]
pub enum Excess {
    /// It has this many bytes, more than 1,048,576.
    Length(u64),
    /// It has this many line feeds, more than 10,000.
    Lines(u64),
}

/// A thing that a request names and that isn't there.
#[derive(Clone, Copy, Debug, PartialEq, Eq)]
pub enum Thing {
    /// The observation with this number.
    Observation(u64),
    /// The tracklet with this number.
    Tracklet(u64),
    /// This designation, which the office didn't give.
    Designation(Designation),
    /// An act of the caller's with this number.
    Receipt(u64),
}

/// A line of a batch that isn't accepted.
#[derive(Clone, Copy, Debug, PartialEq, Eq)]
pub struct Fault {
    /// The line's number in the batch, counted from 1.
    pub line: u32,
    /// The first rule that the line breaks.
    pub rule: RuleCode,
}

/// The lines of a batch that aren't accepted, in their order.
pub type Faults = ItemList<Fault>;

/// Why the office refuses a request. A refused request changes nothing.
#[derive(Debug, Drop)]
pub enum Refusal {
    /// The body is too large.
    TooLarge(Excess),
    /// This part of the request could not be read.
    Unread(Part),
    /// Nobody on the roster has the key.
    UnknownKey,
    /// The caller has used the number for another request.
    OtherRequest {
        /// The receipt of that request, counted from 1.
        receipt: u64,
    },
    /// The act is one of officers, or retracts an observation that another caller sent, and the caller is an observer.
    Role,
    /// This thing, which the request names, isn't there.
    UnknownThing(Thing),
    /// The batch has a fault of its headers, in this line.
    Header {
        /// The fault.
        fault: HeaderFault,
        /// The line's number in the batch, counted from 1.
        line: u32,
    },
    /// No line of the batch is accepted. These are its faults.
    NoLine(Faults),
    /// The tracklet with this number is in an object already.
    NotIsolated(u64),
    /// The tracklet with this number is in no object.
    NotHomed(u64),
    /// The tracklet with this number has no live observation.
    Empty(u64),
    /// From the earliest to the latest live observation of the tracklets it is this many nanoseconds, less than 12
    /// hours.
    OneNight(i64),
    /// All designations of the half-month in which the object was discovered were given.
    HalfMonthFull {
        /// The half-month.
        half: HalfMonth,
        /// How many designations it has.
        limit: u32,
    },
    /// The half-month was taken over before, or a designation was given in it.
    HalfMonthBegun(HalfMonth),
    /// This designation isn't the principal one of its object.
    NotPrincipal(Designation),
    /// Both designations are the same.
    SameObject,
    /// Both objects have numbers.
    BothNumbered,
    /// The object that is to lose its own designation has a number, and the other one has none.
    NumberedSecondary,
    /// This designation is the principal one of its object.
    NotSecondary(Designation),
    /// The observation with this number is retracted already.
    AlreadyRetracted(u64),
    /// This is the number that comes next.
    NotNext(u32),
    /// No object can be numbered: none without a number has a live observation and a good verdict that is in force.
    NoneEligible,
    /// The last number that is needed is over 15,396,335.
    NumbersFull,
    /// The key is on the roster, the station's days overlap with those of a row, or the letter or word
    /// is in a row.
    AlreadyThere,
    /// The roster has all the callers that it may have.
    RosterFull,
    /// The journal has no room for the act's entry.
    JournalFull {
        /// How many bytes the journal has.
        used: u64,
        /// How many more the entry would take.
        more: u64,
        /// How many it may have.
        limit: u64,
    },
    /// The disk failed, and the act wasn't done; or it is in doubt, and may or may not be kept. The same
    /// request, sent again, settles it.
    DiskFault {
        /// Whether this call left the act in doubt.
        doubt: bool,
    },
    /// Memory was refused. The same request may be done when it is sent again.
    NoMemory,
}

/// What the office answers.
#[derive(Debug, Drop)]
pub enum Reply {
    /// The request was done; this is the text of the answer.
    Done(Bytes),
    /// The request was refused, and changed nothing.
    Refused(Refusal),
}

/// The status of a refusal, as HTTP numbers them (RFC 9110, and RFC 4918 where memory was refused).
pub fn refusal_status(refusal: &Refusal) -> u16
    ensures { result ≡ refusal_status refusal.now }
{
    match refusal {
        Refusal::TooLarge(_) => 413,
        Refusal::Unread(_) => 400,
        Refusal::UnknownKey => 401,
        Refusal::Role => 403,
        Refusal::UnknownThing(_) => 404,
        Refusal::Header { .. } | Refusal::NoLine(_) => 422,
        Refusal::DiskFault { .. } => 503,
        Refusal::NoMemory => 507,
        _ => 409,
    }
}

/// The status of a reply, as HTTP numbers them (RFC 9110, and RFC 4918 where memory was refused): 200 for
/// a request that was done, 400 for one that can't be read, 401 for a key that nobody has, 403 for an
/// observer who asks what officers may, 404 for a thing that isn't there, 409 for a number that was used and for
/// what the office's state doesn't allow or the journal has no room for, 413 for a body that is too large, 422 for a
/// batch with a fault of its headers or without a line that is accepted, 503 where the disk failed, and 507 where
/// memory was refused.
pub fn status(reply: &Reply) -> u16
    ensures { result ≡ status_of reply.now }
{
    match reply {
        Reply::Done(_) => 200,
        Reply::Refused(refusal) => refusal_status(refusal),
    }
}

fn line_in_place(words: &[u8]) -> ArrayVec<u8, REFUSAL_BYTES>
    requires { length words.now ≤ 63 }
    ensures { result.items ≡ line_of words.now }
{
    let mut line = ArrayVec::new();
    line.try_extend_from_slice(words).unwrap();
    line.push(b'\n');
    line
}

// The words, a number after them, and the line feed.
fn numbered_line(words: &[u8], number: u64) -> ArrayVec<u8, REFUSAL_BYTES>
    requires { length words.now ≤ 40 }
    ensures { result.items ≡ line_of (words.now ++ decimal number) }
{
    let mut buffer = Buffer::new();
    let mut line = ArrayVec::new();
    line.try_extend_from_slice(words).unwrap();
    line.try_extend_from_slice(buffer.format(number).as_bytes())
        .unwrap();
    line.push(b'\n');
    line
}

// The printed form of a designation, and no text for a value that is none.
fn put_designation(line: &mut ArrayVec<u8, REFUSAL_BYTES>, d: Designation)
    requires { array_vec_len line.old ≤ 50 }
    ensures text { line.new.items ≡ line.old.items ++ designation_text d }
    ensures len { array_vec_len line.new ≤ array_vec_len line.old + 13 }
{
    let name = Name::Designation(d);
    if is_name(name) {
        line.try_extend_from_slice(print(name).as_slice()).unwrap();
    }
}

// The printed form of a half-month, and no text for a value that is none.
fn put_half_month(line: &mut ArrayVec<u8, REFUSAL_BYTES>, half: HalfMonth)
    requires { array_vec_len line.old ≤ 30 }
    ensures text { line.new.items ≡ line.old.items ++ half_month_text half }
    ensures len { array_vec_len line.new ≤ array_vec_len line.old + 13 }
{
    if is_half_month(half) {
        line.try_extend_from_slice(print_half(half).as_slice())
            .unwrap();
    }
}

// The words, a designation after them, and the line feed.
fn named_line(words: &[u8], d: Designation) -> ArrayVec<u8, REFUSAL_BYTES>
    requires { length words.now ≤ 40 }
    ensures { result.items ≡ line_of (words.now ++ designation_text d) }
{
    let mut line = ArrayVec::new();
    line.try_extend_from_slice(words).unwrap();
    put_designation(&mut line, d);
    line.push(b'\n');
    line
}

fn night_line(time: i64) -> ArrayVec<u8, REFUSAL_BYTES>
    ensures { result.items ≡ refusal_text (Refusal.OneNight time) }
{
    let mut buffer = Buffer::new();
    let mut line = ArrayVec::new();
    line.try_extend_from_slice(b"refused 8 OneNight ").unwrap();
    line.try_extend_from_slice(buffer.format(time).as_bytes())
        .unwrap();
    line.push(b'\n');
    line
}

fn full_half_line(half: HalfMonth, limit: u32) -> ArrayVec<u8, REFUSAL_BYTES>
    ensures { result.items ≡ refusal_text (Refusal.HalfMonthFull half limit) }
{
    let mut buffer = Buffer::new();
    let mut line = ArrayVec::new();
    line.try_extend_from_slice(b"refused 9 HalfMonthFull ")
        .unwrap();
    put_half_month(&mut line, half);
    line.push(b' ');
    line.try_extend_from_slice(buffer.format(u64::from(limit)).as_bytes())
        .unwrap();
    line.push(b'\n');
    line
}

fn begun_half_line(half: HalfMonth) -> ArrayVec<u8, REFUSAL_BYTES>
    ensures { result.items ≡ refusal_text (Refusal.HalfMonthBegun half) }
{
    let mut line = ArrayVec::new();
    line.try_extend_from_slice(b"refused 18 HalfMonthBegun ")
        .unwrap();
    put_half_month(&mut line, half);
    line.push(b'\n');
    line
}

fn large_line(excess: Excess) -> ArrayVec<u8, REFUSAL_BYTES>
    ensures { result.items ≡ refusal_text (Refusal.TooLarge excess) }
{
    match excess {
        Excess::Length(size) => numbered_line(b"refused 14 TooLarge bytes ", size),
        Excess::Lines(count) => numbered_line(b"refused 14 TooLarge lines ", count),
    }
}

fn header_name(fault: HeaderFault) -> &'static [u8]
    ensures name { result.now ≡ header_name fault }
    ensures short { length result.now ≡ 2 }
{
    match fault {
        HeaderFault::H1 => b"H1",
        HeaderFault::H2 => b"H2",
        HeaderFault::H3 => b"H3",
        HeaderFault::H4 => b"H4",
        HeaderFault::H5 => b"H5",
    }
}

fn header_line(fault: HeaderFault, number: u32) -> ArrayVec<u8, REFUSAL_BYTES>
    ensures { result.items ≡ refusal_text (Refusal.Header fault number) }
{
    let mut buffer = Buffer::new();
    let mut line = ArrayVec::new();
    line.try_extend_from_slice(b"refused 6 Header ").unwrap();
    line.try_extend_from_slice(header_name(fault)).unwrap();
    line.try_extend_from_slice(b" line ").unwrap();
    line.try_extend_from_slice(buffer.format(u64::from(number)).as_bytes())
        .unwrap();
    line.push(b'\n');
    line
}

fn full_line(used: u64, more: u64, limit: u64) -> ArrayVec<u8, REFUSAL_BYTES>
    ensures { result.items ≡ refusal_text (Refusal.JournalFull used more limit) }
{
    let mut buffer = Buffer::new();
    let mut line = ArrayVec::new();
    line.try_extend_from_slice(b"refused 15 JournalFull used ")
        .unwrap();
    line.try_extend_from_slice(buffer.format(used).as_bytes())
        .unwrap();
    line.try_extend_from_slice(b" more ").unwrap();
    line.try_extend_from_slice(buffer.format(more).as_bytes())
        .unwrap();
    line.try_extend_from_slice(b" limit ").unwrap();
    line.try_extend_from_slice(buffer.format(limit).as_bytes())
        .unwrap();
    line.push(b'\n');
    line
}

fn disk_fault_line(doubt: bool) -> ArrayVec<u8, REFUSAL_BYTES>
    ensures { result.items ≡ refusal_text (Refusal.DiskFault doubt) }
{
    if doubt {
        line_in_place(b"refused 16 DiskFault doubt")
    } else {
        line_in_place(b"refused 16 DiskFault untouched")
    }
}

fn unread_line(part: Part) -> ArrayVec<u8, REFUSAL_BYTES>
    ensures { result.items ≡ refusal_text (Refusal.Unread part) }
{
    match part {
        Part::Verb => line_in_place(b"refused 1 Unread verb"),
        Part::Number => line_in_place(b"refused 1 Unread number"),
        Part::Body => line_in_place(b"refused 1 Unread body"),
    }
}

fn unknown_line(thing: Thing) -> ArrayVec<u8, REFUSAL_BYTES>
    ensures { result.items ≡ refusal_text (Refusal.UnknownThing thing) }
{
    match thing {
        Thing::Observation(k) => numbered_line(b"refused 5 UnknownThing observation ", k),
        Thing::Tracklet(t) => numbered_line(b"refused 5 UnknownThing tracklet ", t),
        Thing::Designation(d) => named_line(b"refused 5 UnknownThing designation ", d),
        Thing::Receipt(number) => numbered_line(b"refused 5 UnknownThing receipt ", number),
    }
}

/// The line of a refusal that has no more than one: `refused`, its number in the office's table of
/// refusals, its name, and what it carries, with a line feed at the end. It takes no memory, so a want
/// of memory can be answered too. None for `NoLine` alone, whose faults follow in lines of their own.
pub fn refusal_line(refusal: &Refusal) -> Option<ArrayVec<u8, REFUSAL_BYTES>>
    ensures text { IfSome result (λ line. line.items ≡ refusal_text refusal.now) }
    ensures none { IfNone result ((faults : List Fault) × (refusal.now ≡ Refusal.NoLine faults)) }
{
    match refusal {
        Refusal::TooLarge(excess) => Some(large_line(*excess)),
        Refusal::Unread(part) => Some(unread_line(*part)),
        Refusal::UnknownKey => Some(line_in_place(b"refused 2 UnknownKey")),
        Refusal::OtherRequest { receipt } => {
            Some(numbered_line(b"refused 3 OtherRequest receipt ", *receipt))
        }
        Refusal::Role => Some(line_in_place(b"refused 4 Role")),
        Refusal::UnknownThing(thing) => Some(unknown_line(*thing)),
        Refusal::Header { fault, line } => Some(header_line(*fault, *line)),
        Refusal::NoLine(_) => None,
        Refusal::NotIsolated(t) => Some(numbered_line(b"refused 8 NotIsolated ", *t)),
        Refusal::NotHomed(t) => Some(numbered_line(b"refused 8 NotHomed ", *t)),
        Refusal::Empty(t) => Some(numbered_line(b"refused 8 Empty ", *t)),
        Refusal::OneNight(time) => Some(night_line(*time)),
        Refusal::HalfMonthFull { half, limit } => Some(full_half_line(*half, *limit)),
        Refusal::HalfMonthBegun(half) => Some(begun_half_line(*half)),
        Refusal::NotPrincipal(d) => Some(named_line(b"refused 10 NotPrincipal ", *d)),
        Refusal::SameObject => Some(line_in_place(b"refused 10 SameObject")),
        Refusal::BothNumbered => Some(line_in_place(b"refused 10 BothNumbered")),
        Refusal::NumberedSecondary => Some(line_in_place(b"refused 10 NumberedSecondary")),
        Refusal::NotSecondary(d) => Some(named_line(b"refused 10 NotSecondary ", *d)),
        Refusal::AlreadyRetracted(k) => Some(numbered_line(b"refused 11 AlreadyRetracted ", *k)),
        Refusal::NotNext(next) => Some(numbered_line(b"refused 12 NotNext ", u64::from(*next))),
        Refusal::NoneEligible => Some(line_in_place(b"refused 12 NoneEligible")),
        Refusal::NumbersFull => Some(line_in_place(b"refused 12 NumbersFull")),
        Refusal::AlreadyThere => Some(line_in_place(b"refused 13 AlreadyThere")),
        Refusal::RosterFull => Some(line_in_place(b"refused 13 RosterFull")),
        Refusal::JournalFull { used, more, limit } => Some(full_line(*used, *more, *limit)),
        Refusal::DiskFault { doubt } => Some(disk_fault_line(*doubt)),
        Refusal::NoMemory => Some(line_in_place(b"refused 17 NoMemory")),
    }
}

/// The text of the refusal of a batch without a line that is accepted: its line, and a line for each
/// fault.
///
/// # Errors
///
/// Memory was refused.
pub fn no_line_text(alloc: Global, faults: &Faults) -> Result<Bytes, NoMemory>
    ensures { IfOk result (λ text. text ≡ refusal_text (Refusal.NoLine faults.now)) }
{
    let mut out = Bytes::from_slice(alloc, b"refused 7 NoLine\n")?;
    push_fault_lines(&mut out, faults.as_slice())?;
    Ok(out)
}

/// The text of a reply.
#[derive(Debug, Drop)]
pub enum Text {
    /// The text of an answer, or of a refusal of several lines.
    Lines(Bytes),
    /// The one line of a refusal, for which no memory is taken.
    Line(ArrayVec<u8, REFUSAL_BYTES>),
}

impl Text {
    /// The bytes of the text.
    pub fn as_slice(&self) -> &[u8]
        ensures { result.now ≡ text_bytes self.now }
    {
        match self {
            Text::Lines(text) => text.as_slice(),
            Text::Line(line) => line.as_slice(),
        }
    }
}

/// The text of a reply: what was answered, or the lines of the refusal. It takes memory for a `NoLine`
/// alone, so that `NoMemory` can be told without any.
///
/// # Errors
///
/// Memory was refused for the lines of a `NoLine`.
pub fn reply_text(alloc: Global, reply: Reply) -> Result<Text, NoMemory>
    ensures text { IfOk result (λ text. text_bytes text ≡ text_of reply) }
    ensures memory { IfErr result (λ _. (faults : List Fault) × (reply ≡ Reply.Refused (Refusal.NoLine faults))) }
{
    match reply {
        Reply::Done(text) => Ok(Text::Lines(text)),
        Reply::Refused(refusal) => refusal_as_text(alloc, &refusal),
    }
}

fn refusal_as_text(alloc: Global, refusal: &Refusal) -> Result<Text, NoMemory>
    ensures text { IfOk result (λ text. text_bytes text ≡ refusal_text refusal.now) }
    ensures memory { IfErr result (λ _. (faults : List Fault) × (refusal.now ≡ Refusal.NoLine faults)) }
{
    match refusal {
        Refusal::NoLine(faults) => match no_line_text(alloc, faults) {
            Ok(text) => Ok(Text::Lines(text)),
            Err(refused) => Err(refused),
        },
        other => match refusal_line(other) {
            Some(line) => Ok(Text::Line(line)),
            None => unreachable!(),
        },
    }
}
