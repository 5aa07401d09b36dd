//! The links of `serve`, and how they end.

use crate::parts::{both, with_next};
use desk_io::{MemDoor, MemSink, MemSource, NoMemory};
use program_top::{Left, LinkEnds};
use std::alloc::Global;

/// A sink of a link that tells what it took.
pub(crate) trait Took {
    /// The bytes that it took.
    fn bytes(&self) -> &[u8];
}

impl Took for MemSink {
    fn bytes(&self) -> &[u8] {
        MemSink::bytes(self)
    }
}

/// How a link ends: why it is left, and what it was answered.
pub type End = (Left, &'static str);

/// Whether a link ended so.
fn is_end<I, O: Took>(ends: &LinkEnds<I, O>, place: u64, left: Left, answers: &[u8]) -> bool {
    match ends.get(place) {
        Some(end) => end.left == left && end.sink.bytes() == answers,
        None => false,
    }
}

/// The place of the first link that ended otherwise than it is wanted, or how many are wanted where there are others.
pub(crate) fn wrong_end<I, O: Took>(ends: &LinkEnds<I, O>, wanted: &[End]) -> Option<usize> {
    if ends.len() != wanted.len() as u64 {
        return Some(wanted.len());
    }
    for (place, (left, answers)) in wanted.iter().enumerate() {
        if !is_end(ends, place as u64, *left, answers.as_bytes()) {
            return Some(place);
        }
    }
    None
}

/// What is sent on a link, and the read of it that fails (0 for none).
pub type Sent = (&'static str, u64);

fn link_of(alloc: Global, sent: &str, fails: u64) -> Result<(MemSource, MemSink), NoMemory> {
    both(
        MemSource::new(alloc, sent.as_bytes(), 7, &[fails]),
        MemSink::new(alloc, 4_096, &[]),
    )
}

/// A door with these links, of which the call with the number `fails` fails (for 0 none does).
pub(crate) fn door_of(alloc: Global, links: &[Sent], fails: u64) -> Result<MemDoor, NoMemory> {
    let mut made = Vec::new(alloc);
    for (sent, read) in links {
        made = with_next(made, link_of(alloc, sent, *read))?;
    }
    MemDoor::new(alloc, made, &[fails])
}

/// A text that is put together: its front, a piece so many times, and its end.
pub type Text = (&'static str, &'static str, usize, &'static str);

fn put_text(bytes: &mut Vec<u8>, text: &Text) -> Result<(), NoMemory> {
    let (front, piece, count, end) = *text;
    bytes.extend_from_slice(front.as_bytes())?;
    for _ in 0..count {
        bytes.extend_from_slice(piece.as_bytes())?;
    }
    bytes.extend_from_slice(end.as_bytes())
}

fn bytes_of(alloc: Global, text: &Text) -> Result<Vec<u8>, NoMemory> {
    let mut bytes = Vec::new(alloc);
    put_text(&mut bytes, text)?;
    Ok(bytes)
}

/// What is sent on a link, why it is left, and what it is answered.
pub type Exchanged = (Text, Left, Text);

/// How many bytes a read of such a link gives at most, and how many its sink takes.
const LONG_READ: usize = 1_000;

const LONG_ANSWERS: usize = 131_072;

/// A link on which this is sent.
fn long_link(alloc: Global, sent: &Text) -> Result<(MemSource, MemSink), NoMemory> {
    let bytes = bytes_of(alloc, sent)?;
    both(
        MemSource::new(alloc, &bytes, LONG_READ, &[]),
        MemSink::new(alloc, LONG_ANSWERS, &[]),
    )
}

/// A door with such links.
pub(crate) fn long_door(alloc: Global, links: &[Exchanged]) -> Result<MemDoor, NoMemory> {
    let mut made = Vec::new(alloc);
    for (sent, _, _) in links {
        made = with_next(made, long_link(alloc, sent))?;
    }
    MemDoor::new(alloc, made, &[])
}

/// Whether a link ended so, after an answer that is put together.
fn is_long_end<I, O: Took>(
    alloc: Global,
    ends: &LinkEnds<I, O>,
    place: u64,
    left: Left,
    answers: &Text,
) -> Result<bool, NoMemory> {
    let wanted = bytes_of(alloc, answers)?;
    Ok(is_end(ends, place, left, wanted.as_slice()))
}

/// The place of the first link that ended otherwise, or how many links there are where as many didn't end.
pub(crate) fn wrong_long_end<I, O: Took>(
    alloc: Global,
    ends: &LinkEnds<I, O>,
    links: &[Exchanged],
) -> Result<Option<usize>, NoMemory> {
    for (place, (_, left, answers)) in links.iter().enumerate() {
        if !is_long_end(alloc, ends, place as u64, *left, answers)? {
            return Ok(Some(place));
        }
    }
    Ok(if ends.len() == links.len() as u64 {
        None
    } else {
        Some(links.len())
    })
}
