//! Two links of which one is held at a place of its own until the other, which comes only then, was answered.

ghost use Rattle.std.specs.Prelude.{◌<◌, ◌≤◌, length, None};

use crate::calls::call_through;
use crate::links::{End, Took};
use crate::parts::{both, let_go, with_next};
use desk_io::{Door, Failed, MemSink, MemSource, Next, NoMemory, Sink, Source};
use std::alloc::Global;
use std::collections::VecDeque;
use std::sync::atomic::{AtomicU64, Ordering};
use std::sync::{Arc, Wait};
use std::thread::{Threads, yield_now};
use testkit_sessions::{Call, Wrong};

/// How often a link that is held looks whether it may go on, before it fails.
const LOOKS: u64 = 4_000_000;

/// A count that the two links share.
type Count = Arc<AtomicU64, Global>;

/// What a link does at a place: it goes on; or, so many bytes from its start, it says that it is there and awaits the
/// other's answer; or it awaits that the other is there.
#[derive(Clone, Copy, Debug, PartialEq, Eq)]
enum Part {
    GoesOn,
    HoldsAt(u64),
    Follows,
}

/// Where a link is held.
#[derive(Clone, Copy, Debug, PartialEq, Eq)]
pub enum Place {
    /// Before the read that begins so many bytes from the start of what it sends, or further on.
    Sent(u64),
    /// Where so many bytes of what it is answered are taken. A write that goes further takes the bytes up to there.
    Answered(u64),
}

// As much of a piece as a link of this part takes at once, so many bytes from its start: up to its place.
fn up_to_place(part: Part, place: u64, piece: &[u8]) -> &[u8]
    ensures within { length result.now ≤ length piece.now }
    ensures some { 0 < length piece.now → 0 < length result.now }
{
    match part {
        Part::HoldsAt(at) if place < at => {
            let (front, _) = piece.split_at(piece.len().min((at - place) as usize));
            front
        }
        _ => piece,
    }
}

// Whether the count came that far, in time.
fn came_in_time(count: &AtomicU64, wanted: u64) -> bool {
    for _ in 0..LOOKS {
        if count.load(Ordering::SeqCst) >= wanted {
            return true;
        }
        yield_now();
    }
    false
}

/// What the two links share: whether the one is at its place, and how many bytes the other was answered.
#[derive(Drop)]
struct Meeting {
    there: Count,
    answered: Count,
    // how many bytes the other is answered
    whole: u64,
}

impl Meeting {
    fn again(&self) -> Result<Meeting, NoMemory> {
        let (there, answered) = both(Arc::try_clone(&self.there), Arc::try_clone(&self.answered))?;
        Ok(Meeting {
            there,
            answered,
            whole: self.whole,
        })
    }

    // Whether a link of this part may go on, so many bytes from its start.
    fn may_go_on(&self, part: Part, place: u64) -> bool {
        match part {
            Part::GoesOn => true,
            Part::HoldsAt(at) => {
                if place < at {
                    return true;
                }
                self.there.store(1, Ordering::SeqCst);
                came_in_time(&self.answered, self.whole)
            }
            Part::Follows => came_in_time(&self.there, 1),
        }
    }
}

/// A source of one of the two. It tells nothing of its bytes.
#[derive(Drop)]
struct MetSource {
    source: MemSource,
    meeting: Meeting,
    part: Part,
    place: u64,
    faults: u64,
}

impl Source for MetSource {
    ghost left = { λ _. None };

    ghost faults = { λ met. met.faults };

    ghost reads = { λ met. length met.source.left };

    ghost is_open = { λ met. met.source.is_open };

    ghost gives = { λ before bytes after. Unit {0} };

    fn read(&mut self, piece: &mut [u8]) -> Result<usize, Failed> {
        if self.meeting.may_go_on(self.part, self.place) {
            if let Ok(count) = self.source.read(piece) {
                self.place = self.place.saturating_add(count as u64);
                return Ok(count);
            }
        }
        self.faults = self.faults.saturating_add(1);
        Err(Failed)
    }

    fn end(&mut self) {
        self.source.end();
    }
}

/// A sink of one of the two. It tells nothing of its bytes.
#[derive(Drop)]
struct MetSink {
    sink: MemSink,
    meeting: Meeting,
    part: Part,
    place: u64,
    faults: u64,
}

impl Took for MetSink {
    fn bytes(&self) -> &[u8] {
        self.sink.bytes()
    }
}

impl Sink for MetSink {
    ghost taken = { λ _. None };

    ghost faults = { λ met. met.faults };

    ghost is_open = { λ met. met.sink.is_open };

    fn write(&mut self, piece: &[u8]) -> Result<usize, Failed> {
        if self.meeting.may_go_on(self.part, self.place) {
            let front = up_to_place(self.part, self.place, piece);
            if let Ok(count) = self.sink.write(front) {
                self.place = self.place.saturating_add(count as u64);
                if self.part == Part::Follows {
                    self.meeting
                        .answered
                        .fetch_add(count as u64, Ordering::SeqCst);
                }
                return Ok(count);
            }
        }
        self.faults = self.faults.saturating_add(1);
        Err(Failed)
    }

    fn end(&mut self) {
        self.sink.end();
    }
}

/// A door that gives the two, and is shut after them.
#[derive(Drop)]
struct MetDoor {
    links: VecDeque<(MetSource, MetSink)>,
}

fn source_of(
    alloc: Global,
    meeting: &Meeting,
    sent: &str,
    part: Part,
) -> Result<MetSource, NoMemory> {
    let source = MemSource::new(alloc, sent.as_bytes(), 7, &[]);
    let (source, meeting) = both(source, meeting.again())?;
    Ok(MetSource {
        source,
        meeting,
        part,
        place: 0,
        faults: 0,
    })
}

fn sink_of(alloc: Global, meeting: &Meeting, part: Part) -> Result<MetSink, NoMemory> {
    let (sink, meeting) = both(MemSink::new(alloc, 4_096, &[]), meeting.again())?;
    Ok(MetSink {
        sink,
        meeting,
        part,
        place: 0,
        faults: 0,
    })
}

fn no_count(alloc: Global) -> Result<Count, NoMemory> {
    Ok(Arc::new(alloc, AtomicU64::new(0))?)
}

// What two links share of which the other is answered so many bytes.
fn meeting_of(alloc: Global, whole: u64) -> Result<Meeting, NoMemory> {
    let (there, answered) = both(no_count(alloc), no_count(alloc))?;
    Ok(Meeting {
        there,
        answered,
        whole,
    })
}

// The one link, with what it does where it reads and where it writes, and the other one after it.
fn links_of(
    alloc: Global,
    meeting: &Meeting,
    held: &str,
    does: (Part, Part),
    other: &str,
) -> Result<Vec<(MetSource, MetSink)>, NoMemory> {
    let (reads, writes) = does;
    let source = source_of(alloc, meeting, held, reads);
    let link = both(source, sink_of(alloc, meeting, writes));
    let links = with_next(Vec::new(alloc), link)?;
    let source = source_of(alloc, meeting, other, Part::Follows);
    let link = both(source, sink_of(alloc, meeting, Part::Follows));
    with_next(links, link)
}

impl MetDoor {
    fn new(
        alloc: Global,
        held: &str,
        place: Place,
        other: &str,
        whole: u64,
    ) -> Result<MetDoor, NoMemory> {
        let meeting = meeting_of(alloc, whole)?;
        let does = match place {
            Place::Sent(at) => (Part::HoldsAt(at), Part::GoesOn),
            Place::Answered(at) => (Part::GoesOn, Part::HoldsAt(at)),
        };
        let links = links_of(alloc, &meeting, held, does, other);
        let_go(meeting);
        Ok(MetDoor {
            links: VecDeque::from(links?),
        })
    }
}

impl Door for MetDoor {
    type In = MetSource;

    type Out = MetSink;

    ghost links = { λ _. None };

    ghost faults = { λ _. 0 };

    fn next(&mut self) -> Next<MetSource, MetSink> {
        match self.links.pop_front() {
            Some((source, sink)) => Next::Link(source, sink),
            None => Next::Shut,
        }
    }
}

/// Calls `top` with two links, on three empty disks. The first link is held at this place until the second was answered
/// whole; the second sends nothing before the first is there. Gives the place of the first that ended otherwise than it
/// is wanted.
///
/// # Errors
///
/// What is wrong with the call.
pub fn call_met<R: Threads + Wait + Sync>(
    rt: &R,
    alloc: Global,
    call: &Call,
    held: &str,
    place: Place,
    other: (&str, u64),
    wanted: &[End],
) -> Result<Option<usize>, Wrong> {
    let (sent, whole) = other;
    let door = MetDoor::new(alloc, held, place, sent, whole);
    call_through(rt, alloc, call, door, wanted)
}
