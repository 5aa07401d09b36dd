//! Links in memory of which some are held, inside a message or an answer, until enough was answered on all of them.

ghost use Rattle.std.specs.Prelude.{length, None};

use crate::calls::call_through;
use crate::links::{End, Took};
use crate::parts::{both, let_go, with_next};
use desk_io::{Door, Failed, MemSink, MemSource, Next, NoMemory, Sink, Source};
use std::alloc::Global;
use std::collections::VecDeque;
use std::sync::atomic::{AtomicU64, Ordering};
use std::sync::{Arc, Wait};
use std::thread::{Threads, yield_now};
use testkit_sessions::{Call, Wrong};

/// How often a source or a sink that is held looks whether enough was answered, before it fails.
const LOOKS: u64 = 1_000_000;

/// How many bytes the sinks of the links took so far, in whichever threads.
type Answered = Arc<AtomicU64, Global>;

/// What is sent on a link, and how many bytes its source and its sink await.
pub type Held = (&'static str, u64, u64);

// Whether the sinks took so many bytes, in time.
fn took_in_time(answered: &AtomicU64, awaited: u64) -> bool {
    for _ in 0..LOOKS {
        if answered.load(Ordering::SeqCst) >= awaited {
            return true;
        }
        yield_now();
    }
    false
}

/// A source that gives one piece, and the next one when the sinks took as many bytes as it awaits. It tells nothing of
/// its bytes.
#[derive(Drop)]
struct HeldSource {
    source: MemSource,
    answered: Answered,
    awaited: u64,
    has_begun: bool,
    faults: u64,
}

impl Source for HeldSource {
    ghost left = { λ _. None };

    ghost faults = { λ held. held.faults };

    ghost reads = { λ held. length held.source.left };

    ghost is_open = { λ held. held.source.is_open };

    ghost gives = { λ before bytes after. Unit {0} };

    fn read(&mut self, piece: &mut [u8]) -> Result<usize, Failed> {
        if !self.has_begun || took_in_time(&self.answered, self.awaited) {
            self.has_begun = true;
            if let Ok(count) = self.source.read(piece) {
                return Ok(count);
            }
        }
        self.faults = self.faults.saturating_add(1);
        Err(Failed)
    }

    fn end(&mut self) {
        self.source.end();
    }
}

/// A sink that takes nothing before the sinks took as many bytes as it awaits. It tells nothing of its bytes.
#[derive(Drop)]
struct HeldSink {
    sink: MemSink,
    answered: Answered,
    awaited: u64,
    faults: u64,
}

impl Took for HeldSink {
    fn bytes(&self) -> &[u8] {
        self.sink.bytes()
    }
}

impl Sink for HeldSink {
    ghost taken = { λ _. None };

    ghost faults = { λ held. held.faults };

    ghost is_open = { λ held. held.sink.is_open };

    fn write(&mut self, piece: &[u8]) -> Result<usize, Failed> {
        if took_in_time(&self.answered, self.awaited) {
            if let Ok(count) = self.sink.write(piece) {
                self.answered.fetch_add(count as u64, Ordering::SeqCst);
                return Ok(count);
            }
        }
        self.faults = self.faults.saturating_add(1);
        Err(Failed)
    }

    fn end(&mut self) {
        self.sink.end();
    }
}

/// A door that gives such links, and is shut after the last of them.
#[derive(Drop)]
struct HeldDoor {
    links: VecDeque<(HeldSource, HeldSink)>,
}

/// The source of a link: what is sent on it, and how many bytes it awaits.
fn source_of(
    alloc: Global,
    answered: &Answered,
    sent: &str,
    awaited: u64,
) -> Result<HeldSource, NoMemory> {
    let (source, answered) = both(
        MemSource::new(alloc, sent.as_bytes(), 7, &[]),
        Arc::try_clone(answered),
    )?;
    Ok(HeldSource {
        source,
        answered,
        awaited,
        has_begun: false,
        faults: 0,
    })
}

/// The sink of a link, and how many bytes it awaits.
fn sink_of(alloc: Global, answered: &Answered, awaited: u64) -> Result<HeldSink, NoMemory> {
    let (sink, answered) = both(MemSink::new(alloc, 4_096, &[]), Arc::try_clone(answered))?;
    Ok(HeldSink {
        sink,
        answered,
        awaited,
        faults: 0,
    })
}

/// A link for each of these.
fn links_of(
    alloc: Global,
    answered: &Answered,
    links: &[Held],
) -> Result<Vec<(HeldSource, HeldSink)>, NoMemory> {
    let mut made = Vec::new(alloc);
    for &(sent, read_awaits, write_awaits) in links {
        let source = source_of(alloc, answered, sent, read_awaits);
        let sink = sink_of(alloc, answered, write_awaits);
        made = with_next(made, both(source, sink))?;
    }
    Ok(made)
}

impl HeldDoor {
    /// A door with a link for each of these.
    fn new(alloc: Global, links: &[Held]) -> Result<HeldDoor, NoMemory> {
        let answered = Arc::new(alloc, AtomicU64::new(0))?;
        let links = links_of(alloc, &answered, links);
        let_go(answered);
        Ok(HeldDoor {
            links: VecDeque::from(links?),
        })
    }
}

impl Door for HeldDoor {
    type In = HeldSource;

    type Out = HeldSink;

    ghost links = { λ _. None };

    ghost faults = { λ _. 0 };

    fn next(&mut self) -> Next<HeldSource, HeldSink> {
        match self.links.pop_front() {
            Some((source, sink)) => Next::Link(source, sink),
            None => Next::Shut,
        }
    }
}

/// Calls `top` on three empty disks, with these links, and gives the place of the first that ended otherwise than it is
/// wanted.
///
/// # Errors
///
/// What is wrong with the call.
pub fn call_held<R: Threads + Wait + Sync>(
    rt: &R,
    alloc: Global,
    call: &Call,
    links: &[Held],
    wanted: &[End],
) -> Result<Option<usize>, Wrong> {
    call_through(rt, alloc, call, HeldDoor::new(alloc, links), wanted)
}
