//! Tests of sources, sinks, clocks and doors, in memory, over streams and over the system's clock.

use crate::tables::expect_none_wrong;
use desk_io::{
    Clock, Door, Failed, MemDoor, MemSink, MemSource, Next, NoMemory, Sink, Source, StreamSink,
    StreamSource, SystemClock, TickClock, write_all,
};
use obs_time::Instant;
use std::alloc::Global;
use std::io;
use std::io::{ErrorKind, Read, Write};
use std::test::Fail;

// Whether these are the bytes that were to be read, at the front of a piece.
fn is_text(piece: &[u8], count: usize, want: Option<&str>) -> bool {
    match want {
        Some(text) => count == text.len() && piece.starts_with(text.as_bytes()),
        None => false,
    }
}

// Whether a read into a piece of so many bytes gets these, or fails.
fn gets<S: Source>(source: &mut S, room: usize, want: Option<&str>) -> bool {
    let mut piece = [0u8; 16];
    if room > 16 {
        return false;
    }
    match source.read(&mut piece[..room]) {
        Ok(count) => is_text(&piece, count, want),
        Err(_) => want.is_none(),
    }
}

// The room of a read, and the bytes that it gets, or None where it fails.
type Reads = &'static [(usize, Option<&'static str>)];

// The first read that gets other bytes, counted from 0; None where there is none. So are those below.
fn wrong_read<S: Source>(source: &mut S, reads: Reads) -> Option<usize> {
    for (row, &(room, want)) in reads.iter().enumerate() {
        if !gets(source, room, want) {
            return Some(row);
        }
    }
    None
}

// A piece, and how many of its bytes are taken, or None where the write fails.
type Writes = &'static [(&'static str, Option<usize>)];

fn wrong_write<K: Sink>(sink: &mut K, writes: Writes) -> Option<usize> {
    for (row, &(piece, want)) in writes.iter().enumerate() {
        if sink.write(piece.as_bytes()).ok() != want {
            return Some(row);
        }
    }
    None
}

// Whether both clocks give this moment.
fn both_read<C: Clock>(clock: &mut C, twin: &mut C, ns: i64) -> bool {
    clock.now().ns() == ns && twin.now().ns() == ns
}

// Whether the door gives a link with this text, or another answer.
fn gives<G: Door>(door: &mut G, want: &str) -> bool {
    match door.next() {
        Next::Link(source, _) => {
            let mut source = source;
            gets(&mut source, 16, Some(want))
        }
        Next::Shut => want == "shut",
        Next::Failed => want == "failed",
        Next::NoMemory => want == "no memory",
    }
}

const MEM_READS: Reads = &[
    (2, Some("ab")),
    (9, None),
    (0, Some("")),
    (9, Some("cde")),
    (9, Some("fg")),
    (9, Some("")),
];

#[test]
fn source_in_memory(rt: HostRuntime) -> Result<(), Fail> {
    let mut source = MemSource::new(rt.alloc(), b"abcdefg", 3, &[2])?;
    let wrong = wrong_read(&mut source, MEM_READS);
    expect_none_wrong(&rt, wrong);
    Ok(())
}

const MEM_WRITES: Writes = &[
    ("abc", Some(3)),
    ("d", None),
    ("", Some(0)),
    ("defg", Some(2)),
    ("fg", None),
    ("", Some(0)),
];

// The first wrong write to a sink in memory with room for five bytes, whose second call fails, and whether it has taken
// five bytes.
fn writes_in_memory(alloc: Global) -> Result<(Option<usize>, bool), NoMemory> {
    let mut sink = MemSink::new(alloc, 5, &[2])?;
    let wrong = wrong_write(&mut sink, MEM_WRITES);
    Ok((wrong, sink.bytes() == b"abcde".as_slice()))
}

#[test]
fn sink_in_memory(rt: HostRuntime) -> Result<(), Fail> {
    assert_eq!(rt; writes_in_memory(rt.alloc())?, (None, true));
    Ok(())
}

// A link whose source has this text.
fn link_with(alloc: Global, text: &str) -> Result<(MemSource, MemSink), NoMemory> {
    let source = MemSource::new(alloc, text.as_bytes(), 16, &[])?;
    let sink = MemSink::new(alloc, 16, &[])?;
    Ok((source, sink))
}

fn door_with_two(alloc: Global, fails: &[u64]) -> Result<MemDoor, NoMemory> {
    let mut links = Vec::new(alloc);
    links.push(link_with(alloc, "first")?)?;
    links.push(link_with(alloc, "second")?)?;
    MemDoor::new(alloc, links, fails)
}

const ANSWERS: &[&str] = &["first", "failed", "second", "shut", "failed", "shut"];

fn wrong_answer<G: Door>(door: &mut G) -> Option<usize> {
    for (row, &want) in ANSWERS.iter().enumerate() {
        if !gives(door, want) {
            return Some(row);
        }
    }
    None
}

#[test]
fn door_in_memory(rt: HostRuntime) -> Result<(), Fail> {
    let mut door = door_with_two(rt.alloc(), &[2, 5])?;
    let wrong = wrong_answer(&mut door);
    expect_none_wrong(&rt, wrong);
    Ok(())
}

// Whether the first and the second of two pieces are written whole.
fn two_writes<K: Sink>(sink: &mut K, one: &[u8], other: &[u8]) -> (bool, bool) {
    let first = write_all(sink, one).is_ok();
    (first, write_all(sink, other).is_ok())
}

// The same of a sink in memory with room for five bytes, and whether it has taken those bytes.
fn whole_writes(alloc: Global) -> Result<((bool, bool), bool), NoMemory> {
    let mut sink = MemSink::new(alloc, 5, &[])?;
    let written = two_writes(&mut sink, b"abc", b"defg");
    Ok((written, sink.bytes() == b"abcde".as_slice()))
}

#[test]
fn whole_writes_in_memory(rt: HostRuntime) -> Result<(), Fail> {
    assert_eq!(rt; whole_writes(rt.alloc())?, ((true, false), true));
    Ok(())
}

// Readings a step apart, until the last moment of the year 2199.
const MOMENTS: [i64; 5] = [
    7_258_118_399_999_999_990,
    7_258_118_399_999_999_994,
    7_258_118_399_999_999_998,
    7_258_118_399_999_999_999,
    7_258_118_399_999_999_999,
];

fn wrong_moment<C: Clock>(clock: &mut C, twin: &mut C) -> Option<usize> {
    for (row, &ns) in MOMENTS.iter().enumerate() {
        if !both_read(clock, twin, ns) {
            return Some(row);
        }
    }
    None
}

#[test]
fn clock_by_steps(rt: HostRuntime) -> Result<(), Fail> {
    let first = Instant::new(7_258_118_399_999_999_990).ok_or("out of range")?;
    let mut clock = TickClock::new(first, 4);
    let mut twin = clock.another();
    let wrong = wrong_moment(&mut clock, &mut twin);
    expect_none_wrong(&rt, wrong);
    Ok(())
}

// A reader whose second read fails.
#[derive(Drop)]
struct Broken {
    calls: u8,
}

impl Read for Broken {
    fn read(&mut self, piece: &mut [u8]) -> io::Result<usize> {
        self.calls = self.calls.saturating_add(1);
        if self.calls == 2 {
            return Err(io::Error::from(ErrorKind::TimedOut));
        }
        match piece.first_mut() {
            Some(byte) => {
                *byte = b'x';
                Ok(1)
            }
            None => Ok(0),
        }
    }
}

const STREAM_READS: Reads = &[
    (3, Some("abc")),
    (9, Some("de")),
    (9, Some("")),
    (9, Some("")),
];

#[test]
fn source_over_a_reader(rt: HostRuntime) {
    let mut source = StreamSource::new(b"abcde".as_slice());
    let wrong = wrong_read(&mut source, STREAM_READS);
    expect_none_wrong(&rt, wrong);
}

const BROKEN_READS: Reads = &[(9, Some("x")), (9, None), (9, Some("x"))];

#[test]
fn source_over_a_broken_reader(rt: HostRuntime) {
    let mut broken = StreamSource::new(Broken { calls: 0 });
    let wrong = wrong_read(&mut broken, BROKEN_READS);
    broken.end();
    let ended = gets(&mut broken, 9, Some(""));
    assert_eq!(rt; (wrong, ended), (None, true));
}

// Whether a sink takes a whole piece, and none after its end.
fn takes_until_its_end<K: Sink>(sink: &mut K) -> bool {
    if write_all(sink, b"abcde") != Ok(()) {
        return false;
    }
    sink.end();
    write_all(sink, b"f") == Err(Failed)
}

// The same of a sink over a writer, and whether the writer has the piece.
fn writer_takes(alloc: Global) -> (bool, bool) {
    let mut bytes = Vec::new(alloc);
    let mut sink = StreamSink::new(&mut bytes);
    let is_taken = takes_until_its_end(&mut sink);
    (is_taken, bytes.as_slice() == b"abcde".as_slice())
}

#[test]
fn sink_over_a_writer(rt: HostRuntime) {
    assert_eq!(rt; writer_takes(rt.alloc()), (true, true));
}

const FULL_WRITES: Writes = &[("abcd", Some(3)), ("d", None), ("", Some(0))];

// A slice that is full takes nothing more.
#[test]
fn sink_over_a_full_writer(rt: HostRuntime) {
    let mut room = [0u8; 3];
    let mut full = StreamSink::new(room.as_mut_slice());
    let wrong = wrong_write(&mut full, FULL_WRITES);
    expect_none_wrong(&rt, wrong);
}

// A stream that is interrupted at its first, second and fourth call, and fails at its fifth. It gives and takes a byte
// a call.
#[derive(Drop)]
struct Disturbed {
    calls: u8,
}

impl Disturbed {
    fn call(&mut self) -> io::Result<()> {
        self.calls = self.calls.saturating_add(1);
        match self.calls {
            1 | 2 | 4 => Err(io::Error::from(ErrorKind::Interrupted)),
            5 => Err(io::Error::from(ErrorKind::TimedOut)),
            _ => Ok(()),
        }
    }
}

impl Read for Disturbed {
    fn read(&mut self, piece: &mut [u8]) -> io::Result<usize> {
        self.call()?;
        match piece.first_mut() {
            Some(byte) => {
                *byte = b'x';
                Ok(1)
            }
            None => Ok(0),
        }
    }
}

impl Write for Disturbed {
    fn write(&mut self, piece: &[u8]) -> io::Result<usize> {
        self.call()?;
        Ok(usize::from(!piece.is_empty()))
    }

    fn flush(&mut self) -> io::Result<()> {
        Ok(())
    }
}

const DISTURBED_READS: Reads = &[(9, Some("x")), (9, None), (9, Some("x"))];

// An interrupt isn't told, and any other error is a fault, also after one.
#[test]
fn source_over_a_disturbed_reader(rt: HostRuntime) {
    let mut source = StreamSource::new(Disturbed { calls: 0 });
    let wrong = wrong_read(&mut source, DISTURBED_READS);
    expect_none_wrong(&rt, wrong);
}

const DISTURBED_WRITES: Writes = &[("ab", Some(1)), ("bc", None), ("bc", Some(1))];

#[test]
fn sink_over_a_disturbed_writer(rt: HostRuntime) {
    let mut sink = StreamSink::new(Disturbed { calls: 0 });
    let wrong = wrong_write(&mut sink, DISTURBED_WRITES);
    expect_none_wrong(&rt, wrong);
}

#[test]
fn clock_over_the_system(rt: HostRuntime) {
    let mut clock = SystemClock::new(rt);
    let mut twin = clock.another();
    let first = clock.now().ns();
    let second = twin.now().ns();
    assert!(rt; first > 1_577_836_800_000_000_000, "after the year 2019");
    assert!(rt; second > 1_577_836_800_000_000_000, "after the year 2019");
}
