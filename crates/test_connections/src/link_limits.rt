//! Tests of the limits to the time that the peer of a link on a port may take.
//!
//! What happens at a link stands in functions over any door, source and sink, which give the first thing that isn't as
//! it should be: so no test has the proof of what becomes of a link's two halves.

use crate::tables::{Wrong, expect_nothing_wrong};
use desk_io::{Door, LinkLimits, Next, Sink, Source, TcpDoor, write_all};
use std::alloc::Global;
use std::io::{Read, Write};
use std::net::{SocketAddr, TcpStream};
use std::rt::Clock;
use std::test::Fail;
use std::thread::join;
use std::time::{Duration, Instant};
use std::{io, thread};

/// A limit that isn't reached, in milliseconds.
const LONG: u64 = 20_000;

/// How long a test may take that doesn't wait for `LONG`, in milliseconds.
const SOON: u64 = 8_000;

/// How often a peer does something that does so every 10 milliseconds: for 15 seconds.
const TIMES: u32 = 1_500;

/// How long a piece is that a peer takes in 4 seconds or more.
const PIECE: usize = 1 << 25;

// A door with these limits, and where it is.
fn door_with(
    rt: HostRuntime,
    silence: u64,
    turn: u64,
) -> io::Result<(TcpDoor<HostRuntime>, SocketAddr)> {
    let limits = LinkLimits {
        silence: Duration::from_millis(silence),
        turn: Duration::from_millis(turn),
    };
    let mut door = TcpDoor::with_limits(rt, rt.alloc(), 0, limits);
    let address = door.bind()?;
    Ok((door, address))
}

fn millis(count: u64) -> Duration {
    Duration::from_millis(count)
}

// Whether so much time is at least so many milliseconds, and less than `SOON`.
fn is_soon(span: Duration, least: u64) -> bool {
    span >= millis(least) && span < millis(SOON)
}

fn pause<C: Clock>(clock: &C) {
    thread::sleep(clock, millis(10));
}

// What is wrong with a link whose peer says nothing and takes nothing.
fn wrong_silence<C: Clock, S: Source, K: Sink>(
    clock: &C,
    source: &mut S,
    sink: &mut K,
    piece: &[u8],
) -> io::Result<Wrong> {
    let start = Instant::now(clock)?;
    if source.read(&mut [0u8; 8]).is_ok() {
        return Ok(Some("the read gives bytes"));
    }
    if !is_soon(start.elapsed(clock)?, 150) {
        return Ok(Some("the read fails too early or too late"));
    }
    // What the system keeps for the peer is soon full.
    if write_all(sink, piece).is_ok() {
        return Ok(Some("the piece is taken"));
    }
    if !is_soon(start.elapsed(clock)?, 0) {
        return Ok(Some("the write fails too late"));
    }
    Ok(None)
}

// The same of the next link of a door.
fn wrong_next<C: Clock, D: Door>(clock: &C, alloc: Global, mut door: D) -> io::Result<Wrong> {
    let piece = Vec::from_elem(alloc, 7u8, PIECE)?;
    match door.next() {
        Next::Link(source, sink) => {
            let (mut source, mut sink) = (source, sink);
            wrong_silence(clock, &mut source, &mut sink, &piece)
        }
        _ => Ok(Some("no link comes")),
    }
}

#[test]
fn peer_that_says_nothing(rt: HostRuntime) -> Result<(), Fail> {
    let (door, address) = door_with(rt, 200, LONG)?;
    let peer = TcpStream::connect(&rt, address)?;
    let wrong = wrong_next(&rt, rt.alloc(), door)?;
    drop(peer);
    expect_nothing_wrong(&rt, wrong);
    Ok(())
}

// Sends a byte every 10 milliseconds, until the stream is closed. Says how many.
fn send_slowly(rt: HostRuntime, address: SocketAddr) -> io::Result<u32> {
    let mut peer = TcpStream::connect(&rt, address)?;
    for sent in 0..TIMES {
        if peer.write_all(b".").is_err() {
            return Ok(sent);
        }
        pause(&rt);
    }
    Ok(TIMES)
}

// Reads bytes until a read fails. Says whether one did, before the end came.
fn fails_at_last<S: Source>(source: &mut S) -> bool {
    for _ in 0..TIMES {
        match source.read(&mut [0u8; 8]) {
            Ok(0) => return false,
            Ok(_) => {}
            Err(_) => return true,
        }
    }
    false
}

// How long it takes to give a link up.
fn closing<C: Clock, S: Source, K: Sink>(clock: &C, source: S, sink: K) -> io::Result<Duration> {
    let start = Instant::now(clock)?;
    drop((source, sink));
    start.elapsed(clock)
}

// Reads bytes until a read fails, and gives the link up. Says how long each took.
fn read_slowly<C: Clock, D: Door>(
    clock: &C,
    mut door: D,
) -> io::Result<Option<(Duration, Duration)>> {
    let Next::Link(source, sink) = door.next() else {
        return Ok(None);
    };
    let mut source = source;
    let start = Instant::now(clock)?;
    if !fails_at_last(&mut source) {
        return Ok(None);
    }
    let failed = start.elapsed(clock)?;
    Ok(Some((failed, closing(clock, source, sink)?)))
}

// What is wrong with these times, until a read failed and from there until the link was given up, or with the count of
// bytes that were sent.
fn wrong_times(read: Option<(Duration, Duration)>, sent: u32) -> Wrong {
    let Some((failed, closed)) = read else {
        return Some("no read fails");
    };
    if !is_soon(failed, 400) {
        return Some("the read fails too early or too late");
    }
    // What still comes is thrown away for as long once more.
    if !is_soon(closed, 400) {
        return Some("the link is closed too early or too late");
    }
    if sent == TIMES {
        return Some("all bytes are sent");
    }
    None
}

#[test]
fn peer_that_sends_now_and_then(rt: HostRuntime) -> Result<(), Fail> {
    let (door, address) = door_with(rt, 5_000, 400)?;
    let (sent, read) = join(
        &rt,
        move || send_slowly(rt, address),
        move || read_slowly(&rt, door),
    );
    expect_nothing_wrong(&rt, wrong_times(read?, sent?));
    Ok(())
}

// Asks with a byte, 100 times, and waits for a byte each time. Says whether all were answered.
fn are_answered<C: Clock, P: Read + Write>(clock: &C, peer: &mut P) -> io::Result<bool> {
    for _ in 0..100 {
        pause(clock);
        peer.write_all(b"?")?;
        if peer.read(&mut [0u8; 1])? != 1 {
            return Ok(false);
        }
    }
    Ok(true)
}

// The same of a peer of the door at this address.
fn ask_often(rt: HostRuntime, address: SocketAddr) -> io::Result<bool> {
    let mut peer = TcpStream::connect(&rt, address)?;
    are_answered(&rt, &mut peer)
}

// Answers each byte with one, until the end. Says how many.
fn answers<S: Source, K: Sink>(source: &mut S, sink: &mut K) -> Option<u32> {
    for answered in 0..TIMES {
        if source.read(&mut [0u8; 8]).ok()? == 0 {
            return Some(answered);
        }
        write_all(sink, b"!").ok()?;
    }
    None
}

// The same at the next link of a door.
fn answer_often<D: Door>(mut door: D) -> Option<u32> {
    match door.next() {
        Next::Link(source, sink) => {
            let (mut source, mut sink) = (source, sink);
            answers(&mut source, &mut sink)
        }
        _ => None,
    }
}

// What is wrong with 100 answers.
fn wrong_answers(are_answered: bool, answered: Option<u32>) -> Wrong {
    if !are_answered {
        return Some("the peer isn't answered");
    }
    if answered != Some(100) {
        return Some("how many answers there are");
    }
    None
}

#[test]
fn peer_that_is_answered_stays(rt: HostRuntime) -> Result<(), Fail> {
    let (door, address) = door_with(rt, 5_000, 500)?;
    let (asked, answered) = join(
        &rt,
        move || ask_often(rt, address),
        move || answer_often(door),
    );
    expect_nothing_wrong(&rt, wrong_answers(asked?, answered));
    Ok(())
}

// Takes 65,536 bytes or fewer every 10 milliseconds, until the end. Says how many.
fn taken_slowly<C: Clock, P: Read>(clock: &C, peer: &mut P, room: &mut [u8]) -> usize {
    let mut taken = 0usize;
    for _ in 0..TIMES {
        match peer.read(room) {
            Ok(0) | Err(_) => return taken,
            Ok(count) => taken = taken.saturating_add(count),
        }
        pause(clock);
    }
    taken
}

// The same of a peer of the door at this address.
fn take_slowly(rt: HostRuntime, address: SocketAddr) -> io::Result<usize> {
    let mut room = Vec::from_elem(rt.alloc(), 0u8, 1 << 16)?;
    let mut peer = TcpStream::connect(&rt, address)?;
    Ok(taken_slowly(&rt, &mut peer, &mut room))
}

// Whether a long piece is taken, and how long that took.
fn written<C: Clock, K: Sink>(clock: &C, sink: &mut K, piece: &[u8]) -> Option<(bool, Duration)> {
    let start = Instant::now(clock).ok()?;
    let is_taken = write_all(sink, piece).is_ok();
    Some((is_taken, start.elapsed(clock).ok()?))
}

// The same at the next link of a door.
fn write_long<D: Door>(rt: HostRuntime, mut door: D) -> Option<(bool, Duration)> {
    let piece = Vec::from_elem(rt.alloc(), 7u8, PIECE).ok()?;
    match door.next() {
        Next::Link(_source, sink) => {
            let mut sink = sink;
            written(&rt, &mut sink, &piece)
        }
        _ => None,
    }
}

// What is wrong with a long piece that was written, of which the peer took so many bytes.
fn wrong_taking(written: Option<(bool, Duration)>, taken: usize, is_long: bool) -> Wrong {
    let Some((is_taken, took)) = written else {
        return Some("no link comes");
    };
    if is_taken != is_long {
        return Some("the piece is taken, or not taken");
    }
    if took >= millis(LONG) {
        return Some("the write takes too long");
    }
    if (taken == PIECE) != is_long {
        return Some("the peer takes all, or not all");
    }
    None
}

#[test]
fn peer_that_takes_now_and_then(rt: HostRuntime) -> Result<(), Fail> {
    for (turn, is_long) in [(800, false), (LONG, true)] {
        let (door, address) = door_with(rt, 400, turn)?;
        let (taken, written) = join(
            &rt,
            move || take_slowly(rt, address),
            move || write_long(rt, door),
        );
        expect_nothing_wrong(&rt, wrong_taking(written, taken?, is_long));
    }
    Ok(())
}

// What is wrong with a door that refuses each link, or with its peer.
fn wrong_refusal<D: Door, P: Read>(door: &mut D, peer: &mut P) -> Wrong {
    if !matches!(door.next(), Next::Failed) {
        return Some("the door doesn't fail");
    }
    // The peer was dropped.
    if !matches!(peer.read(&mut [0u8; 1]), Ok(0) | Err(_)) {
        return Some("the peer isn't dropped");
    }
    None
}

#[test]
fn limit_that_the_system_refuses(rt: HostRuntime) -> Result<(), Fail> {
    let (mut door, address) = door_with(rt, 0, LONG)?;
    let mut peer = TcpStream::connect(&rt, address)?;
    let wrong = wrong_refusal(&mut door, &mut peer);
    expect_nothing_wrong(&rt, wrong);
    Ok(())
}
