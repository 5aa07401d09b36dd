//! Connections in memory, attended with a keeper that never has memory.

ghost use Rattle.std.specs.Prelude.{◌≡◌, None};

use act_model::{Keeper, Key, Refusal, Reply, Request};
use desk_io::{Clock, MemSink, MemSource, Sink, Source, TickClock};
use http_connection::{Left, attend};
use intake_lock::TurnLock;
use obs_time::Instant;
use std::alloc::Global;
use std::sync::Wait;
use std::test::*;

// A keeper that never has memory.
#[derive(Drop)]
struct Forgetful {
    founder: Key,
}

impl Keeper for Forgetful {
    ghost use Rattle.std.specs.Prelude.{[], None};

    ghost office = { λ k. record {
      founder = k.founder;
      limit = None;
      state = record { settled = []; doubt = None };
      faults = 0;
      stamps = None;
    } };

    fn act(&mut self, _request: &Request, _reading: Instant) -> Reply {
        Reply::Refused(Refusal::NoMemory)
    }

    fn ask(&self, _request: &Request) -> Reply {
        Reply::Refused(Refusal::NoMemory)
    }

    fn entries(&self) -> u64 {
        0
    }
}

// The read and the write that fail, counted from 1; for 0 none fails.
#[derive(Clone, Copy)]
struct Faults {
    read: u64,
    write: u64,
}

// Why a connection is left, and how many readings of the clock were taken.
#[derive(Clone, Copy)]
struct End {
    left: Left,
    readings: i64,
}

// What is sent on a connection, and what becomes of it.
#[derive(Clone, Copy)]
struct Row {
    sent: &'static str,
    faults: Faults,
    end: End,
    answered: [&'static str; 2],
}

const REFUSED: &str =
    "HTTP/1.1 507 Insufficient Storage\r\nContent-Length: 20\r\nContent-Type: text/plain\r\n\r\n\
    refused 17 NoMemory\n";

const REFUSED_LAST: &str =
    "HTTP/1.1 507 Insufficient Storage\r\nContent-Length: 20\r\nContent-Type: text/plain\r\n\
    Connection: close\r\n\r\nrefused 17 NoMemory\n";

const UNREAD: &str =
    "HTTP/1.1 400 Bad Request\r\nContent-Length: 22\r\nContent-Type: text/plain\r\n\
    Connection: close\r\n\r\nrefused 1 Unread head\n";

const ROWS: &[Row] = &[
    Row {
        sent: "",
        faults: Faults { read: 0, write: 0 },
        end: End {
            left: Left::Ended,
            readings: 0,
        },
        answered: ["", ""],
    },
    Row {
        sent: "GET /v1/ask/tally HTTP/1.1\r\n\r\nPOST /v1/act/1/enrol HTTP/1.1\r\n\r\n",
        faults: Faults { read: 0, write: 0 },
        end: End {
            left: Left::Ended,
            readings: 1,
        },
        answered: [REFUSED, REFUSED],
    },
    Row {
        sent: "GET /v1/ask/tally HTTP/1.0\r\n\r\nGET /v1/ask/tally HTTP/1.1\r\n\r\n",
        faults: Faults { read: 0, write: 0 },
        end: End {
            left: Left::Ended,
            readings: 0,
        },
        answered: [REFUSED_LAST, ""],
    },
    Row {
        sent: "POST /v1/act/1/enrol HTTP/1.1\r\n\r\nGET /v1/ask/tally HTTP/1.1\r\nConnection: close\r\n\r\nx",
        faults: Faults { read: 0, write: 0 },
        end: End {
            left: Left::Ended,
            readings: 1,
        },
        answered: [REFUSED, REFUSED_LAST],
    },
    Row {
        sent: "POST /v1/act/1/enrol HTTP/1.1\r\nContent-Length: 5\r\n\r\nab",
        faults: Faults { read: 0, write: 0 },
        end: End {
            left: Left::Unread,
            readings: 0,
        },
        answered: [UNREAD, ""],
    },
    Row {
        sent: "GET /v1/ask/tally HTTP/1.1\r\n\r\nx",
        faults: Faults { read: 0, write: 0 },
        end: End {
            left: Left::Unread,
            readings: 0,
        },
        answered: [REFUSED, UNREAD],
    },
    Row {
        sent: "POST /v1/act/1/enrol HTTP/1.1\r\n\r\nPOST /v1/act/2/enrol HTTP/1.1\r\n\r\n",
        faults: Faults { read: 0, write: 2 },
        end: End {
            left: Left::WriteFault,
            readings: 2,
        },
        answered: [REFUSED, ""],
    },
    Row {
        sent: "x",
        faults: Faults { read: 0, write: 1 },
        end: End {
            left: Left::WriteFault,
            readings: 0,
        },
        answered: ["", ""],
    },
    Row {
        sent: "GET /v1/ask/tally HTTP/1.1\r\n\r\nGET /v1/ask/tally HTTP/1.1\r\n\r\n",
        faults: Faults { read: 3, write: 0 },
        end: End {
            left: Left::ReadFault,
            readings: 0,
        },
        answered: [REFUSED, REFUSED],
    },
];

// Attends a connection with this keeper. Why it is left; None where memory was refused, here and below.
fn left_of<V: Keeper, S: Source, K: Sink, C: Clock, R: Wait>(
    rt: &R,
    alloc: Global,
    keeper: V,
    source: &mut S,
    sink: &mut K,
    clock: &mut C,
) -> Option<Left>
    requires { (V.office keeper).state.doubt ≡ None }
{
    let Ok((lock, root)) = TurnLock::new(alloc, keeper) else {
        return None;
    };
    let (_root, left) = attend(rt, alloc, &lock, root, source, sink, clock);
    Some(left)
}

// Attends a connection with the keeper that never has memory.
fn end_of<S: Source, K: Sink, C: Clock, R: Wait>(
    rt: &R,
    alloc: Global,
    source: &mut S,
    sink: &mut K,
    clock: &mut C,
) -> Option<End> {
    let keeper = Forgetful {
        founder: Key::new(b"+founder-1"),
    };
    let left = left_of(rt, alloc, keeper, source, sink, clock)?;
    Some(End {
        left,
        readings: clock.now().ns(),
    })
}

// Attends a connection of these bytes, of which a read gives at most 30.
fn attended<K: Sink, R: Wait>(
    rt: &R,
    alloc: Global,
    sent: &[u8],
    read: u64,
    sink: &mut K,
) -> Option<End> {
    let mut source = MemSource::new(alloc, sent, 30, &[read]).ok()?;
    let mut clock = TickClock::new(Instant::new(0)?, 1);
    end_of(rt, alloc, &mut source, sink, &mut clock)
}

// Whether a connection ends so.
fn is_end(end: Option<End>, want: End) -> bool {
    match end {
        Some(end) => end.left == want.left && end.readings == want.readings,
        None => false,
    }
}

// Whether a connection of these bytes ends so, with these answers, where the sink has this capacity.
fn is_attended<R: Wait>(
    rt: &R,
    alloc: Global,
    sent: &[u8],
    faults: Faults,
    capacity: usize,
    end: End,
    answered: &[u8],
) -> bool {
    match MemSink::new(alloc, capacity, &[faults.write]) {
        Ok(mut sink) => {
            is_end(attended(rt, alloc, sent, faults.read, &mut sink), end)
                && sink.bytes() == answered
        }
        Err(_) => false,
    }
}

fn joined(alloc: Global, texts: [&str; 2]) -> Option<Vec<u8>> {
    let mut all = Vec::new(alloc);
    for text in texts {
        all.extend_from_slice(text.as_bytes()).ok()?;
    }
    Some(all)
}

// Whether the connection of a row ends as it must.
fn holds<R: Wait>(rt: &R, alloc: Global, row: &Row) -> bool {
    match joined(alloc, row.answered) {
        Some(answered) => is_attended(
            rt,
            alloc,
            row.sent.as_bytes(),
            row.faults,
            1_000,
            row.end,
            answered.as_slice(),
        ),
        None => false,
    }
}

// The first of these rows whose connection ends otherwise, counted from 0; None where there is none.
fn wrong_row<R: Wait>(rt: &R, alloc: Global, rows: &[Row]) -> Option<usize> {
    for (place, row) in rows.iter().enumerate() {
        if !holds(rt, alloc, row) {
            return Some(place);
        }
    }
    None
}

#[test]
fn connections(rt: HostRuntime) {
    let wrong = wrong_row(&rt, rt.alloc(), ROWS);
    assert_eq!(rt; wrong, None);
}

// So many requests for the tally.
fn tallies(alloc: Global, count: usize) -> Option<Vec<u8>> {
    let mut sent = Vec::new(alloc);
    for _ in 0..count {
        sent.extend_from_slice(b"GET /v1/ask/tally HTTP/1.1\r\n\r\n")
            .ok()?;
    }
    Some(sent)
}

// The answers to so many tallies and one more, which is the last.
fn refusals(alloc: Global, count: usize) -> Option<Vec<u8>> {
    let mut all = Vec::new(alloc);
    for _ in 0..count {
        all.extend_from_slice(REFUSED.as_bytes()).ok()?;
    }
    all.extend_from_slice(REFUSED_LAST.as_bytes()).ok()?;
    Some(all)
}

// Whether a connection of 1,001 requests is left after 1,000 answers.
fn is_left_after_enough<R: Wait>(rt: &R, alloc: Global) -> Option<bool> {
    let sent = tallies(alloc, 1_001)?;
    let answered = refusals(alloc, 999)?;
    let faults = Faults { read: 0, write: 0 };
    let end = End {
        left: Left::Enough,
        readings: 0,
    };
    let (sent, answered) = (sent.as_slice(), answered.as_slice());
    Some(is_attended(rt, alloc, sent, faults, 200_000, end, answered))
}

#[test]
fn a_thousand_answers(rt: HostRuntime) {
    let left = is_left_after_enough(&rt, rt.alloc());
    assert_eq!(rt; left, Some(true));
}
