//! A journal at its limit.

use act_model::{Body, Keeper, Key, Reply, Request, Verb, reply_text};
use item_list::Bytes;
use obs_time::Instant;
use std::alloc::Global;
use testkit_desks::{Visit, visit_desk};

/// Whose request it is, under which number, which verb it has, and its body.
#[derive(Clone, Copy)]
struct Asks {
    key: &'static [u8],
    number: u64,
    verb: Verb,
    body: &'static [u8],
}

/// A request, and the text that it is answered with.
type Exchange = (Asks, &'static str);

const FOUNDER: &[u8] = b"+founder-1";

/// The founder enrols an observer under each of the numbers 1 and 2.
const ENROLS_ANN: Asks = Asks {
    key: FOUNDER,
    number: 1,
    verb: Verb::Enrol,
    body: b"{\"key\":\"observer-1\",\"name\":\"Ann\",\"role\":\"observer\"}",
};

const ENROLS_BOB: Asks = Asks {
    key: FOUNDER,
    number: 2,
    verb: Verb::Enrol,
    body: b"{\"key\":\"observer-2\",\"name\":\"Bob\",\"role\":\"observer\"}",
};

// 2024-04-01T00:00:00Z.
const MOMENT: i64 = 1_711_929_600_000_000_000;

// Enough for each disk of the tests.
const CAPACITY: usize = 8_192;

/// The request; None where memory was refused.
fn request(alloc: Global, asks: &Asks) -> Option<Request> {
    match Bytes::from_slice(alloc, asks.body) {
        Ok(body) => Some(Request {
            key: Key::new(asks.key),
            number: Some(asks.number),
            verb: asks.verb,
            body: Body::Whole(body),
        }),
        Err(_) => None,
    }
}

/// What the keeper replies.
fn reply<V: Keeper>(keeper: &mut V, request: &Request, reading: Instant) -> Reply {
    if request.verb.is_act() {
        return keeper.act(request, reading);
    }
    keeper.ask(request)
}

/// Whether a reply has this text.
fn is_text(alloc: Global, reply: Reply, want: &str) -> bool {
    match reply_text(alloc, reply) {
        Ok(text) => text.as_slice() == want.as_bytes(),
        Err(_) => false,
    }
}

/// Whether the keeper replies so.
fn is_answer<V: Keeper>(
    alloc: Global,
    keeper: &mut V,
    reading: Instant,
    exchange: &Exchange,
) -> bool {
    match request(alloc, &exchange.0) {
        Some(request) => is_text(alloc, reply(keeper, &request, reading), exchange.1),
        None => false,
    }
}

/// Sends requests one after another; the place of the first that is answered otherwise, counted from 0.
fn wrong_answer<V: Keeper>(
    alloc: Global,
    keeper: &mut V,
    reading: Instant,
    exchanges: &[Exchange],
) -> Option<usize> {
    for (place, exchange) in exchanges.iter().enumerate() {
        if !is_answer(alloc, keeper, reading, exchange) {
            return Some(place);
        }
    }
    None
}

const ANN: Exchange = (ENROLS_ANN, "receipt 1\ncaller 1\n");

// How many bytes the journal may have, and what a second act is answered. An empty journal has 2 bytes, and each act
// takes 58 and the 51 of its body.
const LIMITS: [(u64, &str); 4] = [
    (111, "refused 15 JournalFull used 111 more 109 limit 111\n"),
    (200, "refused 15 JournalFull used 111 more 109 limit 200\n"),
    (219, "refused 15 JournalFull used 111 more 109 limit 219\n"),
    (220, "receipt 2\ncaller 2\n"),
];

/// Whether the second act is answered so, between the first one and the first one again.
fn is_second<V: Keeper>(
    alloc: Global,
    keeper: &mut V,
    reading: Instant,
    text: &'static str,
) -> bool {
    wrong_answer(alloc, keeper, reading, &[ANN, (ENROLS_BOB, text), ANN]).is_none()
}

/// Whether the second act is answered so, where each act is read at that moment.
#[derive(Clone, Copy)]
struct Second {
    reading: Instant,
    text: &'static str,
}

impl Visit for Second {
    type Told = bool;

    fn visit<K: Keeper>(&self, alloc: Global, keeper: K) -> bool {
        let mut keeper = keeper;
        is_second(alloc, &mut keeper, self.reading, self.text)
    }
}

/// Whether it is, at a desk on two empty disks, whose journal may have so many bytes.
fn is_second_within(alloc: Global, limit: u64, reading: Instant, text: &'static str) -> bool {
    visit_desk(alloc, limit, CAPACITY, &Second { reading, text }) == Some(true)
}

/// The first of these limits under which it is answered otherwise, counted from 0.
fn wrong_limit(alloc: Global, reading: Instant) -> Option<usize> {
    for (place, &(limit, text)) in LIMITS.iter().enumerate() {
        if !is_second_within(alloc, limit, reading, text) {
            return Some(place);
        }
    }
    None
}

/// The same, where each act is read at that moment.
fn wrong_limit_then(alloc: Global) -> Option<Option<usize>> {
    let reading = Instant::new(MOMENT)?;
    Some(wrong_limit(alloc, reading))
}

// The first act is answered again, also where the journal has no room for another.
#[test]
fn full_journals(rt: HostRuntime) {
    let wrong = wrong_limit_then(rt.alloc());
    assert_eq!(rt; wrong, Some(None));
}
