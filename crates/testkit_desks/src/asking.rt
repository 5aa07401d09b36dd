//! Requests of the founder, and what a keeper answers to them.

ghost use Rattle.std.specs.Prelude.{◌≡◌};

use act_model::{Body, Keeper, Key, Reply, Request, Verb};
use desk_io::TickClock;
use http_connection::answer_one;
use intake_lock::{Pass, TurnLock};
use item_list::Bytes;
use obs_time::Instant;
use std::alloc::Global;
use std::sync::Wait;

/// A request of the founder; None where memory was refused, here and below.
pub fn request(alloc: Global, number: u64, verb: Verb, body: &[u8]) -> Option<Request> {
    let body = Bytes::from_slice(alloc, body).ok()?;
    Some(Request {
        key: Key::new(b"+founder-1"),
        number: Some(number),
        verb,
        body: Body::Whole(body),
    })
}

/// The founder enrols an observer, another one under each number.
pub fn enrolment(alloc: Global, number: u64) -> Option<Request> {
    let body = format!(in alloc;
        "{{\"key\":\"observer-{number}\",\"name\":\"Ann\",\"role\":\"observer\"}}"
    ).ok()?;
    request(alloc, number, Verb::Enrol, body.as_bytes())
}

/// A clock that goes by seconds.
pub fn new_clock() -> Option<TickClock> {
    let first = Instant::new(1_711_929_600_000_000_000)?;
    Some(TickClock::new(first, 1_000_000_000))
}

/// One turn at the lock.
pub fn take_turn<V: Keeper, R: Wait>(
    rt: &R,
    alloc: Global,
    lock: &TurnLock<V>,
    pass: Pass,
    request: &Request,
    clock: &mut TickClock,
) -> (Pass, Reply)
    requires { pass.lock ≡ lock.now.id }
    ensures { (result.0.lock ≡ pass.lock) × (result.0.view.role ≡ pass.view.role) }
{
    answer_one(rt, alloc, lock, pass, request, clock)
}

/// The number after the first word of a text's first line.
fn number_in(text: &[u8]) -> u64 {
    let mut number = 0u64;
    for byte in text {
        if *byte == b'\n' {
            return number;
        }
        if byte.is_ascii_digit() {
            number = number
                .wrapping_mul(10)
                .wrapping_add(u64::from(byte.wrapping_sub(b'0')));
        }
    }
    0
}

/// What a keeper answers to a query.
fn answer<V: Keeper>(keeper: &V, request: &Request) -> Option<Reply> {
    if request.verb.is_act() {
        return None;
    }
    Some(keeper.ask(request))
}

/// The number in the first line of what is done; 0 where it is refused.
pub fn number_of_reply(reply: &Reply) -> u64 {
    match reply {
        Reply::Done(text) => number_in(text.as_slice()),
        Reply::Refused(_) => 0,
    }
}

/// What a keeper answers to a query with this body.
pub fn asked<V: Keeper>(alloc: Global, keeper: &V, verb: Verb, body: &[u8]) -> Option<Reply> {
    let query = request(alloc, 0, verb, body)?;
    answer(keeper, &query)
}

/// The number in the first line of what a keeper answers to a query; 0 where it is refused or memory was.
pub fn number_asked<V: Keeper>(alloc: Global, keeper: &V, verb: Verb, body: &[u8]) -> u64 {
    match asked(alloc, keeper, verb, body) {
        Some(reply) => number_of_reply(&reply),
        None => 0,
    }
}
