//! Whether what is heard of a text is wanted.

use act_model::{Body, Request, read_verb};
use desk_http::{Heard, Wire};
use desk_io::MemSource;
use std::alloc::Global;

/// What is heard: a request with its key, its number, the word of its verb (an empty one for an unknown verb), its
/// body, and whether its answer is the last one; or what comes in place of one.
#[derive(Clone, Copy)]
pub enum Want {
    Asks(&'static str, Option<u64>, &'static str, &'static str, bool),
    End,
    Unread,
    Fault,
}

/// Whether the body is whole and this.
fn is_body(body: &Body, want: &str) -> bool {
    match body {
        Body::Whole(bytes) => bytes.as_slice() == want.as_bytes(),
        Body::TooLong(_) => false,
        Body::NoRoom => false,
    }
}

/// Whether this request is wanted.
fn is_asked(request: &Request, last: bool, want: Want) -> bool {
    match want {
        Want::Asks(key, number, word, body, closes) => {
            request.key.text() == key.as_bytes()
                && request.number == number
                && request.verb == read_verb(word.as_bytes())
                && is_body(&request.body, body)
                && last == closes
        }
        Want::End => false,
        Want::Unread => false,
        Want::Fault => false,
    }
}

/// Whether this is heard next.
pub fn hears(wire: &mut Wire, source: &mut MemSource, want: Want) -> bool {
    match wire.read_request(source) {
        Heard::Request { request, last } => is_asked(&request, last, want),
        Heard::End => matches!(want, Want::End),
        Heard::Unread => matches!(want, Want::Unread),
        Heard::ReadFault => matches!(want, Want::Fault),
    }
}

/// Whether these are heard, one after the other.
fn hears_all(wire: &mut Wire, source: &mut MemSource, wants: &[Want]) -> bool {
    for want in wants {
        if !hears(wire, source, *want) {
            return false;
        }
    }
    true
}

/// Whether these are heard of a text, one after the other, where a read gives so many bytes at most and the read with
/// this number fails; for 0 none fails. False where memory was refused.
pub fn is_heard(alloc: Global, bytes: &[u8], greatest: usize, fails: u64, wants: &[Want]) -> bool {
    match (
        MemSource::new(alloc, bytes, greatest.max(1), &[fails]),
        Wire::new(alloc),
    ) {
        (Ok(mut source), Ok(mut wire)) => hears_all(&mut wire, &mut source, wants),
        _ => false,
    }
}
