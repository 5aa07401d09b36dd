//! The wire.

ghost use Rattle.std.specs.Prelude.{◌≡◌, ℕ, ◌<◌, ◌≤◌, List, [], ◌++◌, IfOk, OnOk};
ghost use Rattle.desk_io.specs.Reads.{Comes};
ghost use Rattle.read_ahead.specs.Reading.{LacksText, ReadsText, Counted, work};
ghost use Rattle.desk_http.specs.Reading.{AwaitsMessage};
ghost use Rattle.desk_http.specs.Answers.{ReadsMessage, OnRequest, Counts, IfKept, ReadsHead, ReadsWhole};

use crate::head::{Front, HeadParts, next_front};
use crate::heard::{Heard, Whole};
use crate::routes::Routes;
use crate::scan::Looked;
use act_model::{BODY_BYTES, Body, Request};
use desk_io::{Failed, NoMemory, Source};
use read_ahead::{Halt, ReadAhead};
use std::alloc::Global;
use std::marker::Model;

/// A reader of requests. It is seen as the bytes that it has read ahead and not yet used.
#[derive(Debug, Drop)]
pub struct Wire {
    ahead: ReadAhead,
    routes: Routes,
}

impl Model for Wire {
    ghost use Rattle.std.specs.Prelude.{ℕ, List};

    ghost Value = { List ℕ };

    ghost view = { λ r. r.ahead };
}

impl Wire {
    /// A wire that has read nothing ahead. It takes its buffer and its router now, and no memory later but for bodies.
    ///
    /// # Errors
    ///
    /// Memory was refused.
    pub fn new(alloc: Global) -> Result<Wire, NoMemory>
        ensures { IfOk result (λ wire. wire ≡ []) }
    {
        let ahead = ReadAhead::new(alloc)?;
        let routes = Routes::new(alloc)?;
        Ok(Wire { ahead, routes })
    }

    /// The next request of the source, after the bytes that were read ahead. Bytes that come after it stay
    /// read ahead for the next call.
    ///
    /// That a body is too long, or that memory for it was refused, is said by the request's body, and the
    /// next request is read all the same.
    /// After `Unread` and `ReadFault` it isn't said which bytes were used.
    pub fn read_request<S: Source>(&mut self, source: &mut S) -> Heard
        // What the answer says of the bytes that were read ahead and of those that came after them. No read
        // was made but while a message was awaited.
        ensures came { (piece : List ℕ) × Comes S.left S.gives (AwaitsMessage self.old) source.old source.new piece
            × ReadsMessage (self.old ++ piece) self.new (S.left source.new) result }
        ensures counts { S.faults source.old ≤ S.faults source.new }
        // It is `ReadFault` where the source failed in this call, and another answer where it didn't.
        ensures faults { Counts result (S.faults source.old) (S.faults source.new) }
        // The source isn't given up.
        ensures stays { S.is_open source.new ≡ S.is_open source.old }
        // The work that is left gets less with each request.
        ensures work { work (S.reads source.new) self.new ≤ work (S.reads source.old) self.old }
        ensures progress { OnRequest result (work (S.reads source.new) self.new < work (S.reads source.old) self.old) }
    {
        next_request(&mut self.ahead, &self.routes, source)
    }
}

// Reads a body of this length to its end. No memory is taken for one that is too long to be kept.
fn read_body<S: Source>(ahead: &mut ReadAhead, source: &mut S, size: u64) -> Result<Body, Halt>
    ensures came { (piece : List ℕ) × Comes S.left S.gives (LacksText ahead.old size) source.old source.new piece
        × ReadsText IfKept (ahead.old ++ piece) size ahead.new (S.left source.new) result }
    ensures counts { S.faults source.old ≤ S.faults source.new }
    ensures faults { Counted result (S.faults source.old) (S.faults source.new) }
    ensures stays { S.is_open source.new ≡ S.is_open source.old }
    ensures work { work (S.reads source.new) ahead.new ≤ work (S.reads source.old) ahead.old }
{
    if size > BODY_BYTES {
        ahead.read_text(source, size, None)?;
        return Ok(Body::TooLong(size));
    }
    let room = ahead.room_for(size);
    match ahead.read_text(source, size, room)? {
        Some(bytes) => Ok(Body::Whole(bytes)),
        None => Ok(Body::NoRoom),
    }
}

// Reads until a head stands at the front, and uses it.
fn read_head<S: Source>(
    ahead: &mut ReadAhead,
    routes: &Routes,
    source: &mut S,
) -> Result<HeadParts, Halt>
    ensures came { (piece : List ℕ) × Comes S.left S.gives (AwaitsMessage ahead.old) source.old source.new piece
        × ReadsHead (ahead.old ++ piece) ahead.new (S.left source.new) result }
    ensures counts { S.faults source.old ≤ S.faults source.new }
    ensures faults { Counted result (S.faults source.old) (S.faults source.new) }
    ensures stays { S.is_open source.new ≡ S.is_open source.old }
    ensures work { work (S.reads source.new) ahead.new ≤ work (S.reads source.old) ahead.old }
    ensures progress { OnOk result (work (S.reads source.new) ahead.new < work (S.reads source.old) ahead.old) }
{
    let mut looked = Looked::nothing();
    'pieces: loop {
        let pending = ahead.bytes();
        let (front, now) = next_front(routes, pending, &looked);
        looked = now;
        match front {
            Front::Whole { parts, size } => {
                ahead.skip(size);
                return Ok(parts);
            }
            Front::Bad => return Err(Halt::Bad),
            Front::Part => {}
        }
        match ahead.refill(source) {
            Ok(0) => return Err(ahead.halt_at_end()),
            Ok(_) => {}
            Err(Failed) => return Err(Halt::Failed),
        }
    }
}

// Reads a head and its body.
fn read_whole<S: Source>(
    ahead: &mut ReadAhead,
    routes: &Routes,
    source: &mut S,
) -> Result<Whole, Halt>
    ensures came { (piece : List ℕ) × Comes S.left S.gives (AwaitsMessage ahead.old) source.old source.new piece
        × ReadsWhole (ahead.old ++ piece) ahead.new (S.left source.new) result }
    ensures counts { S.faults source.old ≤ S.faults source.new }
    ensures faults { Counted result (S.faults source.old) (S.faults source.new) }
    ensures stays { S.is_open source.new ≡ S.is_open source.old }
    ensures work { work (S.reads source.new) ahead.new ≤ work (S.reads source.old) ahead.old }
    ensures progress { OnOk result (work (S.reads source.new) ahead.new < work (S.reads source.old) ahead.old) }
{
    let parts = read_head(ahead, routes, source)?;
    let body = read_body(ahead, source, parts.length)?;
    Ok(Whole { parts, body })
}

// The next request, by the bytes that are read ahead.
fn next_request<S: Source>(ahead: &mut ReadAhead, routes: &Routes, source: &mut S) -> Heard
    ensures came { (piece : List ℕ) × Comes S.left S.gives (AwaitsMessage ahead.old) source.old source.new piece
        × ReadsMessage (ahead.old ++ piece) ahead.new (S.left source.new) result }
    ensures counts { S.faults source.old ≤ S.faults source.new }
    ensures faults { Counts result (S.faults source.old) (S.faults source.new) }
    ensures stays { S.is_open source.new ≡ S.is_open source.old }
    ensures work { work (S.reads source.new) ahead.new ≤ work (S.reads source.old) ahead.old }
    ensures progress { OnRequest result (work (S.reads source.new) ahead.new < work (S.reads source.old) ahead.old) }
{
    match read_whole(ahead, routes, source) {
        Ok(whole) => {
            let asked = whole.parts.asked;
            Heard::Request {
                request: Request {
                    key: whole.parts.key,
                    number: asked.number,
                    verb: asked.verb,
                    body: whole.body,
                },
                last: whole.parts.closes,
            }
        }
        Err(Halt::End) => Heard::End,
        Err(Halt::Bad) => Heard::Unread,
        Err(Halt::Failed) => Heard::ReadFault,
    }
}
