//! Replies with their texts.

ghost use Rattle.run_command.specs.Spoken.{IsSpoken, Speaks};

use act_model::{Refusal, Reply, reply_text, status};
use frame_service::Spoken;
use std::alloc::Global;

/// `NoMemory`, whose text takes no memory.
fn out_of_memory(alloc: Global) -> Spoken
    ensures { IsSpoken (Reply.Refused Refusal.NoMemory) result }
{
    match reply_text(alloc, Reply::Refused(Refusal::NoMemory)) {
        Ok(text) => Spoken { status: 507, text },
        Err(_) => unreachable!(),
    }
}

/// A reply with its text. Where there is no memory for the lines of a `NoLine`, `NoMemory` stands in its place, since a
/// refusal changes nothing.
pub fn speak(alloc: Global, reply: Reply) -> Spoken
    ensures { Speaks reply result }
{
    let status = status(&reply);
    match reply_text(alloc, reply) {
        Ok(text) => Spoken { status, text },
        Err(_) => out_of_memory(alloc),
    }
}
