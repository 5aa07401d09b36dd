//! What is heard of a request before the history is asked.

ghost use Rattle.std.specs.Prelude.{◌≡◌, true, ◌<◌, length, IfOk};
ghost use Rattle.act_model.specs.Rows.{IsDue};
ghost use Rattle.act_model.specs.Acts.{act_of, IsReadAsked};
ghost use Rattle.act_model.specs.Hearing.{asked_in, asked_of};
ghost use Rattle.act_model.specs.Queries.{query_of};
ghost use Rattle.act_model.specs.Requests.{is_act};

use crate::act::{Act, ActFault, read_act};
use crate::query::{Query, read_query};
use crate::reply::{Part, Refusal};
use crate::request::Verb;
use crate::roster::Caller;
use obs_record::HeaderFault;
use std::alloc::Global;

/// What a request asks, where its body is one that its verb has.
#[derive(Debug, Drop)]
pub enum Asked {
    /// This act.
    Act(Act),
    /// To take in a batch that has a fault of its headers.
    Header {
        /// The fault.
        fault: HeaderFault,
        /// The line's number, counted from 1.
        line: u32,
    },
    /// This query.
    Query(Query),
}

/// A request as it was heard: what it asks, and who asks. What comes later in the step takes it from here.
#[derive(Debug, Drop)]
pub struct Heard {
    /// The verb.
    pub verb: Verb,
    /// The number, one that the verb may have.
    pub number: u64,
    /// What is asked.
    pub asked: Asked,
    /// Who asks.
    pub caller: Caller,
}

// What a verb of an act and a body ask.
fn read_asked_act(alloc: Global, verb: Verb, body: &[u8]) -> Result<Asked, Refusal>
    requires { length body.now < 4_294_967_295 }
    ensures due { IsDue (asked_in (act_of verb body.now)) result }
    ensures read { IfOk result IsReadAsked }
{
    match read_act(alloc, verb, body) {
        Ok(act) => Ok(Asked::Act(act)),
        Err(ActFault::Header { fault, line }) => Ok(Asked::Header { fault, line }),
        Err(ActFault::Unread) => Err(Refusal::Unread(Part::Body)),
        Err(ActFault::NoMemory) => Err(Refusal::NoMemory),
    }
}

/// What a verb and a body of fewer than 4,294,967,295 bytes ask.
///
/// # Errors
///
/// `Unread` for the body, where it isn't as the verb wants it, and `NoMemory` where memory was refused.
pub fn read_asked(alloc: Global, verb: Verb, body: &[u8]) -> Result<Asked, Refusal>
    requires { length body.now < 4_294_967_295 }
    ensures due { IsDue (asked_of verb body.now) result }
    ensures read { IfOk result IsReadAsked }
{
    if verb.is_act() {
        return read_asked_act(alloc, verb, body);
    }
    match read_query(verb, body) {
        Some(query) => Ok(Asked::Query(query)),
        None => Err(Refusal::Unread(Part::Body)),
    }
}
