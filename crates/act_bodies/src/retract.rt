//! The body of the act by which an observation is taken back.

ghost use Rattle.std.specs.Prelude.{◌≡◌, Some, None, IfOk};
ghost use Rattle.serde_json.specs.View.{view};
ghost use Rattle.act_bodies.specs.Members.{whole_in};
ghost use Rattle.act_bodies.specs.Bodies.{retract_in, retract_of};

use crate::fault::BodyFault;
use crate::members::{object_of, whole_in};
use serde_json::Value;
use std::alloc::Global;

/// An observation that is to be taken back.
#[derive(Clone, Copy, Debug, PartialEq, Eq)]
pub struct Retract {
    /// The observation's number.
    pub observation: u64,
}

/// What the members of an object say.
#[tactic(auto, unfolding(crate::specs::Bodies::retract_in))]
fn retract_in(value: &Value) -> Option<Retract>
    ensures { result ≡ retract_in (view value.now) }
{
    let observation = whole_in("observation", value)?;
    Some(Retract { observation })
}

/// Reads the body of `retract`: a JSON object of the member `observation`, a whole number.
///
/// # Errors
///
/// `Unread` where the body is anything else; `NoMemory` where memory was refused.
#[tactic(auto, unfolding(crate::specs::Bodies::retract_of))]
pub fn read_retract(alloc: Global, body: &[u8]) -> Result<Retract, BodyFault>
    ensures read { IfOk result (λ retract. retract_of body.now ≡ Some retract) }
    ensures unread { result ≡ Err BodyFault.Unread → retract_of body.now ≡ None }
{
    let value = object_of(alloc, 1, body)?;
    match retract_in(&value) {
        Some(retract) => Ok(retract),
        None => Err(BodyFault::Unread),
    }
}
