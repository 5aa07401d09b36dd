//! The body of the act by which it is entered how well an object's orbit is known.

ghost use Rattle.std.specs.Prelude.{◌≡◌, ◌≤◌, Some, None, IfOk, IfSome};
ghost use Rattle.serde_json.specs.View.{view};
ghost use Rattle.packed_names.specs.declared.name.Name.TheVariants as names;
ghost use Rattle.packed_names.specs.Ranges.{IsName};
ghost use Rattle.act_bodies.specs.Members.{bounded_in, designation_in};
ghost use Rattle.act_bodies.specs.Bodies.{verdict_in, verdict_of};

use crate::fault::BodyFault;
use crate::members::{bounded_in, designation_in, object_of};
use packed_names::Designation;
use serde_json::Value;
use std::alloc::Global;

/// How well an object's orbit is known.
#[derive(Clone, Copy, Debug, PartialEq, Eq)]
pub struct Verdict {
    /// A designation of the object.
    pub object: Designation,
    /// The uncertainty parameter U of the Minor Planet Center, 0 to 9, the smaller the better.
    pub u: u8,
    /// At how many oppositions the object was observed, 1 to 255.
    pub oppositions: u8,
}

/// What the members of an object say.
#[tactic(auto, unfolding(crate::specs::Bodies::verdict_in))]
fn verdict_in(value: &Value) -> Option<Verdict>
    ensures value { result ≡ verdict_in (view value.now) }
    ensures named { IfSome result (λ verdict. IsName (names.Designation verdict.object)) }
    ensures u { IfSome result (λ verdict. verdict.u ≤ 9) }
    ensures oppositions { IfSome result (λ verdict. 1 ≤ verdict.oppositions) }
{
    let object = designation_in("object", value)?;
    let u = bounded_in(0, 9, "u", value)?;
    let oppositions = bounded_in(1, 255, "oppositions", value)?;
    Some(Verdict {
        object,
        u: u as u8,
        oppositions: oppositions as u8,
    })
}

/// Reads the body of `verdict`: a JSON object of the members `object`, a designation in its printed form; `u`, a whole
/// number from 0 to 9; and `oppositions`, a whole number from 1 to 255.
///
/// # Errors
///
/// `Unread` where the body is anything else; `NoMemory` where memory was refused.
#[tactic(auto, unfolding(crate::specs::Bodies::verdict_of))]
pub fn read_verdict(alloc: Global, body: &[u8]) -> Result<Verdict, BodyFault>
    ensures read { IfOk result (λ verdict. verdict_of body.now ≡ Some verdict) }
    ensures unread { result ≡ Err BodyFault.Unread → verdict_of body.now ≡ None }
    ensures named { IfOk result (λ verdict. IsName (names.Designation verdict.object)) }
    ensures u { IfOk result (λ verdict. verdict.u ≤ 9) }
    ensures oppositions { IfOk result (λ verdict. 1 ≤ verdict.oppositions) }
{
    let value = object_of(alloc, 3, body)?;
    match verdict_in(&value) {
        Some(verdict) => Ok(verdict),
        None => Err(BodyFault::Unread),
    }
}
