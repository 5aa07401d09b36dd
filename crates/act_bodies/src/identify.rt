//! The body of the act by which two objects are found to be one.

ghost use Rattle.std.specs.Prelude.{◌≡◌, Some, None, IfOk, IfSome};
ghost use Rattle.serde_json.specs.View.{view};
ghost use Rattle.packed_names.specs.declared.name.Name.TheVariants as names;
ghost use Rattle.packed_names.specs.Ranges.{IsName};
ghost use Rattle.act_bodies.specs.Members.{designation_in};
ghost use Rattle.act_bodies.specs.Bodies.{identify_in, identify_of};

use crate::fault::BodyFault;
use crate::members::{designation_in, object_of};
use packed_names::Designation;
use serde_json::Value;
use std::alloc::Global;

/// Two objects that are found to be one.
#[derive(Clone, Copy, Debug, PartialEq, Eq)]
pub struct Identify {
    /// The principal designation of the object that stays.
    pub principal: Designation,
    /// The principal designation of the other object, from then on a secondary one.
    pub secondary: Designation,
}

/// What the members of an object say.
#[tactic(auto, unfolding(crate::specs::Bodies::identify_in))]
fn identify_in(value: &Value) -> Option<Identify>
    ensures value { result ≡ identify_in (view value.now) }
    ensures principal { IfSome result (λ identify. IsName (names.Designation identify.principal)) }
    ensures secondary { IfSome result (λ identify. IsName (names.Designation identify.secondary)) }
{
    let principal = designation_in("principal", value)?;
    let secondary = designation_in("secondary", value)?;
    Some(Identify {
        principal,
        secondary,
    })
}

/// Reads the body of `identify`: a JSON object of the members `principal` and `secondary`, designations in their
/// printed form.
///
/// # Errors
///
/// `Unread` where the body is anything else; `NoMemory` where memory was refused.
#[tactic(auto, unfolding(crate::specs::Bodies::identify_of))]
pub fn read_identify(alloc: Global, body: &[u8]) -> Result<Identify, BodyFault>
    ensures read { IfOk result (λ identify. identify_of body.now ≡ Some identify) }
    ensures unread { result ≡ Err BodyFault.Unread → identify_of body.now ≡ None }
    ensures principal { IfOk result (λ identify. IsName (names.Designation identify.principal)) }
    ensures secondary { IfOk result (λ identify. IsName (names.Designation identify.secondary)) }
{
    let value = object_of(alloc, 2, body)?;
    match identify_in(&value) {
        Some(identify) => Ok(identify),
        None => Err(BodyFault::Unread),
    }
}
