//! The body of the act by which a tracklet is added to an object.

ghost use Rattle.std.specs.Prelude.{◌≡◌, Some, None, IfOk, IfSome};
ghost use Rattle.serde_json.specs.View.{view};
ghost use Rattle.packed_names.specs.declared.name.Name.TheVariants as names;
ghost use Rattle.packed_names.specs.Ranges.{IsName};
ghost use Rattle.act_bodies.specs.Members.{whole_in, designation_in};
ghost use Rattle.act_bodies.specs.Bodies.{attribute_in, attribute_of};

use crate::fault::BodyFault;
use crate::members::{designation_in, object_of, whole_in};
use packed_names::Designation;
use serde_json::Value;
use std::alloc::Global;

/// A tracklet that is to be added to an object.
#[derive(Clone, Copy, Debug, PartialEq, Eq)]
pub struct Attribute {
    /// The tracklet's number.
    pub tracklet: u64,
    /// A designation of the object.
    pub to: Designation,
}

/// What the members of an object say.
#[tactic(auto, unfolding(crate::specs::Bodies::attribute_in))]
fn attribute_in(value: &Value) -> Option<Attribute>
    ensures value { result ≡ attribute_in (view value.now) }
    ensures named { IfSome result (λ attribute. IsName (names.Designation attribute.to)) }
{
    let tracklet = whole_in("tracklet", value)?;
    let to = designation_in("to", value)?;
    Some(Attribute { tracklet, to })
}

/// Reads the body of `attribute`: a JSON object of the members `tracklet`, a whole number, and `to`, a designation in
/// its printed form.
///
/// # Errors
///
/// `Unread` where the body is anything else; `NoMemory` where memory was refused.
#[tactic(auto, unfolding(crate::specs::Bodies::attribute_of))]
pub fn read_attribute(alloc: Global, body: &[u8]) -> Result<Attribute, BodyFault>
    ensures read { IfOk result (λ attribute. attribute_of body.now ≡ Some attribute) }
    ensures unread { result ≡ Err BodyFault.Unread → attribute_of body.now ≡ None }
    ensures named { IfOk result (λ attribute. IsName (names.Designation attribute.to)) }
{
    let value = object_of(alloc, 2, body)?;
    match attribute_in(&value) {
        Some(attribute) => Ok(attribute),
        None => Err(BodyFault::Unread),
    }
}
