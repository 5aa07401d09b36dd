//! The body of the act by which an identification is undone.

ghost use Rattle.std.specs.Prelude.{◌≡◌, Some, None, IfOk, IfSome};
ghost use Rattle.serde_json.specs.View.{view};
ghost use Rattle.packed_names.specs.declared.name.Name.TheVariants as names;
ghost use Rattle.packed_names.specs.Ranges.{IsName};
ghost use Rattle.act_bodies.specs.Members.{designation_in};
ghost use Rattle.act_bodies.specs.Bodies.{separate_in, separate_of};

use crate::fault::BodyFault;
use crate::members::{designation_in, object_of};
use packed_names::Designation;
use serde_json::Value;
use std::alloc::Global;

/// A designation that is to be taken out of its object.
#[derive(Clone, Copy, Debug, PartialEq, Eq)]
pub struct Separate {
    /// The secondary designation.
    pub secondary: Designation,
}

/// What the members of an object say.
#[tactic(auto, unfolding(crate::specs::Bodies::separate_in))]
fn separate_in(value: &Value) -> Option<Separate>
    ensures value { result ≡ separate_in (view value.now) }
    ensures named { IfSome result (λ separate. IsName (names.Designation separate.secondary)) }
{
    let secondary = designation_in("secondary", value)?;
    Some(Separate { secondary })
}

/// Reads the body of `separate`: a JSON object of the member `secondary`, a designation in its printed form.
///
/// # Errors
///
/// `Unread` where the body is anything else; `NoMemory` where memory was refused.
#[tactic(auto, unfolding(crate::specs::Bodies::separate_of))]
pub fn read_separate(alloc: Global, body: &[u8]) -> Result<Separate, BodyFault>
    ensures read { IfOk result (λ separate. separate_of body.now ≡ Some separate) }
    ensures unread { result ≡ Err BodyFault.Unread → separate_of body.now ≡ None }
    ensures named { IfOk result (λ separate. IsName (names.Designation separate.secondary)) }
{
    let value = object_of(alloc, 1, body)?;
    match separate_in(&value) {
        Some(separate) => Ok(separate),
        None => Err(BodyFault::Unread),
    }
}
