//! The body of the act by which an object gets the name of a comet.

ghost use Rattle.std.specs.Prelude.{◌≡◌, Some, None, IfOk, IfSome};
ghost use Rattle.serde_json.specs.View.{view};
ghost use Rattle.packed_names.specs.declared.name.Name.TheVariants as names;
ghost use Rattle.packed_names.specs.Ranges.{IsName};
ghost use Rattle.comet_model.specs.Namings.{kind_by, kind_in, naming_in, naming_of};

use act_bodies::BodyFault;
use act_bodies::members::{designation_in, object_of, text_in};
use comet_names::CometKind;
use packed_names::Designation;
use serde_json::Value;
use std::alloc::Global;

/// An object that turned out to be a comet.
#[derive(Clone, Copy, Debug, PartialEq, Eq)]
pub struct Naming {
    /// The kind of comet.
    pub kind: CometKind,
    /// A designation of the object.
    pub object: Designation,
}

/// The kind whose letter is the text.
#[tactic(auto, unfolding(comet_names::specs::Kinds::kind_of))]
fn kind_by(text: &[u8]) -> Option<CometKind>
    ensures { result ≡ kind_by text.now }
{
    match text {
        [b'C'] => Some(CometKind::C),
        [b'P'] => Some(CometKind::P),
        _ => None,
    }
}

/// The kind that a body names.
#[tactic(auto, unfolding(crate::specs::Namings::kind_in))]
fn kind_in(value: &Value) -> Option<CometKind>
    ensures { result ≡ kind_in (view value.now) }
{
    kind_by(text_in("kind", value)?)
}

/// What the members of an object say.
#[tactic(auto, unfolding(crate::specs::Namings::naming_in))]
fn naming_in(value: &Value) -> Option<Naming>
    ensures value { result ≡ naming_in (view value.now) }
    ensures named { IfSome result (λ naming. IsName (names.Designation naming.object)) }
{
    let kind = kind_in(value)?;
    let object = designation_in("object", value)?;
    Some(Naming { kind, object })
}

/// Reads the body of `comet`: a JSON object of the members `kind`, the string `C` or `P`, and `object`, a designation
/// in its printed form.
///
/// # Errors
///
/// `Unread` where the body is anything else; `NoMemory` where memory was refused.
#[tactic(auto, unfolding(crate::specs::Namings::naming_of))]
pub fn read_naming(alloc: Global, body: &[u8]) -> Result<Naming, BodyFault>
    ensures read { IfOk result (λ naming. naming_of body.now ≡ Some naming) }
    ensures unread { result ≡ Err BodyFault.Unread → naming_of body.now ≡ None }
    ensures named { IfOk result (λ naming. IsName (names.Designation naming.object)) }
{
    let value = object_of(alloc, 2, body)?;
    match naming_in(&value) {
        Some(naming) => Ok(naming),
        None => Err(BodyFault::Unread),
    }
}
