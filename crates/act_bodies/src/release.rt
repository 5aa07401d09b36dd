//! The body of the act by which a tracklet is taken out of its object.

ghost use Rattle.std.specs.Prelude.{◌≡◌, Some, None, IfOk};
ghost use Rattle.serde_json.specs.View.{view};
ghost use Rattle.act_bodies.specs.Members.{whole_in};
ghost use Rattle.act_bodies.specs.Bodies.{release_in, release_of};

use crate::fault::BodyFault;
use crate::members::{object_of, whole_in};
use serde_json::Value;
use std::alloc::Global;

/// A tracklet that is to be taken out of its object.
#[derive(Clone, Copy, Debug, PartialEq, Eq)]
pub struct Release {
    /// The tracklet's number.
    pub tracklet: u64,
}

/// What the members of an object say.
#[tactic(auto, unfolding(crate::specs::Bodies::release_in))]
fn release_in(value: &Value) -> Option<Release>
    ensures { result ≡ release_in (view value.now) }
{
    let tracklet = whole_in("tracklet", value)?;
    Some(Release { tracklet })
}

/// Reads the body of `release`: a JSON object of the member `tracklet`, a whole number.
///
/// # Errors
///
/// `Unread` where the body is anything else; `NoMemory` where memory was refused.
#[tactic(auto, unfolding(crate::specs::Bodies::release_of))]
pub fn read_release(alloc: Global, body: &[u8]) -> Result<Release, BodyFault>
    ensures read { IfOk result (λ release. release_of body.now ≡ Some release) }
    ensures unread { result ≡ Err BodyFault.Unread → release_of body.now ≡ None }
{
    let value = object_of(alloc, 1, body)?;
    match release_in(&value) {
        Some(release) => Ok(release),
        None => Err(BodyFault::Unread),
    }
}
