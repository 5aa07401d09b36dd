//! The body of the act by which tracklets get a designation as one object.

ghost use Rattle.std.specs.Prelude.{◌≡◌, ◌≤◌, length, Some, None, IfOk, IsTrue, nat_eq};
ghost use Rattle.std.specs.List.{IsDistinct};
ghost use Rattle.serde_json.specs.View.{view};
ghost use Rattle.act_bodies.specs.Members.{is_selection, tracklets_in};
ghost use Rattle.act_bodies.specs.Bodies.{designate_in, designate_of};

use crate::fault::BodyFault;
use crate::members::object_of;
use crate::wholes::{Ids, are_different, wholes_in};
use serde_json::Value;
use std::alloc::Global;

/// Tracklets that are to get a designation as one object.
#[derive(Debug, Drop)]
pub struct Designate {
    /// The numbers of the tracklets, 1 to 100, none of them twice.
    pub tracklets: Ids,
}

/// Whether they are 1 to 100 different numbers.
fn is_selection(numbers: &[u64]) -> bool
    ensures { result ≡ is_selection numbers.now }
{
    1 <= numbers.len() && numbers.len() <= 100 && are_different(numbers)
}

/// The tracklets that a body lists.
#[tactic(auto, unfolding(crate::specs::Members::tracklets_in))]
fn tracklets_in(alloc: Global, value: &Value) -> Result<Ids, BodyFault>
    ensures read { IfOk result (λ tracklets. tracklets_in (view value.now) ≡ Some tracklets) }
    ensures unread { result ≡ Err BodyFault.Unread → tracklets_in (view value.now) ≡ None }
    ensures selection { IfOk result (λ tracklets. IsTrue (is_selection tracklets)) }
{
    let tracklets = wholes_in(alloc, "tracklets", value)?;
    if is_selection(tracklets.as_slice()) {
        Ok(tracklets)
    } else {
        Err(BodyFault::Unread)
    }
}

/// Reads the body of `designate`: a JSON object of the member `tracklets`, a list of 1 to 100 different whole numbers.
///
/// # Errors
///
/// `Unread` where the body is anything else; `NoMemory` where memory was refused.
#[tactic(auto, unfolding(crate::specs::Bodies::designate_of, crate::specs::Bodies::designate_in))]
pub fn read_designate(alloc: Global, body: &[u8]) -> Result<Designate, BodyFault>
    ensures read { IfOk result (λ designate. designate_of body.now ≡ Some designate) }
    ensures unread { result ≡ Err BodyFault.Unread → designate_of body.now ≡ None }
    ensures some { IfOk result (λ designate. 1 ≤ length designate.tracklets) }
    ensures few { IfOk result (λ designate. length designate.tracklets ≤ 100) }
    ensures different { IfOk result (λ designate. IsDistinct nat_eq designate.tracklets) }
{
    let value = object_of(alloc, 1, body)?;
    let tracklets = tracklets_in(alloc, &value)?;
    Ok(Designate { tracklets })
}
