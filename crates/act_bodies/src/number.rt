//! The body of the act by which objects are numbered.

ghost use Rattle.std.specs.Prelude.{◌≡◌, ◌≤◌, Some, None, IfOk, IfSome};
ghost use Rattle.serde_json.specs.View.{view};
ghost use Rattle.packed_names.specs.declared.number.TheConstants.{GREATEST_NUMBER};
ghost use Rattle.act_bodies.specs.Members.{bounded_in};
ghost use Rattle.act_bodies.specs.Bodies.{number_in, number_of_body};

use crate::fault::BodyFault;
use crate::members::{bounded_in, object_of};
use packed_names::GREATEST_NUMBER;
use serde_json::Value;
use std::alloc::Global;

/// Numbers that are to be given to objects.
#[derive(Clone, Copy, Debug, PartialEq, Eq)]
pub struct Number {
    /// The first number to be given, 1 to 15,396,335.
    pub first: u32,
    /// How many numbers are to be given at most, 1 to 1,000.
    pub most: u32,
}

/// What the members of an object say.
#[tactic(auto, unfolding(crate::specs::Bodies::number_in))]
fn number_in(value: &Value) -> Option<Number>
    ensures value { result ≡ number_in (view value.now) }
    ensures first { IfSome result (λ number. (1 ≤ number.first) × (number.first ≤ GREATEST_NUMBER)) }
    ensures most { IfSome result (λ number. (1 ≤ number.most) × (number.most ≤ 1000)) }
{
    let first = bounded_in(1, u64::from(GREATEST_NUMBER), "first", value)?;
    let most = bounded_in(1, 1000, "most", value)?;
    Some(Number {
        first: first as u32,
        most: most as u32,
    })
}

/// Reads the body of `number`: a JSON object of the members `first`, a whole number from 1 to 15,396,335, and `most`, a
/// whole number from 1 to 1,000.
///
/// # Errors
///
/// `Unread` where the body is anything else; `NoMemory` where memory was refused.
#[tactic(auto, unfolding(crate::specs::Bodies::number_of_body))]
pub fn read_number(alloc: Global, body: &[u8]) -> Result<Number, BodyFault>
    ensures read { IfOk result (λ number. number_of_body body.now ≡ Some number) }
    ensures unread { result ≡ Err BodyFault.Unread → number_of_body body.now ≡ None }
    ensures first { IfOk result (λ number. (1 ≤ number.first) × (number.first ≤ GREATEST_NUMBER)) }
    ensures most { IfOk result (λ number. (1 ≤ number.most) × (number.most ≤ 1000)) }
{
    let value = object_of(alloc, 2, body)?;
    match number_in(&value) {
        Some(number) => Ok(number),
        None => Err(BodyFault::Unread),
    }
}
