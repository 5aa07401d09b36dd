//! The body of the act by which a half-month is taken over in which designations were given elsewhere.

ghost use Rattle.std.specs.Prelude.{◌≡◌, ◌≤◌, Some, None, IfOk, IfSome};
ghost use Rattle.std.specs.List.{list_all};
ghost use Rattle.serde_json.specs.View.{view};
ghost use Rattle.packed_names.specs.Ranges.{IsHalfMonth, limit_of};
ghost use Rattle.packed_names.specs.Judging.{is_within};
ghost use Rattle.act_bodies.specs.Members.{half_month_of, half_month_in, given_in, are_carried, carried_in};
ghost use Rattle.act_bodies.specs.Bodies.{opening_in, opening_of, IsOpening};

use crate::fault::BodyFault;
use crate::members::{bounded_in, object_of, text_in};
use crate::wholes::{Ids, are_different, wholes_in};
use packed_names::{HalfMonth, limit, read_half};
use serde_json::Value;
use std::alloc::Global;

/// A half-month that is taken over, and how many of its designations were given elsewhere.
#[derive(Debug, Drop)]
pub struct Opening {
    /// The half-month, of a year from 1925 to 2099.
    pub half: HalfMonth,
    /// How many of its designations were given, 1 to the half-month's limit.
    pub given: u32,
    /// The orders of those that the office carries on as objects of its own, at most 100, each from 1 to `given`, none
    /// of them twice.
    pub carried: Ids,
}

/// The half-month whose printed form the text is.
#[tactic(auto, unfolding(crate::specs::Members::half_month_of))]
fn half_month_of(text: &[u8]) -> Option<HalfMonth>
    ensures value { result ≡ half_month_of text.now }
    ensures half { IfSome result IsHalfMonth }
{
    read_half(text).ok()
}

/// The half-month of a member that is a string, the printed form of one.
#[tactic(auto, unfolding(crate::specs::Members::half_month_in))]
fn half_month_in(value: &Value) -> Option<HalfMonth>
    ensures value { result ≡ half_month_in (view value.now) }
    ensures half { IfSome result IsHalfMonth }
{
    half_month_of(text_in("half", value)?)
}

/// How many designations were given, from 1 to the half-month's limit.
fn given_in(half: HalfMonth, value: &Value) -> Option<u64>
    requires { IsHalfMonth half }
    ensures value { result ≡ given_in half (view value.now) }
    ensures bounds { IfSome result (λ given. (1 ≤ given) × (given ≤ limit_of half)) }
{
    bounded_in(1, u64::from(limit(half)), "given", value)
}

/// Whether each is an order from 1 to the last one given.
fn are_orders(given: u64, orders: &[u64]) -> bool
    ensures { result ≡ list_all (is_within 1 given) orders.now }
{
    orders.iter().all(|order| 1 <= *order && *order <= given)
}

/// Whether they are at most 100 different orders from 1 to the last one given.
fn are_carried(given: u64, orders: &[u64]) -> bool
    ensures { result ≡ are_carried given orders.now }
{
    orders.len() <= 100 && are_orders(given, orders) && are_different(orders)
}

/// The orders that a body carries.
#[tactic(auto, unfolding(crate::specs::Members::carried_in))]
fn carried_in(alloc: Global, given: u64, value: &Value) -> Result<Ids, BodyFault>
    ensures read { IfOk result (λ orders. carried_in given (view value.now) ≡ Some orders) }
    ensures unread { result ≡ Err BodyFault.Unread → carried_in given (view value.now) ≡ None }
{
    let orders = wholes_in(alloc, "carried", value)?;
    if are_carried(given, orders.as_slice()) {
        Ok(orders)
    } else {
        Err(BodyFault::Unread)
    }
}

/// What the members of an object say.
#[tactic(auto, unfolding(crate::specs::Bodies::opening_in))]
fn opening_in(alloc: Global, value: &Value) -> Result<Opening, BodyFault>
    ensures read { IfOk result (λ opening. opening_in (view value.now) ≡ Some opening) }
    ensures unread { result ≡ Err BodyFault.Unread → opening_in (view value.now) ≡ None }
{
    let Some(half) = half_month_in(value) else {
        return Err(BodyFault::Unread);
    };
    let Some(given) = given_in(half, value) else {
        return Err(BodyFault::Unread);
    };
    let carried = carried_in(alloc, given, value)?;
    Ok(Opening {
        half,
        given: given as u32,
        carried,
    })
}

/// Reads the body of `opening`: a JSON object of the members `half`, a half-month in its printed form, as `2024 E`;
/// `given`, a whole number from 1 to the half-month's limit; and `carried`, a list of at most 100 different whole
/// numbers from 1 to `given`.
///
/// # Errors
///
/// `Unread` where the body is anything else; `NoMemory` where memory was refused.
#[tactic(auto, unfolding(crate::specs::Bodies::opening_of))]
pub fn read_opening(alloc: Global, body: &[u8]) -> Result<Opening, BodyFault>
    ensures read { IfOk result (λ opening. opening_of body.now ≡ Some opening) }
    ensures unread { result ≡ Err BodyFault.Unread → opening_of body.now ≡ None }
    ensures ranges { IfOk result IsOpening }
{
    let value = object_of(alloc, 3, body)?;
    opening_in(alloc, &value)
}
