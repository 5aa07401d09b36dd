//! What is heard of a request before the register is asked.

ghost use Rattle.std.specs.Prelude.{◌≡◌, ◌≤◌, false, length, Ok, Err, IfOk, IfErr, IfNone};
ghost use Rattle.act_model.specs.declared.request.TheConstants.{BODY_BYTES};
ghost use Rattle.act_model.specs.Rows.{first_row};
ghost use Rattle.comet_model.specs.Hearing.{size_rows, bytes_in, is_number_of, number_claimed, hear};
ghost use Rattle.comet_model.specs.Requests.{is_act};
ghost use Rattle.comet_model.specs.Rows.{IsDue};
ghost use Rattle.comet_model.specs.Hearing.{naming_by, asked_of, if_empty, IsAskedInRange};

use crate::naming::{Naming, read_naming};
use crate::reply::CometRefusal;
use crate::request::{CometRequest, CometVerb};
use act_bodies::BodyFault;
use act_model::{BODY_BYTES, BODY_LINES, Body, Excess, Key, Part, line_feeds};
use std::alloc::Global;

/// What a request asks, where its body is one that its verb has.
#[derive(Clone, Copy, Debug, PartialEq, Eq)]
pub enum CometAsked {
    /// To give this object the name of a comet.
    Names(Naming),
    /// To tell all comets.
    Register,
    /// To translate the lines of the body.
    Translate,
}

/// A request as it was heard: its number, and what it asks. Whoever asks is the founding officer. What comes later in
/// the step takes it from here.
#[derive(Clone, Copy, Debug, PartialEq, Eq)]
pub struct CometHeard {
    /// The number, one that the verb may have.
    pub number: u64,
    /// What is asked.
    pub asked: CometAsked,
}

/// The refusal of a body that is too large.
fn size_refusal(bytes: &[u8]) -> Option<CometRefusal>
    ensures row { result ≡ first_row (size_rows bytes.now) }
    ensures short { IfNone result (length bytes.now ≤ BODY_BYTES) }
{
    let size = bytes.len() as u64;
    if size > BODY_BYTES {
        return Some(CometRefusal::TooLarge(Excess::Length(size)));
    }
    let lines = line_feeds(bytes);
    if lines > BODY_LINES {
        return Some(CometRefusal::TooLarge(Excess::Lines(lines)));
    }
    None
}

/// The bytes of a body that is small enough. It takes no memory.
///
/// # Errors
///
/// `TooLarge` for a body that was too long, or has too many lines, and `NoMemory` for one that there was no memory for.
pub fn bytes_in(body: &Body) -> Result<&[u8], CometRefusal>
    ensures bytes { IfOk result (λ bytes. bytes_in body.now ≡ Ok bytes.now) }
    ensures short { IfOk result (λ bytes. length bytes.now ≤ BODY_BYTES) }
    ensures refused { IfErr result (λ refusal. bytes_in body.now ≡ Err refusal) }
{
    match body {
        Body::Whole(bytes) => match size_refusal(bytes.as_slice()) {
            Some(refusal) => Err(refusal),
            None => Ok(bytes.as_slice()),
        },
        Body::TooLong(size) => Err(CometRefusal::TooLarge(Excess::Length(*size))),
        Body::NoRoom => Err(CometRefusal::NoMemory),
    }
}

/// Whether the number is one that a request of this verb may have.
fn is_number_of(verb: CometVerb, number: u64) -> bool
    ensures { result ≡ is_number_of verb number }
{
    if verb.is_act() {
        0 < number && number < 1_000_000_000_000_000_000
    } else {
        number == 0
    }
}

/// What a request says of itself before its body is read: its number, where its verb names something. It takes no
/// memory.
///
/// # Errors
///
/// `Unread` for a verb that names nothing, and then for a number that a request of the verb can't have.
pub fn claimed(verb: CometVerb, number: Option<u64>) -> Result<u64, CometRefusal>
    ensures { result ≡ number_claimed verb number }
{
    if verb.is_unknown() {
        return Err(CometRefusal::Unread(Part::Verb));
    }
    match number {
        Some(number) if is_number_of(verb, number) => Ok(number),
        _ => Err(CometRefusal::Unread(Part::Number)),
    }
}

/// What the body of an act asks.
#[tactic(auto, unfolding(crate::specs::Hearing::asked_of))]
fn read_act_asked(alloc: Global, body: &[u8]) -> Result<CometAsked, CometRefusal>
    ensures due { IsDue (asked_of CometVerb.Comet body.now) result }
    ensures range { IfOk result IsAskedInRange }
{
    match read_naming(alloc, body) {
        Ok(naming) => Ok(CometAsked::Names(naming)),
        Err(BodyFault::Unread) => Err(CometRefusal::Unread(Part::Body)),
        Err(BodyFault::NoMemory) => Err(CometRefusal::NoMemory),
    }
}

/// What a verb and a body ask: `comet` has a body as [`read_naming`] reads it, that of `register` is empty, and that of
/// `translate` may be any.
///
/// # Errors
///
/// `Unread` for the verb where it names nothing, and for the body where it isn't as the verb wants it; `NoMemory` where
/// memory was refused.
#[tactic(auto, unfolding(crate::specs::Hearing::asked_of))]
pub fn read_comet_asked(
    alloc: Global,
    verb: CometVerb,
    body: &[u8],
) -> Result<CometAsked, CometRefusal>
    ensures due { IsDue (asked_of verb body.now) result }
    ensures query { is_act verb ≡ false → result ≡ asked_of verb body.now }
    ensures range { IfOk result IsAskedInRange }
{
    match verb {
        CometVerb::Comet => read_act_asked(alloc, body),
        CometVerb::Register if body.is_empty() => Ok(CometAsked::Register),
        CometVerb::Register => Err(CometRefusal::Unread(Part::Body)),
        CometVerb::Translate => Ok(CometAsked::Translate),
        CometVerb::Unknown => Err(CometRefusal::Unread(Part::Verb)),
    }
}

/// What is heard of a request with these bytes: its number, and what it asks. For a query it takes no memory.
///
/// # Errors
///
/// `Unread` for the verb, the number and the body, in this order, and `UnknownKey` for a key that isn't the founding
/// officer's; `NoMemory` where memory was refused.
#[tactic(auto, unfolding(crate::specs::Hearing::hear))]
pub fn hear(
    alloc: Global,
    founder: &Key,
    request: &CometRequest,
    bytes: &[u8],
) -> Result<CometHeard, CometRefusal>
    ensures due { IsDue (hear founder.now request.now bytes.now) result }
    // Memory is asked for after what the request says of itself.
    ensures claimed { IfErr (number_claimed request.now.verb request.now.number) (λ refusal. result ≡ Err refusal) }
    ensures query { is_act request.now.verb ≡ false → result ≡ hear founder.now request.now bytes.now }
    ensures range { IfOk result (λ heard. IsAskedInRange heard.asked) }
{
    let number = match claimed(request.verb, request.number) {
        Ok(number) => number,
        Err(refusal) => return Err(refusal),
    };
    let asked = match read_comet_asked(alloc, request.verb, bytes) {
        Ok(asked) => asked,
        Err(refusal) => return Err(refusal),
    };
    if request.key.is(founder) {
        Ok(CometHeard { number, asked })
    } else {
        Err(CometRefusal::UnknownKey)
    }
}
