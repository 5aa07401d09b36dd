//! The questions to a request that come before the history is asked.

ghost use Rattle.std.specs.Prelude.{◌≡◌, ◌≤◌, length, reverse, false, Ok, Err, IfOk, IfErr, IfNone};
ghost use Rattle.act_model.specs.declared.request.TheConstants.{BODY_BYTES};
ghost use Rattle.act_model.specs.Rows.{first_row, IsDue};
ghost use Rattle.act_model.specs.Acts.{IsReadAsked};
ghost use Rattle.act_model.specs.Hearing.{size_rows, bytes_in, is_number_of, number_in, asked_of};
ghost use Rattle.act_model.specs.Queries.{IsReadQuery};
ghost use Rattle.act_model.specs.Requests.{is_act};
ghost use Rattle.desk_core.specs.Claims.{claim_of, heard_by, query_heard};

use crate::letting_go::let_go_asked;
use crate::roster::Roster;
use act_model::{
    BODY_BYTES, BODY_LINES, Body, Caller, Excess, Heard, Key, Part, Query, Refusal, Verb,
    line_feeds, read_asked, read_query,
};
use std::alloc::Global;

/// The refusal of a body that is too large.
pub fn size_refusal(bytes: &[u8]) -> Option<Refusal>
    ensures row { result ≡ first_row (size_rows bytes.now) }
    ensures short { IfNone result (length bytes.now ≤ BODY_BYTES) }
{
    let size = bytes.len() as u64;
    if size > BODY_BYTES {
        return Some(Refusal::TooLarge(Excess::Length(size)));
    }
    let lines = line_feeds(bytes);
    if lines > BODY_LINES {
        return Some(Refusal::TooLarge(Excess::Lines(lines)));
    }
    None
}

/// The bytes of a body that is small enough.
///
/// # Errors
///
/// `TooLarge` for a body that was too long, and `NoMemory` for one that there was no memory for.
pub fn bytes_in(body: &Body) -> Result<&[u8], Refusal>
    ensures bytes { IfOk result (λ bytes. bytes_in body.now ≡ Ok bytes.now) }
    ensures short { IfOk result (λ bytes. length bytes.now ≤ BODY_BYTES) }
    ensures refused { IfErr result (λ refusal. bytes_in body.now ≡ Err refusal) }
{
    match body {
        Body::Whole(bytes) => match size_refusal(bytes.as_slice()) {
            Some(refusal) => Err(refusal),
            None => Ok(bytes.as_slice()),
        },
        Body::TooLong(size) => Err(Refusal::TooLarge(Excess::Length(*size))),
        Body::NoRoom => Err(Refusal::NoMemory),
    }
}

/// Whether the number is one that a request of this verb may have.
pub fn is_number_of(verb: Verb, number: u64) -> bool
    ensures { result ≡ is_number_of verb number }
{
    if verb.is_act() {
        0 < number && number < 1_000_000_000_000_000_000
    } else {
        number == 0
    }
}

/// The number of a request of this verb.
fn number_in(verb: Verb, number: Option<u64>) -> Result<u64, Refusal>
    ensures { result ≡ number_in verb number }
{
    match number {
        None => Err(Refusal::Unread(Part::Number)),
        Some(number) => {
            if is_number_of(verb, number) {
                Ok(number)
            } else {
                Err(Refusal::Unread(Part::Number))
            }
        }
    }
}

/// What a request says of itself before its body is read.
#[derive(Clone, Copy, Debug)]
pub struct Claim {
    /// Its number, which is one that a request of its verb may have.
    pub number: u64,
    /// Who has its key. None where nobody has.
    pub caller: Option<Caller>,
}

/// What a request with this verb, number and key says of itself. No memory is taken for it.
///
/// # Errors
///
/// `Unread` for a verb that names nothing, and for a number that a request of this verb can't have.
pub fn claim_of(
    founder: &Key,
    roster: &Roster,
    verb: Verb,
    number: Option<u64>,
    key: &Key,
) -> Result<Claim, Refusal>
    ensures { result ≡ claim_of founder.now (reverse roster.now.items) verb number key.now }
{
    if verb.is_unknown() {
        return Err(Refusal::Unread(Part::Verb));
    }
    match number_in(verb, number) {
        Ok(number) => Ok(Claim {
            number,
            caller: roster.caller_of(founder, key),
        }),
        Err(refusal) => Err(refusal),
    }
}

/// What is heard of a request with this verb and these bytes, which said so much of itself: its verb, its number, what
/// it asks, and who asks. The body of an act is read here, and nowhere else.
///
/// # Errors
///
/// The first refusal that the request meets before its act is worked out.
pub fn hear(alloc: Global, claim: Claim, verb: Verb, bytes: &[u8]) -> Result<Heard, Refusal>
    requires short { length bytes.now ≤ BODY_BYTES }
    ensures due { IsDue (heard_by claim verb bytes.now) result }
    ensures verb { IfOk result (λ heard. heard.verb ≡ verb) }
    ensures asked { IfOk result (λ heard. asked_of heard.verb bytes.now ≡ Ok heard.asked) }
    ensures read { IfOk result (λ heard. IsReadAsked heard.asked) }
{
    let asked = match read_asked(alloc, verb, bytes) {
        Ok(asked) => asked,
        Err(refusal) => return Err(refusal),
    };
    let Some(caller) = claim.caller else {
        let_go_asked(asked);
        return Err(Refusal::UnknownKey);
    };
    Ok(Heard {
        verb,
        number: claim.number,
        asked,
        caller,
    })
}

/// What a query with this verb and these bytes asks, and who asks. No memory is taken for it.
///
/// # Errors
///
/// The first refusal that the query meets before the history is asked.
pub fn hear_query(claim: Claim, verb: Verb, bytes: &[u8]) -> Result<(Caller, Query), Refusal>
    requires query { is_act verb ≡ false }
    ensures ok { IfOk result (λ asks. heard_by claim verb bytes.now ≡ Ok (query_heard claim verb asks)) }
    ensures refused { IfErr result (λ refusal. heard_by claim verb bytes.now ≡ Err refusal) }
    ensures read { IfOk result (λ asks. IsReadQuery asks.1) }
{
    let Some(query) = read_query(verb, bytes) else {
        return Err(Refusal::Unread(Part::Body));
    };
    let Some(caller) = claim.caller else {
        return Err(Refusal::UnknownKey);
    };
    Ok((caller, query))
}
