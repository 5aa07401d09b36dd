//! The members of a body, and what they say.

ghost use Rattle.std.specs.Prelude.{◌≡◌, ◌≤◌, ◌||◌, ◌==◌, Some, None, IfOk, IfSome, option_map};
ghost use Rattle.serde_json.specs.View.{view};
ghost use Rattle.packed_names.specs.declared.name.Name.TheVariants as names;
ghost use Rattle.packed_names.specs.Ranges.{IsName};
ghost use Rattle.act_bodies.specs.Members.{value_of, has_members, object_of, text_in, whole_in, bounded_in};
ghost use Rattle.act_bodies.specs.Members.{designation_of, designation_in, is_alphanumeric, is_name, name_in};

use crate::fault::BodyFault;
use ascii_text::characters::are_printable;
use packed_names::{Designation, Name, read};
use serde_json::Value;
use std::alloc::Global;

/// The JSON value of a body.
#[tactic(auto, unfolding(crate::specs::Members::value_of))]
fn value_of(alloc: Global, body: &[u8]) -> Result<Value, BodyFault>
    ensures read { IfOk result (λ value. value_of body.now ≡ Some (view value)) }
    ensures unread { result ≡ Err BodyFault.Unread → value_of body.now ≡ None }
{
    match Value::from_slice(alloc, body) {
        Ok(value) => Ok(value),
        Err(fault) if fault.is_memory() => Err(BodyFault::NoMemory),
        Err(_) => Err(BodyFault::Unread),
    }
}

/// Whether the value is an object of this many members.
fn has_members(count: usize, value: &Value) -> bool
    ensures { result ≡ has_members count (view value.now) }
{
    match value.as_object() {
        Some(members) => members.len() == count,
        None => false,
    }
}

/// The object of this many members that a body is.
#[tactic(auto, unfolding(crate::specs::Members::object_of))]
pub fn object_of(alloc: Global, count: usize, body: &[u8]) -> Result<Value, BodyFault>
    ensures read { IfOk result (λ value. object_of count body.now ≡ Some (view value)) }
    ensures unread { result ≡ Err BodyFault.Unread → object_of count body.now ≡ None }
{
    let value = value_of(alloc, body)?;
    if has_members(count, &value) {
        Ok(value)
    } else {
        Err(BodyFault::Unread)
    }
}

/// The text of a member that is a string.
pub fn text_in<'v>(name: &str, value: &'v Value) -> Option<&'v [u8]>
    ensures { option_map (λ text. text.now) result ≡ text_in name.now (view value.now) }
{
    match value.get(name).and_then(Value::as_str) {
        Some(text) => Some(text.as_bytes()),
        None => None,
    }
}

/// The whole number of a member that is one.
pub(crate) fn whole_in(name: &str, value: &Value) -> Option<u64>
    ensures { result ≡ whole_in name.now (view value.now) }
{
    value.get(name).and_then(Value::as_u64)
}

/// The whole number of a member that is one, from the least to the greatest that it may be.
#[tactic(auto, unfolding(crate::specs::Members::bounded_in))]
pub(crate) fn bounded_in(least: u64, greatest: u64, name: &str, value: &Value) -> Option<u64>
    ensures value { result ≡ bounded_in least greatest name.now (view value.now) }
    ensures bounds { IfSome result (λ whole. (least ≤ whole) × (whole ≤ greatest)) }
{
    let whole = whole_in(name, value)?;
    if least <= whole && whole <= greatest {
        Some(whole)
    } else {
        None
    }
}

/// The designation whose printed form the text is.
#[tactic(auto, unfolding(crate::specs::Members::designation_of))]
fn designation_of(text: &[u8]) -> Option<Designation>
    ensures value { result ≡ designation_of text.now }
    ensures named { IfSome result (λ designation. IsName (names.Designation designation)) }
{
    match read(text) {
        Ok(Name::Designation(designation)) => Some(designation),
        _ => None,
    }
}

/// The designation of a member that is a string, the printed form of one.
#[tactic(auto, unfolding(crate::specs::Members::designation_in))]
pub fn designation_in(name: &str, value: &Value) -> Option<Designation>
    ensures value { result ≡ designation_in name.now (view value.now) }
    ensures named { IfSome result (λ designation. IsName (names.Designation designation)) }
{
    designation_of(text_in(name, value)?)
}

/// Whether the byte is a letter or a digit.
pub(crate) fn is_alphanumeric(byte: u8) -> bool
    ensures { result ≡ is_alphanumeric byte }
{
    matches!(byte, b'0'..=b'9' | b'A'..=b'Z' | b'a'..=b'z')
}

/// Whether the text is a name.
fn is_name(text: &[u8]) -> bool
    ensures { result ≡ is_name text.now }
{
    1 <= text.len() && text.len() <= 100 && are_printable(text)
}

/// The name that a body gives.
#[tactic(auto, unfolding(crate::specs::Members::name_in))]
pub(crate) fn name_in(value: &Value) -> Option<&[u8]>
    ensures { option_map (λ text. text.now) result ≡ name_in (view value.now) }
{
    let text = text_in("name", value)?;
    if is_name(text) { Some(text) } else { None }
}
