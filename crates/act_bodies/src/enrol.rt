//! The body of the act by which an officer enrols a caller.

ghost use Rattle.std.specs.Prelude.{◌≡◌, ◌||◌, ◌==◌, false, Some, None, IfOk, IsTrue};
ghost use Rattle.std.specs.List.{list_all};
ghost use Rattle.serde_json.specs.View.{view};
ghost use Rattle.act_bodies.specs.Keys.{key_text, begins_with_plus};
ghost use Rattle.act_bodies.specs.Members.{is_alphanumeric, is_key, key_in, rank_of, role_in};
ghost use Rattle.act_bodies.specs.Bodies.{enrol_in, enrol_of};

use crate::fault::BodyFault;
use crate::key::Key;
use crate::members::{is_alphanumeric, name_in, object_of, text_in};
use item_list::Bytes;
use serde_json::Value;
use std::alloc::Global;

/// What a caller may do.
#[derive(Clone, Copy, Debug, PartialEq, Eq)]
pub enum Rank {
    /// Sends observations.
    Observer,
    /// Sends observations, and acts for the office.
    Officer,
}

/// A caller who is to be enrolled.
#[derive(Debug, Drop)]
pub struct Enrol {
    /// The key by which the caller will be known, a text of 8 to 32 letters, digits and dashes.
    pub key: Key,
    /// The caller's name, 1 to 100 printable characters.
    pub name: Bytes,
    /// What the caller may do.
    pub role: Rank,
}

/// Whether each byte is a letter, a digit or a dash.
fn are_key_bytes(text: &[u8]) -> bool
    ensures { result ≡ list_all (λ byte. is_alphanumeric byte || (byte == 45)) text.now }
{
    text.iter()
        .all(|byte| is_alphanumeric(*byte) || *byte == b'-')
}

/// Whether the text is that of a key on the roster.
fn is_key(text: &[u8]) -> bool
    ensures { result ≡ is_key text.now }
{
    8 <= text.len() && text.len() <= 32 && are_key_bytes(text)
}

/// The key that a body names.
#[tactic(auto, unfolding(crate::specs::Members::key_in))]
fn key_in(value: &Value) -> Option<Key>
    ensures { result ≡ key_in (view value.now) }
{
    let text = text_in("key", value)?;
    if is_key(text) {
        Some(Key::new(text))
    } else {
        None
    }
}

/// The rank that a word names.
#[tactic(auto, unfolding(crate::specs::Members::rank_of))]
fn rank_of(word: &[u8]) -> Option<Rank>
    ensures { result ≡ rank_of word.now }
{
    if word == b"observer".as_slice() {
        Some(Rank::Observer)
    } else if word == b"officer".as_slice() {
        Some(Rank::Officer)
    } else {
        None
    }
}

/// The rank in which a body enrols.
#[tactic(auto, unfolding(crate::specs::Members::role_in))]
fn role_in(value: &Value) -> Option<Rank>
    ensures { result ≡ role_in (view value.now) }
{
    rank_of(text_in("role", value)?)
}

/// What the members of an object say.
#[tactic(auto, unfolding(crate::specs::Bodies::enrol_in))]
fn enrol_in(alloc: Global, value: &Value) -> Result<Enrol, BodyFault>
    ensures read { IfOk result (λ enrol. enrol_in (view value.now) ≡ Some enrol) }
    ensures unread { result ≡ Err BodyFault.Unread → enrol_in (view value.now) ≡ None }
{
    let Some(key) = key_in(value) else {
        return Err(BodyFault::Unread);
    };
    let Some(name) = name_in(value) else {
        return Err(BodyFault::Unread);
    };
    let Some(role) = role_in(value) else {
        return Err(BodyFault::Unread);
    };
    match Bytes::from_slice(alloc, name) {
        Ok(name) => Ok(Enrol { key, name, role }),
        Err(_) => Err(BodyFault::NoMemory),
    }
}

/// Reads the body of `enrol`: a JSON object of the members `key`, a string of 8 to 32 of A to Z, a to z, 0 to 9 and
/// `-`; `name`, a string of 1 to 100 printable characters (bytes 32 to 126); and `role`, `observer` or `officer`.
///
/// # Errors
///
/// `Unread` where the body is anything else; `NoMemory` where memory was refused.
#[tactic(auto, unfolding(crate::specs::Bodies::enrol_of))]
pub fn read_enrol(alloc: Global, body: &[u8]) -> Result<Enrol, BodyFault>
    ensures read { IfOk result (λ enrol. enrol_of body.now ≡ Some enrol) }
    ensures unread { result ≡ Err BodyFault.Unread → enrol_of body.now ≡ None }
    ensures key { IfOk result (λ enrol. IsTrue (is_key (key_text enrol.key))) }
    // So it is never the key of the founding officer, which begins with a plus.
    ensures plain { IfOk result (λ enrol. begins_with_plus (key_text enrol.key) ≡ false) }
{
    let value = object_of(alloc, 3, body)?;
    enrol_in(alloc, &value)
}
