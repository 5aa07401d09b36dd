//! What a method asks of a target.
//!
//! A target is compared byte for byte: percent signs and a query after `?` are bytes like others. One that is text is
//! asked of the router. One that isn't, or has no route, is read over its bytes: it may have a number all the same.

ghost use Rattle.std.specs.Prelude.{◌≡◌, Some, codes, bytes_eq, if◌then◌else◌, option_map};
ghost use Rattle.desk_http.specs.Heads.{cut_at, number_in, act_parts, nothing_asked, act_asked, query_asked, asked_of};

use crate::NUMBER_DIGITS;
use crate::routes::{Routed, Routes};
use act_model::{Verb, read_verb};
use ascii_text::reading::number_at;
use std::str::from_utf8;

/// What a request asks, and under which number of the asker's.
#[derive(Clone, Copy, Debug, PartialEq, Eq)]
pub struct Asked {
    /// The number, 0 for a query. None for a text that spells none.
    pub number: Option<u64>,
    /// The verb. It is that of an act exactly where the target is one of an act.
    pub verb: Verb,
}

// What no route leads to.
const NOTHING: Asked = Asked {
    number: Some(0),
    verb: Verb::Unknown,
};

// The text in front of the first such byte, and the text after it.
#[tactic(auto, unfolding(crate::specs::Heads::cut_at))]
fn cut_at(byte: u8, text: &[u8]) -> Option<(&[u8], &[u8])>
    ensures { option_map (λ parts. (parts.0.now, parts.1.now)) result ≡ cut_at byte text.now }
{
    let at = text.iter().position(|other| *other == byte)?;
    let (front, rest) = text.split_at(at);
    Some((front, &rest[1..]))
}

// A whole text that is `0`, or 1 to 18 digits without a leading zero.
fn number_in(text: &[u8]) -> Option<u64>
    ensures { result ≡ number_in text.now }
{
    match number_at(NUMBER_DIGITS, text) {
        Some((number, [])) => Some(number),
        _ => None,
    }
}

// An act by its number and its verb.
fn act_of(method: &[u8], number: &[u8], word: &[u8]) -> Asked
    ensures { result ≡ (if bytes_eq method.now (codes "POST") then act_parts (Some (number.now, word.now))
        else nothing_asked) }
{
    if method != b"POST".as_slice() || number.is_empty() {
        return NOTHING;
    }
    let verb = read_verb(word);
    Asked {
        number: number_in(number),
        verb: if verb.is_act() { verb } else { Verb::Unknown },
    }
}

// `{number}/{verb}`, after `/v1/act/`.
#[tactic(auto, unfolding(crate::specs::Heads::act_asked))]
fn act_asked(method: &[u8], text: &[u8]) -> Asked
    ensures { result ≡ act_asked method.now text.now }
{
    match cut_at(b'/', text) {
        Some((number, word)) => act_of(method, number, word),
        None => NOTHING,
    }
}

// `{verb}`, after `/v1/ask/`.
#[tactic(auto, unfolding(crate::specs::Heads::query_asked))]
fn query_asked(method: &[u8], text: Option<&[u8]>) -> Asked
    ensures { result ≡ query_asked method.now (option_map (λ word. word.now) text.entry) }
{
    let Some(word) = text else {
        return NOTHING;
    };
    if method != b"GET".as_slice() && method != b"POST".as_slice() {
        return NOTHING;
    }
    let verb = read_verb(word);
    Asked {
        number: Some(0),
        verb: if verb.is_act() { Verb::Unknown } else { verb },
    }
}

// What a method asks of a target, over its bytes.
#[tactic(auto, unfolding(crate::specs::Heads::asked_of))]
fn asked_by_bytes(method: &[u8], target: &[u8]) -> Asked
    ensures { result ≡ asked_of method.now target.now }
{
    match target.strip_prefix(b"/v1/act/".as_slice()) {
        Some(text) => act_asked(method, text),
        None => query_asked(method, target.strip_prefix(b"/v1/ask/".as_slice())),
    }
}

/// What a method asks of a target: an act by POST `/v1/act/{number}/{verb}`, a query by GET or POST
/// `/v1/ask/{verb}`. Another method or target, a verb of an act after `ask` and one of a query after
/// `act` name nothing: the verb is then unknown.
pub fn asked_of(routes: &Routes, method: &[u8], target: &[u8]) -> Asked
    ensures { result ≡ asked_of method.now target.now }
{
    let Ok(path) = from_utf8(target) else {
        return asked_by_bytes(method, target);
    };
    match routes.find(path) {
        Routed::Act(number, verb) => act_of(method, number.as_bytes(), verb.as_bytes()),
        Routed::Query(verb) => query_asked(method, Some(verb.as_bytes())),
        Routed::Nothing => asked_by_bytes(method, target),
    }
}
