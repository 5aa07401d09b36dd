//! The head of a request frame, at the front of the bytes that have come so far.

ghost use Rattle.std.specs.Prelude.{◌≡◌, ◌+◌, ◌<◌, ◌≤◌, ◌^◌, ◌↔◌, ℕ, List, length, drop, IfOk};
ghost use Rattle.frame_grammar.specs.Frames.{HeadParts, IsHead, head_bytes, NoHead, BeginsHead, NeverFrame};
ghost use Rattle.frame_grammar.specs.Reading.{Reads, parts_of, IsHeadAt, IfWhole, IsWholeAnd};

use crate::parts::{Unread, key_at, number_at, verb_at};
use crate::{HEAD_BYTES, KEY_BYTES, LENGTH_DIGITS, NUMBER_DIGITS, VERB_BYTES};

/// The head of a request frame.
#[derive(Clone, Copy, Debug, PartialEq, Eq)]
pub struct Head<'a> {
    /// The key by which the caller is known: 1 to `KEY_BYTES` printable characters without a blank.
    pub key: &'a [u8],
    /// The request's number, of at most `NUMBER_DIGITS` digits.
    pub number: u64,
    /// What is asked: 1 to `VERB_BYTES` small letters and digits.
    pub verb: &'a [u8],
    /// How many bytes the body has, a number of at most `LENGTH_DIGITS` digits.
    pub length: u64,
    /// How many bytes the head has, with its line feed: at most `HEAD_BYTES`.
    pub size: usize,
}

/// What the front of the bytes that have come so far is.
#[derive(Clone, Copy, Debug, PartialEq, Eq)]
pub enum Front<'a> {
    /// They begin with this head.
    Whole(Head<'a>),
    /// They are the front of a head, and bytes that may follow complete it.
    Part,
    /// Whatever may follow, no frame stands at their front.
    Bad,
}

/// The head at the front, and the bytes after it.
fn head_at(bytes: &[u8]) -> Result<(Head<'_>, &[u8]), Unread>
    ensures reads { Reads IsHead head_bytes (λ x. (parts_of x.0, x.1.now)) bytes.now result }
    ensures size { IfOk result (λ x. x.0.size + length x.1.now ≡ length bytes.now) }
{
    let (key, rest) = key_at(bytes)?;
    let (number, rest) = number_at(NUMBER_DIGITS, b' ', rest)?;
    let (verb, rest) = verb_at(rest)?;
    let (length, rest) = number_at(LENGTH_DIGITS, b'\n', rest)?;
    let size = bytes.len() - rest.len();
    let head = Head {
        key,
        number,
        verb,
        length,
        size,
    };
    Ok((head, rest))
}

/// Looks for a head at the front of the bytes that have come so far.
///
/// The answer is `Whole` exactly where one stands there, `Bad` exactly where no frame can come there
/// any more, and else `Part`: then there are fewer than `HEAD_BYTES`. It looks at no more than the
/// first `HEAD_BYTES`, and the body after the head may be missing.
pub fn read_head(bytes: &[u8]) -> Front<'_>
    // The head that is answered stands at the front, with its fields and its size.
    ensures whole { IfWhole result (λ head. IsHeadAt bytes.now (parts_of head) head.size) }
    // A head that stands at the front is answered.
    ensures only { (h : HeadParts) (rest : List ℕ) →
        IsHead h → bytes.now ≡ head_bytes h rest →
        IsWholeAnd result (λ head. (parts_of head ≡ h) × (drop head.size bytes.now ≡ rest)) }
    // No head stands there yet, and bytes that may follow complete one.
    ensures part { (result ≡ Front.Part) ↔ (NoHead bytes.now × BeginsHead bytes.now) }
    // No frame can come there any more.
    ensures bad { (result ≡ Front.Bad) ↔ NeverFrame bytes.now }
    // The front of a head has fewer bytes than a head may have.
    ensures short { result ≡ Front.Part → length bytes.now < HEAD_BYTES }
    ensures size { IfWhole result (λ head. head.size ≤ HEAD_BYTES) }
    ensures key { IfWhole result (λ head.
        (0 < length head.key.now) × (length head.key.now ≤ KEY_BYTES)) }
    ensures number { IfWhole result (λ head. head.number < 10 ^ NUMBER_DIGITS) }
    ensures verb { IfWhole result (λ head.
        (0 < length head.verb.now) × (length head.verb.now ≤ VERB_BYTES)) }
    ensures length { IfWhole result (λ head. head.length < 10 ^ LENGTH_DIGITS) }
{
    match head_at(bytes) {
        Ok((head, _)) => Front::Whole(head),
        Err(Unread::Part) => Front::Part,
        Err(Unread::Bad) => Front::Bad,
    }
}
