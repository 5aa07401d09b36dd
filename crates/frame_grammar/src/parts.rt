//! The fields of a head, each up to the byte that ends it.

ghost use Rattle.std.specs.Prelude.{◌≡◌, ◌<◌, ◌≤◌, ◌^◌, ◌↔◌, length, IsTrue, decimal};
ghost use Rattle.frame_grammar.specs.Frames.{IsDigit, IsKey, IsVerb, IsToken};
ghost use Rattle.std.specs.List.{AllByRecursion};
ghost use Rattle.frame_grammar.specs.Reading.{IsOf, Reads, ReadsToken, stopped, numbered, number_from, HasZeroInFront};

use crate::{KEY_BYTES, VERB_BYTES};

/// Why a part of a head is not read.
#[derive(Clone, Copy, Debug, PartialEq, Eq)]
pub enum Unread {
    /// It has not come whole: bytes that may follow complete it.
    Part,
    /// Whatever may follow, no such part stands there.
    Bad,
}

/// The bytes that a field may have.
#[derive(Clone, Copy, Debug, PartialEq, Eq)]
pub enum Class {
    /// The printable characters of ASCII without the blank.
    Printable,
    /// The decimal digits.
    Digit,
    /// The small letters and the decimal digits.
    Verb,
}

/// Whether a byte is of a class.
fn is_of(class: Class, byte: u8) -> bool
    ensures { IsTrue result ↔ IsOf class byte }
{
    match class {
        Class::Printable => byte >= b'!' && byte <= b'~',
        Class::Digit => byte >= b'0' && byte <= b'9',
        Class::Verb => (byte >= b'0' && byte <= b'9') || (byte >= b'a' && byte <= b'z'),
    }
}

/// One to `most` bytes of a class before the byte that ends them, and the bytes after it.
fn token_at(class: Class, most: usize, stop: u8, bytes: &[u8]) -> Result<(&[u8], &[u8]), Unread>
    requires ends { stop < 33 }
    ensures { ReadsToken (IsOf class) most stop (λ x. (x.0.now, x.1.now)) bytes.now result }
{
    for (i, byte) in bytes.iter().enumerate() {
        if *byte == stop && i > 0 {
            let (text, rest) = bytes.split_at(i);
            return Ok((text, &rest[1..]));
        }
        if i == most || !is_of(class, *byte) {
            return Err(Unread::Bad);
        }
    }
    Err(Unread::Part)
}

/// The key at the front, before its blank, and the bytes after it.
///
/// # Errors
///
/// What the bytes are instead of a key and its blank.
pub fn key_at(bytes: &[u8]) -> Result<(&[u8], &[u8]), Unread>
    ensures { Reads IsKey (stopped 32) (λ x. (x.0.now, x.1.now)) bytes.now result }
{
    token_at(Class::Printable, KEY_BYTES, b' ', bytes)
}

/// The verb at the front, before its blank, and the bytes after it.
///
/// # Errors
///
/// What the bytes are instead of a verb and its blank.
pub fn verb_at(bytes: &[u8]) -> Result<(&[u8], &[u8]), Unread>
    ensures { Reads IsVerb (stopped 32) (λ x. (x.0.now, x.1.now)) bytes.now result }
{
    token_at(Class::Verb, VERB_BYTES, b' ', bytes)
}

/// The number that decimal digits write.
fn value_of(digits: &[u8]) -> u64
    requires few { length digits.now ≤ 19 }
    requires each { AllByRecursion IsDigit digits.now }
    ensures { result ≡ number_from 0 digits.now }
{
    let mut value = 0;
    for digit in digits {
        value = 10 * value + u64::from(*digit - b'0');
    }
    value
}

/// Whether a zero stands before another digit, or before anything but the byte that ends a number.
fn has_zero_in_front(stop: u8, bytes: &[u8]) -> bool
    ensures { IsTrue result ↔ HasZeroInFront stop bytes.now }
{
    match bytes {
        [b'0', second, ..] => *second != stop,
        _ => false,
    }
}

/// The number at the front, without leading zeros and of at most this many digits, before the byte
/// that ends it, and the bytes after it.
///
/// # Errors
///
/// What the bytes are instead of a number and the byte that ends it.
pub fn number_at(digits: usize, stop: u8, bytes: &[u8]) -> Result<(u64, &[u8]), Unread>
    requires some { 0 < digits }
    requires few { digits ≤ 19 }
    requires ends { stop < 33 }
    ensures { Reads (λ n. n < 10 ^ digits) (numbered stop) (λ x. (x.0, x.1.now)) bytes.now result }
{
    if has_zero_in_front(stop, bytes) {
        return Err(Unread::Bad);
    }
    let (text, rest) = token_at(Class::Digit, digits, stop, bytes)?;
    Ok((value_of(text), rest))
}
