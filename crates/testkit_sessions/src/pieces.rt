//! What the bytes of a session and the replies to it are put together from.

use item_list::NoMemory;
use std::alloc::Global;

/// A text after other bytes.
///
/// # Errors
///
/// Memory was refused.
pub fn put(bytes: &mut Vec<u8>, text: &str) -> Result<(), NoMemory> {
    bytes.extend_from_slice(text.as_bytes())
}

/// A number after other bytes.
///
/// # Errors
///
/// Memory was refused.
pub fn put_number(alloc: Global, bytes: &mut Vec<u8>, number: u64) -> Result<(), NoMemory> {
    let text = format!(in alloc; "{number}")?;
    put(bytes, text.as_str())
}

/// What a text is put together from.
#[derive(Clone, Copy, Drop)]
pub enum Part<'a> {
    /// A text as it is.
    Text(&'a str),
    /// A number.
    Number(u64),
    /// A number with zeros before it, so that it has so many digits.
    Digits(u64, usize),
}

/// These parts, one after the other, after other bytes.
///
/// # Errors
///
/// Memory was refused.
pub fn put_parts(alloc: Global, bytes: &mut Vec<u8>, parts: &[Part<'_>]) -> Result<(), NoMemory> {
    for part in parts {
        match *part {
            Part::Text(text) => put(bytes, text)?,
            Part::Number(number) => put_number(alloc, bytes, number)?,
            Part::Digits(number, digits) => put_digits(alloc, bytes, number, digits)?,
        }
    }
    Ok(())
}

/// The same, after no other bytes.
///
/// # Errors
///
/// Memory was refused.
pub fn text_of(alloc: Global, parts: &[Part<'_>]) -> Result<Vec<u8>, NoMemory> {
    let mut bytes = Vec::new(alloc);
    put_parts(alloc, &mut bytes, parts)?;
    Ok(bytes)
}

fn put_digits(
    alloc: Global,
    bytes: &mut Vec<u8>,
    number: u64,
    digits: usize,
) -> Result<(), NoMemory> {
    let text = format!(in alloc; "{number}")?;
    for _ in text.len()..digits {
        put(bytes, "0")?;
    }
    put(bytes, text.as_str())
}

/// So many lines, of numbers that go up by one from the first: `before`, the number and `behind`.
///
/// # Errors
///
/// Memory was refused.
pub fn put_lines(
    alloc: Global,
    bytes: &mut Vec<u8>,
    lines: u64,
    first: u64,
    before: &str,
    behind: &str,
) -> Result<(), NoMemory> {
    for line in 0..lines {
        put(bytes, before)?;
        put_number(alloc, bytes, first.saturating_add(line))?;
        put(bytes, behind)?;
    }
    Ok(())
}

/// So many answers to lines, which are taken as the observations of the first tracklet of an office, from the first on.
///
/// # Errors
///
/// Memory was refused.
pub fn put_taken(alloc: Global, bytes: &mut Vec<u8>, lines: u64) -> Result<(), NoMemory> {
    for line in 0..lines {
        put(bytes, "line ")?;
        put_number(alloc, bytes, line.saturating_add(1))?;
        put(bytes, " obs ")?;
        put_number(alloc, bytes, line.saturating_add(1))?;
        put(bytes, " track 1\n")?;
    }
    Ok(())
}

/// A reply with this status and text after other replies.
///
/// # Errors
///
/// Memory was refused.
pub fn put_reply(
    alloc: Global,
    bytes: &mut Vec<u8>,
    status: &str,
    text: &[u8],
) -> Result<(), NoMemory> {
    put(bytes, status)?;
    put_number(alloc, bytes, text.len() as u64)?;
    put(bytes, "\n")?;
    bytes.extend_from_slice(text)
}
