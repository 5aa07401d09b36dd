//! The entries of the history.

use crate::request::Verb;
use item_list::Bytes;
use obs_time::Instant;

/// An act that the office accepted. Its place in the history, counted from 1, is its receipt.
#[derive(Debug, Drop)]
pub struct Entry {
    /// Who asked: 0 is the founding officer, and enrolled callers are 1, 2, 3 and so on.
    pub caller: u32,
    /// The number that the caller gave the request, 1 to 999,999,999,999,999,999.
    pub number: u64,
    /// When it was accepted: the clock's reading, or the moment of the entry before it where that is
    /// later.
    pub moment: Instant,
    /// What was asked, the verb of an act.
    pub verb: Verb,
    /// The body of the request, byte for byte.
    pub body: Bytes,
}
