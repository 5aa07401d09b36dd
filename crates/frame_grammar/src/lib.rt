//! Request frames on a byte stream, and reply frames.
//!
//! A request frame is a head and a body. The head is a key, a blank, a number, a blank, a verb, a
//! blank, the length of the body in bytes, and a line feed. The next frame follows at once. A reply
//! frame is a status, a blank, the length of the text in bytes, a line feed, and the text.
//!
//! Numbers are decimal, without leading zeros.
#![tactic(auto)]

mod head;
pub mod laws;
mod parts;
mod replies;

pub use head::{Front, Head, read_head};
pub use replies::put_reply;

/// The most bytes that the key of a head has.
pub const KEY_BYTES: usize = 33;

/// The most digits that the number of a head has.
pub const NUMBER_DIGITS: usize = 18;

/// The most bytes that the verb of a head has.
pub const VERB_BYTES: usize = 12;

/// The most digits that the length in a head has.
pub const LENGTH_DIGITS: usize = 10;

/// The most bytes that a head has, its three blanks and its line feed among them.
pub const HEAD_BYTES: usize = KEY_BYTES + NUMBER_DIGITS + VERB_BYTES + LENGTH_DIGITS + 4;
