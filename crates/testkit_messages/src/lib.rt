//! What is heard of HTTP messages in memory, for the crate that tests them.
//!
//! A function says whether something is heard, and asserts nothing: no library may stop the program. None has a clause,
//! since what the calls promise would then stand in the proof of every test.
#![tactic(auto)]

mod message_calls;

pub use message_calls::{Want, hears, is_heard};
