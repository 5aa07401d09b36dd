//! One connection attended: its HTTP requests are read one after another, each is answered by the office in a turn of
//! its own, and the answers are written.
//!
//! `attend` does this for a whole connection, `answer_one` for one request. Callers in many threads attend one
//! connection each, with a pass of the same lock. A connection is read, and written to, while the turn is free.
#![tactic(auto)]

mod answering;
mod attending;
pub mod laws;
mod left;

pub use answering::answer_one;
pub use attending::attend;
pub use left::Left;

/// The most answers that a connection gets.
pub const ANSWERS: usize = 1_000;
