//! Calls of the program from the words of a command line on, over devices in memory, and how the links of `serve` end:
//! links in memory, some of which are held until enough was answered on all of them, and a peer on a port of this
//! machine.
//!
//! A function says what is wrong with a call, and asserts nothing: no library may stop the program. None has a clause,
//! since what the program promises would then stand in the proof of every test.
#![tactic(auto)]

mod calls;
mod held;
mod links;
mod meeting;
mod parts;
mod peer;

pub use calls::{
    call_beside_register, call_in_turn, call_over_links, call_over_long_links, call_single,
};
pub use held::{Held, call_held};
pub use links::{End, Exchanged, Sent, Text};
pub use meeting::{Place, call_met};
pub use peer::{ANSWER_BYTES, Served, is_free, serve_peer};
pub use program_top::Left;
