//! The turn lock: callers in many threads take turns at one keeper of the office, and share one history.
//!
//! A pass is a caller's leave to enter, and what the caller knows: the history that it has seen, its own calls, and how
//! many entries they made. Entering gives the turn, with the keeper; leaving gives the pass back. The root's pass can
//! be split into branches, one for each thread, and takes them in again; the root alone closes the lock.
//!
//! Turns are taken in the order of their tickets. No call but `enter` waits. A pass that is dropped is lost: its branch
//! can never be joined, and the lock never closed.
#![tactic(auto)]

mod keeping;
pub mod laws;
mod lock;
mod pass;
mod plays;
mod turn;
mod view;

pub use lock::TurnLock;
pub use pass::Pass;
pub use turn::Turn;
pub use view::{Item, Role, Stage, View};
