//! Calls of the program over two disks and a mirror of any kind, and what the mirror holds after each, for the crates
//! that test mirrors.
//!
//! A function says what is wrong with a call, and asserts nothing: no library may stop the program. None has a clause,
//! since what the calls promise would then stand in the proof of every test.
#![tactic(auto)]

mod calls;
mod held;
mod large;
mod looks;
mod offices;
mod windows;

pub use calls::{Turn, mirror_in_turn, mirror_of, mirrored_after, mirrored_by};
pub use held::{Holds, NOTHING, told_between};
pub use large::ordinary;
pub use looks::{EA_DAY, each_look, is_refused, look_faults, look_to, looked};
pub use offices::{EA_LINE, EA_OBJECT, OBJECT, SUBMITTED, each_office};
pub use windows::wrong_window;
