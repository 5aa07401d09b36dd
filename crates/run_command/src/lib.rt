//! The frames of one source answered by a desk, one after another: the program's command `run`.
//!
//! `run` opens the office on its disk, answers each frame of the source on the sink, and mends an act in doubt once the
//! source has ended. Its contract says for each end what was read, answered, written and kept, and what a crash may
//! leave.
#![tactic(auto)]

mod answering;
mod running;
mod spoken;
mod turns;

pub use running::run;
