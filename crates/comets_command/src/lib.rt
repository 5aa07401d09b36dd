//! The frames of one source answered by the register of comets, one after another: the program's command `comets`.
//!
//! `comets` opens the office on its disks to read it, then the register on a disk of its own beside it, answers each
//! frame of the source on the sink, and mends an act in doubt once the source has ended. Its contract says for each end
//! what was read, answered, written and kept, and what a crash may leave.
#![tactic(auto)]

mod answering;
mod below;
mod closing;
mod opening;
mod running;
mod spoken;
mod turns;

pub use opening::REGISTER_BYTES;
pub use running::comets;
