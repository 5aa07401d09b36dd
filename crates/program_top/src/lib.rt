//! All that the program does, as one call: the words of a command line choose a command, which is done over any source,
//! sink, disk, clock, door and mirror.
//!
//! `top` carries the theorem; the program, mpc_cli, hands it the real ones.
#![tactic(auto)]

mod ends;
pub mod top;

pub use act_model as model;
pub use command_ends::Status;
pub use command_line::Words;
pub use ends::{Ended, LinkEnds};
pub use http_connection::{Left, answer_one, attend};
pub use serve_command::LinkEnd;
