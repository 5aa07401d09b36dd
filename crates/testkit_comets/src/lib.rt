//! Calls of `run` and `comets` over devices in memory, one after another on the same disks, and registers whose file
//! may have so many bytes, for tests of a register of comets beside an office.
//!
//! Tests over them meet the large types of both nowhere, so that they are proved at little cost.
#![tactic(auto)]

mod files;
mod limits;
mod runs;

pub use files::{Opening, Openings, comets_over};
pub use limits::comets_within;
pub use runs::comets_in_turn;
