//! Many connections over one journal.
#![tactic(auto)]

mod accepting;
mod attending;
mod ends;
mod gates;
mod keeping;
mod serving;
mod summaries;
mod watching;

pub use accepting::Stop;
pub use ends::LinkEnd;
pub use keeping::{Attended, attend_door};
pub use serving::serve;
