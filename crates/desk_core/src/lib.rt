//! The core of the office: its history in memory, and the step on it in two parts, the one that may
//! run out of memory and the one that can't be.
#![tactic(auto)]

mod answering;
mod book;
mod doing;
mod filed;
mod hearing;
mod holding;
mod knowing;
mod known_key;
mod lending;
mod letting_go;
mod limiting;
mod objects;
mod office;
mod prepared;
mod preparing;
mod refusals;
mod replaying;
mod roster;
mod shelving;
mod taking;

pub use office::Core;
pub use prepared::{Prep, Prepared};
pub use replaying::ReplayFault;
