//! The register of comets in memory: what one request is answered, what an act
//! changes, and entries that come again from a journal.
#![tactic(auto)]

mod asking;
mod book;
mod comets;
mod index;
pub mod laws;
mod names;
mod prepared;
mod preparing;
mod register;
mod replaying;

pub use prepared::{Prep, Prepared};
pub use register::Register;
pub use replaying::ReplayFault;
