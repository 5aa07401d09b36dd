//! The observations of some days, as a mirror has them, written line by line: the program's command `look`.
#![tactic(auto)]

pub mod laws;
mod lines;
mod looking;

pub use looking::look;
