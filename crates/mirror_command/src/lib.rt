//! The catalogue of the office on two disks as the rows of a mirror: the program's command `mirror`.
#![tactic(auto)]

mod line;
mod mirroring;

pub use mirroring::mirror;
