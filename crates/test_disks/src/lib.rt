//! Tests of disks in memory and on a real file, and of both files of a journal on them.
//!
//! A crate with tests is proved twice, with and without them, so they stand in a crate above those that they test.
#![tactic(auto)]

#[cfg(test)]
mod calls;
#[cfg(test)]
mod cases;
#[cfg(test)]
mod chains;
#[cfg(test)]
mod disks;
#[cfg(test)]
mod failures;
#[cfg(test)]
mod first_files;
#[cfg(test)]
mod names;
#[cfg(test)]
mod recorder;
#[cfg(test)]
mod tables;
