//! Tests of what people write: lines of 80 columns, batches of ADES, the bodies of acts, the tables that they fill, the
//! words of a command, and the usage that is printed where words name none.
//!
//! A crate with tests is proved twice, with and without them, so they stand in a crate above those that they test.
#![tactic(auto)]

#[cfg(test)]
mod ades;
#[cfg(test)]
mod batches;
#[cfg(test)]
mod bodies;
#[cfg(test)]
mod columns;
#[cfg(test)]
mod commands;
#[cfg(test)]
mod stations;
#[cfg(test)]
mod tables;
#[cfg(test)]
mod usage;
#[cfg(test)]
mod writing;
