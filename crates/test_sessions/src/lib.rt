//! Tests of whole sessions of frames over disks in memory: in pieces, with failing streams, with large bodies, with
//! acts on tracklets, objects and numbers, and with what the office tells, the catalogue among it; of the journals that
//! they leave, and of long histories.
//!
//! A crate with tests is proved twice, with and without them, so they stand in a crate above those that they test.
#![tactic(auto)]

#[cfg(test)]
mod catalogues;
#[cfg(test)]
mod counts;
#[cfg(test)]
mod edges;
#[cfg(test)]
mod histories;
#[cfg(test)]
mod journals;
#[cfg(test)]
mod large;
#[cfg(test)]
mod limits;
#[cfg(test)]
mod members;
#[cfg(test)]
mod objects;
#[cfg(test)]
mod queries;
#[cfg(test)]
mod runs;
#[cfg(test)]
mod transcripts;
