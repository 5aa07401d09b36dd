//! Tests of the program's commands: without a door, over sources, sinks, disks, clocks and mirrors in memory; with one,
//! over doors in memory and a port of this machine, where connections are attended and wait for one another; with a
//! register of comets beside the office; and with mirrors of each kind.
//!
//! A crate with tests is proved twice, with and without them, so they stand in a crate above those that they test.
#![tactic(auto)]

#[cfg(test)]
mod comets;
#[cfg(test)]
mod command_lines;
#[cfg(test)]
mod connections;
#[cfg(test)]
mod doors;
#[cfg(test)]
mod holding;
#[cfg(test)]
mod limits;
#[cfg(test)]
mod look;
#[cfg(test)]
mod mirrors;
#[cfg(test)]
mod registers;
#[cfg(test)]
mod sockets;
#[cfg(test)]
mod submitting;
#[cfg(test)]
mod targets;
#[cfg(test)]
mod waiting;
#[cfg(test)]
mod workload;
