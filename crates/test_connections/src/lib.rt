//! Tests of sources, sinks, doors and clocks, of the door on a port, of frames and of HTTP messages, also where calls
//! fail, and of turns that threads take at the lock of an office.
//!
//! A crate with tests is proved twice, with and without them, so they stand in a crate above those that they test.
#![tactic(auto)]

#[cfg(test)]
mod frame_reading;
#[cfg(test)]
mod frames;
#[cfg(test)]
mod http;
#[cfg(test)]
mod link_limits;
#[cfg(test)]
mod ports;
#[cfg(test)]
mod streams;
#[cfg(test)]
mod tables;
#[cfg(test)]
mod turns;
