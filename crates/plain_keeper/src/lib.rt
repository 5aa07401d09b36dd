//! The office in memory alone: a keeper of the office without a disk, a limit or a doubt.
#![tactic(auto)]

mod keeping;
mod plain;

pub use plain::PlainKeeper;
