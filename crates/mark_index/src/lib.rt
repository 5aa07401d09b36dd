//! Entries of a list, found by their marks.
//!
//! Whoever keeps a list can ask which of its entries may be the one that is wanted: an entry has a mark, a number that
//! it shares with few others, and the entries with a mark are found without a look at the rest. Entries are added one
//! after another, each at the next place, and keep their places. Marks are numbers from 1. An entry may have none, or
//! lose its own: then no search comes to it, and contracts see 0 in its place. They see the marks as a list, oldest
//! first, and for how many more there is room; `reserve` takes memory, and no other change takes any.
//!
//! A mark's bits should be those of a hash: marks that are the same in their low bits are searched one by one.
#![tactic(auto)]

mod chained;
mod table;

pub use chained::MarkIndex;
