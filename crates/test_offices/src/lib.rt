//! Tests of what an office keeps and does: its file of observations, its designations, links, verdicts and numbers, the
//! rules over batches, and what becomes of requests, kind by kind, with ample memory.
//!
//! A crate with tests is proved twice, with and without them, so they stand in a crate above those that they test.
#![tactic(auto)]

#[cfg(test)]
mod batches;
#[cfg(test)]
mod files;
#[cfg(test)]
mod objects;
#[cfg(test)]
mod pages;
#[cfg(test)]
mod requests;
