//! Lines of text, as the formats of minor planet astrometry have them: a text cut at line feeds, whole or in pieces,
//! and rules that are tested in their order.
//!
//! A carriage return before a line feed belongs to the line's end; what stands after the last line feed is a line where
//! it isn't empty. Lines count from 1, all of them.
#![tactic(auto)]

pub mod cutting;
pub mod laws;
pub mod lines;
pub mod pieces;
