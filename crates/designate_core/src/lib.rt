//! The designations of the half-months: which comes next, and by which observation each object was discovered.
//!
//! The Minor Planet Center names a new object after the half-month of its discovery, and counts the objects of a
//! half-month in the order in which they are named: `2024 EA`, `2024 EB`, and so on. A designation that was given stays
//! given, whatever becomes of its object's observations. A half-month in which designations were given elsewhere is
//! opened with their count, and goes on from there.
//!
//! ```text
//! rows.reserve()?;
//! if let Some(_) = rows.next(half) {
//!     let given = rows.take(half, discovery);
//! }
//! ```
#![tactic(auto)]

mod count;
mod discovery;
pub mod laws;
mod row_entry;
mod rows;

pub use rows::Rows;
