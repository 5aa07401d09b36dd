//! Identifications: which designations were found to be one object, and which of them is its principal designation.
//!
//! An object that was designated twice keeps all its designations. One of them is the principal one, under which its
//! observations are published; the others are secondary. Identifying two objects makes the one's principal designation
//! that of all the other's; separating a secondary designation makes an object of its own of it.
//!
//! ```text
//! links.reserve()?;
//! links.add(d);
//! links.join(principal, secondary);
//! for link in links.members(principal) {}
//! for link in links.as_slice() {
//!     if link.is_own() {}
//! }
//! ```
#![tactic(auto)]

mod changes;
mod entry;
pub mod laws;
mod link;
mod links;
mod searches;

pub use link::Link;
pub use links::Links;
