//! The catalogue as two tables, objects and observations: their rows, where they are kept, and how they are made of an
//! office.
//!
//! A [`Mirror`] keeps two lists of rows. [`refresh`] replaces them by those of an office, whole or not at all.
#![tactic(auto)]

mod labels;
pub mod laws;
mod mem;
mod mirror;
mod objects;
mod refreshing;
mod rows;
mod sights;

pub use mem::MemMirror;
pub use mirror::{Mirror, MirrorErr};
pub use refreshing::{RefreshFault, Refreshed, refresh, too_many};
pub use rows::{MirrorRows, ObjectRow, ObjectRows, SightRow, SightRows};
