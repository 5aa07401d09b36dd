//! Verdicts on orbits, and the permanent numbers of minor planets.
//!
//! A minor planet is numbered once its orbit is known well. How well it is known, the Minor Planet Center states by
//! the uncertainty parameter U, from 0 for the best to 9, and by the number of oppositions at which the object was
//! observed. Numbers are given one after the other, and none is given twice.
//!
//! ```text
//! register.reserve(1)?;
//! register.set(d, 2, 4);
//! if register.good(d) {
//!     register.take(d, next);
//! }
//! ```
#![tactic(auto)]

mod entry;
pub mod laws;
mod lists;
mod numbering;
mod open;
mod register;
mod verdict;

pub use numbering::Numbering;
pub use register::Register;
pub use verdict::Verdict;
