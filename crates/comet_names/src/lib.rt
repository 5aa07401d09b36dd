//! The names of comets, in the printed and in the packed form of the Minor Planet Center.
//!
//! A comet is named by its kind, the half-month of its discovery, and a number that counts the comets of that
//! half-month. Each comet has one printed and one packed text, and each such text is one comet's.
//!
//! **Printed.** The letter of the kind, a slash, the half-month as `packed_names` prints it, and the number without
//! leading zeros: `C/1995 O1`.
//!
//! **Packed.** Eight characters, columns 5 to 12 of a line of 80: the letter of the kind, the century's letter (J for
//! 19, K for 20), two digits of the year, the half-month's letter, two digits of the number, and `0`, where a fragment
//! would have its letter: `CJ95O010`.
//!
//! The rules are those of the Minor Planet Center's pages on cometary and on packed designations. That there are the
//! kinds C and P alone, the years 1925 to 2099, and at most 99 comets a half-month is this office's own. No call takes
//! memory.
#![tactic(auto)]

mod comet;
mod label;
pub mod laws;
mod packed;
mod parts;
mod printed;

pub use comet::{Comet, CometKind, is_comet};
pub use label::Label9;
pub use packed::{pack_comet, unpack_comet};
pub use printed::{print_comet, read_comet};
