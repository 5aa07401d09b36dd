//! The rules of the acts on tracklets, objects and numbers, over any office: what such an act does, or the first
//! refusal that it meets; and what its deed changes in the rows of designations, in the links and in the register.
//!
//! An office is whatever lends its file, its rows, its links and its register as the trait [`Ledger`] asks.
#![tactic(auto)]

mod acting;
mod asking;
mod chains;
mod discovering;
mod ledger;
mod listing;
mod living;
mod noting;
mod numbering;
mod observed;
mod seeing;
mod timed;

pub use acting::{attributes, designates, identifies, judges, opens, releases, separates};
pub use asking::{number_named, place, principal_of, stands_for, track_head};
pub use ledger::Ledger;
pub use listing::{items, members, principals};
pub use living::live;
pub use noting::{home_tracklets, link, linked_by, note_rows, note_verdicts, registered_by};
pub use numbering::numbers;
