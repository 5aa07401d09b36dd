//! The bodies of acts other than submissions: JSON texts by which callers are enrolled, stations and codes are
//! entered, tracklets are made objects, objects are joined, judged and numbered, observations are taken back, and
//! half-months are taken over.
//!
//! A body is one JSON value, an object with exactly the members of its act, in any order. Of a member that stands
//! twice the last value counts.
#![tactic(auto)]

mod attribute;
mod code;
mod designate;
mod enrol;
mod fault;
mod identify;
mod key;
pub mod laws;
pub mod members;
mod number;
mod opening;
mod release;
mod retract;
mod separate;
mod station;
mod verdict;
mod wholes;

pub use attribute::{Attribute, read_attribute};
pub use code::{Code, read_code};
pub use designate::{Designate, read_designate};
pub use enrol::{Enrol, Rank, read_enrol};
pub use fault::BodyFault;
pub use identify::{Identify, read_identify};
pub use key::Key;
pub use number::{Number, read_number};
pub use opening::{Opening, read_opening};
pub use release::{Release, read_release};
pub use retract::{Retract, read_retract};
pub use separate::{Separate, read_separate};
pub use station::{Station, read_station};
pub use verdict::{Verdict, read_verdict};
pub use wholes::Ids;
