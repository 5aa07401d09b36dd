//! The file of the observations that an office accepted, and of the tracklets that they form.
//!
//! Observations and tracklets are numbered from 1, each in the order in which they were added, without a gap; a number
//! is never given again. An observation stands in one place: it is retracted, or else isolated where its tracklet has
//! no home, or else with the designation that its tracklet was given to.
//!
//! The file knows nothing of entries but their numbers. Contracts see its observations and its tracklets as lists, the
//! newest first, and for how many more of each there is room. `reserve` takes memory for what is to be added; no other
//! change takes any.
#![tactic(auto)]

mod asking;
mod chain;
mod counting;
mod file;
mod homes;
pub mod laws;
mod observation;
mod places;
mod searches;
mod tracklet;

pub use file::TrackletFile;
pub use observation::Observation;
pub use searches::numbered;
pub use tracklet::Tracklet;
