//! The register of comets on a disk of its own. What was acknowledged is there after a stop at any moment, and each act
//! is there once or not at all.
//!
//! Each accepted act is an entry of the register and a parcel of a chained journal, whose file the register's disk has
//! alone. The entry is worked out beside the office as it is then, and all memory for it is taken, before its parcel is
//! written; it counts once the parcel's gate is open for good. Where the disk fails so that a stop may leave the parcel
//! or not, the act is in doubt until `mend` reads the gate, and the next act mends first.
//!
//! Opening reads the file where it is in force, and else begins one without entries.
#![tactic(auto)]

mod acting;
mod desk;
pub mod laws;
mod opening;

pub use comet_core::Register;
pub use comet_model::{CometRefusal, CometReply, CometRequest, CometVerb};
pub use desk::CometDesk;
pub use disk_model::Failed;
pub use obs_journal::{OpenFault, Settled};
