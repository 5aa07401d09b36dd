//! The desk: the office on its disks. What was acknowledged is there after a stop at any moment, and each act is there
//! once or not at all.
//!
//! There are two files. The second one, whose parcels are chained by digests, counts where it is in force, and each act
//! goes into it; else the first one counts, which opening reads and carries over.
//!
//! Each accepted act is an entry of the history and a parcel of the journal. The entry is worked out, and all memory
//! for it is taken, before its parcel is written; it counts once the parcel's gate is open for good. Where the disk
//! fails so that a stop may leave the parcel or not, the act is in doubt until `mend` reads the gate, and the next act
//! mends first.
#![tactic(auto)]

mod acting;
mod chained;
mod desk;
mod keeping;
pub mod laws;
mod opening;
mod parcels;

pub use chained::ChainedDesk;
pub use desk::Desk;
pub use disk_model::Failed;
pub use obs_journal::{OpenFault, Settled};
pub use plain_keeper::PlainKeeper;
