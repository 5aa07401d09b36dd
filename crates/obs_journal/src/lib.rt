//! A journal on a disk: what was acknowledged outlives a stop at any moment, and nothing is ever there in part.
//!
//! Its file is a row of gates, each followed by a parcel where it is open; the row ends at the first closed gate. After
//! each parcel stands its digest, of the digest before it and of the parcel's bytes. A parcel is added after the closed
//! gate, with its digest and a new closed gate after it, and is safe before its own gate is opened. So a stop leaves
//! the parcels from before, with the new one or without it.
//!
//! A call that fails says whether the parcel is out (`Untouched`) or in doubt (`InDoubt`). `mend` settles a doubt by
//! the gate. Of a disk of whose content nothing is known, as a real file, the contracts say what its calls ask and
//! give; what its file holds they say of disks whose reads are known.
//!
//! That file is the second one. An older one, the first, has no digests, and is only read (`open_first`) and moved from
//! (`carry`). It counts until the second one is in force (`in_force`).
#![tactic(auto)]

mod fault;
mod format;
mod gates;
mod journal;
pub mod laws;
mod opening;
mod parcel;
mod reading;
mod second;
mod writing;

pub use fault::OpenFault;
pub use item_list::NoMemory;
pub use journal::{AppendFault, Journal, Settled};
pub use opening::{Parcels, Placed, open_first};
pub use parcel::Parcel;
pub use second::{carried_length, carry, in_force};

/// The longest body of a parcel, in bytes.
pub const BODY_BYTES: usize = 1_048_576;

// The gate of a parcel that counts. Any other byte is a closed gate, and a new one is this.
const OPEN: u8 = 1;

const CLOSED: u8 = 0;

/// The bytes of a digest.
pub(crate) const DIGEST_BYTES: usize = 32;

// How many bytes one read asks for, at most.
const PIECE_BYTES: usize = 8_192;
