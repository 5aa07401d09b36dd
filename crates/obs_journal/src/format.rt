//! The two formats of a row of parcels, and the seals that stand after their parcels.

ghost use Rattle.std.specs.Prelude.{◌≡◌, ◌↔◌, length, IsTrue};
ghost use Rattle.obs_journal.specs.Parcels.{parcel_bytes};
ghost use Rattle.obs_journal.specs.Formats.{file_number, head, seal, seal_length, room_in, kept_seal};

use crate::parcel::chain_digest;
use crate::{DIGEST_BYTES, Parcel};

/// A format of a row.
#[derive(Clone, Copy)]
pub(crate) enum Format {
    /// The file is the row, and a parcel's bytes are all that stands between two gates.
    Plain,
    /// One byte stands before the row, and after each parcel's bytes the digest of the chain so far.
    Chained,
}

impl Format {
    /// The number of the file that has this format.
    pub(crate) fn file_number(self) -> u8
        ensures { result ≡ file_number self }
    {
        match self {
            Format::Plain => 1,
            Format::Chained => 2,
        }
    }

    /// The bytes before the row.
    pub(crate) fn head_bytes(self) -> u64
        ensures { result ≡ length (head self) }
    {
        match self {
            Format::Plain => 0,
            Format::Chained => 1,
        }
    }

    /// The bytes of a seal.
    pub(crate) fn seal_bytes(self) -> usize
        ensures { result ≡ seal_length self }
    {
        match self {
            Format::Plain => 0,
            Format::Chained => DIGEST_BYTES,
        }
    }

    /// The bytes that a parcel, its seal and the gate after it take.
    pub(crate) fn room(self, parcel: &Parcel) -> u64
        ensures { result ≡ room_in self parcel.now }
    {
        (parcel.bytes().len() + self.seal_bytes()) as u64
    }

    /// What is kept of a parcel's seal, where this is kept of the last one.
    pub(crate) fn next(self, last: &[u8; DIGEST_BYTES], parcel: &Parcel) -> [u8; DIGEST_BYTES]
        ensures { kept_seal self result ≡ seal self (kept_seal self last.now) (parcel_bytes parcel.now) }
    {
        match self {
            Format::Plain => *last,
            Format::Chained => chain_digest(last, parcel.own_bytes()),
        }
    }

    /// Whether these bytes are the seal of which this is kept.
    pub(crate) fn is_seal(self, digest: &[u8; DIGEST_BYTES], bytes: &[u8]) -> bool
        ensures { IsTrue result ↔ (bytes.now ≡ kept_seal self digest.now) }
    {
        match self {
            Format::Plain => bytes.is_empty(),
            Format::Chained => bytes == digest.as_slice(),
        }
    }
}
