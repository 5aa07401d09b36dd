//! One record of the journal, and its bytes.

ghost use Rattle.std.specs.Prelude.{◌≡◌, ◌≤◌, ◌+◌, ◌-◌, [], ◌∷◌, ◌++◌, length, take, IfOk};
ghost use Rattle.sha2.specs.Sha256.{sha256};
ghost use Rattle.obs_journal.specs.Parcels.{IsParcel, parcel_bytes, room};
ghost use Rattle.obs_journal.specs.Stored.{body_of};

use crate::{CLOSED, DIGEST_BYTES, NoMemory};
use sha2::{Digest, Sha256};
use std::alloc::Global;
use std::marker::Model;

// The bytes of a parcel before its body: the length and the fields that it counts.
const HEAD_BYTES: usize = 25;

/// What one acknowledged request leaves in the journal: who asked, under which number, when, for what,
/// and with which body.
#[derive(Debug, Drop)]
pub struct Parcel {
    caller: u32,
    number: u64,
    moment: i64,
    verb: u8,
    // the parcel as it stands in a plain file, the closed gate after it, and room for a digest
    bytes: Vec<u8>,
}

/// A parcel as it stands in a chained file, and its digest.
#[derive(Drop)]
pub(crate) struct Sealed {
    /// The parcel, its digest and the closed gate.
    pub(crate) bytes: Vec<u8>,
    /// Its digest.
    pub(crate) digest: [u8; DIGEST_BYTES],
}

impl Model for Parcel {
    ghost use Rattle.std.specs.Prelude.{◌≡◌, ◌∷◌, ◌++◌, [], length};
    ghost use Rattle.obs_journal.specs.Parcels.{RawParcel};
    ghost use Rattle.obs_journal.specs.Stored.{stored, IsStored};

    ghost Value = { RawParcel };

    ghost view = { λ p. stored p.caller p.number p.moment p.verb p.bytes.items };

    ghost invariant = { λ p. IsStored (stored p.caller p.number p.moment p.verb p.bytes.items) p.bytes.items };
}

impl Parcel {
    /// The parcel of these values. The moment is in nanoseconds since 1970, the verb any code, and the
    /// body has at most 1,048,576 bytes.
    ///
    /// # Errors
    /// Memory was refused.
    pub fn make(
        alloc: Global,
        caller: u32,
        number: u64,
        moment: i64,
        verb: u8,
        body: &[u8],
    ) -> Result<Parcel, NoMemory>
        requires { length body.now ≤ 1048576 }
        ensures { IfOk result (λ parcel. parcel ≡
            record { caller = caller; number = number; moment = moment; verb = verb; body = body.now }) }
    {
        let counted = (HEAD_BYTES - 4 + body.len()) as u32;
        let mut bytes = Vec::with_capacity(alloc, HEAD_BYTES + body.len() + 1 + DIGEST_BYTES)?;
        bytes.extend_from_slice(&counted.to_be_bytes())?;
        bytes.extend_from_slice(&caller.to_be_bytes())?;
        bytes.extend_from_slice(&number.to_be_bytes())?;
        bytes.extend_from_slice(&moment.to_be_bytes())?;
        bytes.push(verb)?;
        bytes.extend_from_slice(body)?;
        bytes.push(CLOSED)?;
        bytes.extend_from_slice(&[CLOSED; DIGEST_BYTES])?;
        Ok(Parcel {
            caller,
            number,
            moment,
            verb,
            bytes,
        })
    }

    /// Who asked.
    pub fn caller(&self) -> u32
        ensures { result ≡ self.now.caller }
    {
        self.caller
    }

    /// Under which number the caller asked.
    pub fn number(&self) -> u64
        ensures { result ≡ self.now.number }
    {
        self.number
    }

    /// When, in nanoseconds since 1970.
    pub fn moment(&self) -> i64
        ensures { result ≡ self.now.moment }
    {
        self.moment
    }

    /// The code of the verb.
    pub fn verb(&self) -> u8
        ensures { result ≡ self.now.verb }
    {
        self.verb
    }

    /// The bytes of the body.
    pub fn body(&self) -> &[u8]
        ensures { result.now ≡ self.now.body }
    {
        between(&self.bytes)
    }

    /// The parcel and the closed gate after it, as they stand in a plain file.
    pub(crate) fn bytes(&self) -> &[u8]
        ensures bytes { result.now ≡ parcel_bytes self.now ++ 0 ∷ [] }
        ensures length { length result.now ≡ room self.now }
        ensures fits { IsParcel self.now }
    {
        without(&self.bytes, DIGEST_BYTES)
    }

    /// The parcel alone, as it stands in any file.
    pub(crate) fn own_bytes(&self) -> &[u8]
        ensures bytes { result.now ≡ parcel_bytes self.now }
        ensures length { length result.now ≡ 25 + length self.now.body }
        ensures fits { IsParcel self.now }
    {
        without(&self.bytes, 1 + DIGEST_BYTES)
    }

    /// The parcel as it stands in a chained file whose last digest is this: with its own digest and the closed gate.
    pub(crate) fn sealed(self, last: &[u8; DIGEST_BYTES]) -> Sealed
        ensures digest { result.digest ≡ sha256 (last.now ++ parcel_bytes self) }
        ensures bytes { result.bytes.items ≡ parcel_bytes self ++ (result.digest ++ 0 ∷ []) }
        ensures length { length result.bytes.items ≡ 58 + length self.body }
        ensures fits { IsParcel self }
    {
        let digest = chain_digest(last, self.own_bytes());
        let Parcel { mut bytes, .. } = self;
        let end = bytes.len() - 1 - DIGEST_BYTES;
        bytes[end..end + DIGEST_BYTES].copy_from_slice(&digest);
        Sealed { bytes, digest }
    }
}

/// The digest of a parcel's bytes after the last digest.
pub(crate) fn chain_digest(last: &[u8; DIGEST_BYTES], bytes: &[u8]) -> [u8; DIGEST_BYTES]
    ensures { result ≡ sha256 (last.now ++ bytes.now) }
{
    let mut hasher = Sha256::new();
    hasher.update(last.as_slice());
    hasher.update(bytes);
    hasher.finalize()
}

// The bytes but for this many at the end.
fn without(bytes: &[u8], count: usize) -> &[u8]
    requires { count ≤ length bytes.now }
    ensures { result.now ≡ take (length bytes.now - count) bytes.now }
{
    let (front, _) = bytes.split_at(bytes.len() - count);
    front
}

// The bytes of the body among those of a parcel, a gate and the room.
fn between(bytes: &[u8]) -> &[u8]
    requires { 58 ≤ length bytes.now }
    ensures { result.now ≡ body_of bytes.now }
{
    let (_, behind) = bytes.split_at(HEAD_BYTES);
    without(behind, 1 + DIGEST_BYTES)
}
