//! The second file: whether it is in force, and how the history of the first is carried into it.

ghost use Rattle.std.specs.Prelude.{◌≡◌, ◌≢◌, ◌↔◌, ◌+◌, ◌<◌, ◌≤◌, ◌^◌, ℕ, List, [], ◌∷◌, ◌++◌, length, slice_index};
ghost use Rattle.std.specs.Prelude.{IfOk, IfSome, IsNone, IsSomeAnd, OnOk, OnErr, IsTrue, Ok, Some, true, false};
ghost use Rattle.sha2.specs.Sha256.{sha256};
ghost use Rattle.call_log.specs.Counts.{Rises};
ghost use Rattle.disk_model.specs.Crashes.{During};
ghost use Rattle.obs_journal.specs.Parcels.{IsParcel, parcel_bytes};
ghost use Rattle.std.specs.List.{AllByRecursion};
ghost use Rattle.obs_journal.specs.Formats.{first_seal, room_in, row, row_length_in, file_of};
ghost use Rattle.obs_journal.specs.declared.format.Format.TheVariants.{Chained};
ghost use Rattle.obs_journal.specs.Opening.{parcels_of};
ghost use Rattle.obs_journal.specs.Journals.{IsUnwritten};
ghost use Rattle.obs_journal.specs.Chains.{IsInForce, IsChain, reached_after};
ghost use Rattle.obs_journal.specs.Moves.{IsIdle, IsOneByte, IsKnownAnd, IsCarriedInto, Adds, StaysShut};

use crate::format::Format;
use crate::journal::Reached;
use crate::opening::safe_end;
use crate::parcel::chain_digest;
use crate::reading::reads_open;
use crate::writing::open_gate;
use crate::{CLOSED, DIGEST_BYTES, OPEN, Parcel, Parcels, Placed};
use disk_model::{Disk, Failed};

/// Waits until the second file is safe, and says whether it is in force: it has at least two bytes, of which the first
/// is 1.
///
/// # Errors
/// `Failed` where the disk failed.
pub fn in_force<D: Disk>(disk: &mut D) -> Result<bool, Failed>
    ensures given { IfOk result (λ is_in_force. IfSome (D.reads disk.old)
        (λ file. IsTrue is_in_force ↔ IsInForce file)) }
    ensures safe { OnOk result ((image : List ℕ) → D.leaves disk.new image → D.reads disk.new ≡ Some image) }
    ensures idle { result ≡ Ok false → IfSome (D.reads disk.new) IsIdle }
    ensures force { result ≡ Ok true → IfSome (D.reads disk.new) IsInForce }

    ensures unwritten { IsUnwritten D.reads D.moment D.since disk.old disk.new }
    ensures counts { D.faults disk.old ≤ D.faults disk.new }
    ensures cause { OnErr result (Rises (D.faults disk.old) (D.faults disk.new)) }
{
    let end = safe_end(disk)?;
    if end < 2 {
        return Ok(false);
    }
    reads_open(disk, 0)
}

/// How many bytes a second file has once these parcels are carried into it: its first byte, a gate, a parcel and a
/// digest for each, and the closed gate. None where a `u64` doesn't count them.
pub fn carried_length(parcels: &Parcels) -> Option<u64>
    ensures length { IfSome result (λ length. length ≡ row_length_in Chained (parcels_of parcels.now) + 2) }
    ensures too_long { IsNone result → 2 ^ 64 ≤ row_length_in Chained (parcels_of parcels.now) + 2 }
{
    let mut length = 2u64;
    for placed in parcels.as_slice() {
        let room = Format::Chained.room(&placed.parcel);
        if room > u64::MAX - length {
            return None;
        }
        length += room;
    }
    Some(length)
}

/// Carries parcels into a second file that isn't in force. A stop at any moment leaves it not in force, or with all of
/// them. It takes no memory.
///
/// # Errors
/// `Failed` where the disk failed.
pub fn carry<D: Disk>(parcels: &Parcels, second: &mut D) -> Result<(), Failed>
    requires safe { (image : List ℕ) → D.leaves second.old image → D.reads second.old ≡ Some image }
    requires idle { IfSome (D.reads second.old) IsIdle }
    requires space { row_length_in Chained (parcels_of parcels.now) + 2 < 2 ^ 64 }

    ensures carried { OnOk result ((image : List ℕ) → D.leaves second.new image →
        IsChain image (parcels_of parcels.now)) }
    ensures file { OnOk result (IfSome (D.reads second.old) (λ _.
        D.reads second.new ≡ Some (file_of Chained (parcels_of parcels.now) (0 ∷ [])))) }
    ensures any_moment { During D.moment D.since second.old second.new
        (IsCarriedInto (D.reads second.old) (parcels_of parcels.now)) }
    ensures counts { D.faults second.old ≤ D.faults second.new }
    ensures cause { OnErr result (Rises (D.faults second.old) (D.faults second.new)) }
{
    carry_row(parcels, second)?;
    Ok(())
}

/// Carries them, and says where the chain stands then.
pub(crate) fn carry_row<D: Disk>(parcels: &Parcels, second: &mut D) -> Result<Reached, Failed>
    requires safe { (image : List ℕ) → D.leaves second.old image → D.reads second.old ≡ Some image }
    requires idle { IfSome (D.reads second.old) IsIdle }
    requires space { row_length_in Chained (parcels_of parcels.now) + 2 < 2 ^ 64 }

    ensures carried { OnOk result ((image : List ℕ) → D.leaves second.new image →
        IsChain image (parcels_of parcels.now)) }
    ensures file { OnOk result (IfSome (D.reads second.old) (λ _.
        D.reads second.new ≡ Some (file_of Chained (parcels_of parcels.now) (0 ∷ [])))) }
    ensures reached { IfOk result (λ reached. reached ≡ reached_after (parcels_of parcels.now)) }
    ensures any_moment { During D.moment D.since second.old second.new
        (IsCarriedInto (D.reads second.old) (parcels_of parcels.now)) }
    ensures counts { D.faults second.old ≤ D.faults second.new }
    ensures cause { OnErr result (Rises (D.faults second.old) (D.faults second.new)) }
{
    shut(second)?;
    let reached = write_row(parcels.as_slice(), second)?;
    second.sync()?;
    open_gate(second, 0)?;
    Ok(reached)
}

// Leaves one byte, which isn't 1, of an idle file.
fn shut<D: Disk>(second: &mut D) -> Result<(), Failed>
    requires safe { (image : List ℕ) → D.leaves second.old image → D.reads second.old ≡ Some image }
    requires idle { IfSome (D.reads second.old) IsIdle }
    ensures shut { OnOk result ((image : List ℕ) → D.leaves second.new image →
        (D.reads second.new ≡ Some image) × IsOneByte image) }
    ensures any_moment { During D.moment D.since second.old second.new (IsKnownAnd (D.reads second.old) IsIdle) }
    ensures wrote { OnOk result (IfSome (D.reads second.old) (λ _. IsSomeAnd (D.reads second.new) IsOneByte)) }
    ensures counts { D.faults second.old ≤ D.faults second.new }
    ensures cause { OnErr result (Rises (D.faults second.old) (D.faults second.new)) }
{
    shorten(second)?;
    second.sync()
}

// Leaves one byte of it, which isn't safe yet.
fn shorten<D: Disk>(second: &mut D) -> Result<(), Failed>
    requires safe { (image : List ℕ) → D.leaves second.old image → D.reads second.old ≡ Some image }
    requires idle { IfSome (D.reads second.old) IsIdle }
    ensures wrote { OnOk result (IfSome (D.reads second.old) (λ _. IsSomeAnd (D.reads second.new) IsOneByte)) }
    ensures from { (image : List ℕ) → D.leaves second.new image → (before : List ℕ) × D.leaves second.old before }
    ensures any_moment { During D.moment D.since second.old second.new (IsKnownAnd (D.reads second.old) IsIdle) }
    ensures counts { D.faults second.old ≤ D.faults second.new }
    ensures cause { OnErr result (Rises (D.faults second.old) (D.faults second.new)) }
{
    if second.len()? < 2 {
        second.write_at(0, &[CLOSED])
    } else {
        second.cut(1)
    }
}

// Writes the row behind the first byte, with its closed gate, and says where the chain stands then.
fn write_row<D: Disk>(parcels: &[Placed], second: &mut D) -> Result<Reached, Failed>
    requires { row_length_in Chained (parcels_of parcels.now) + 2 < 2 ^ 64 }
    ensures adds { OnOk result (Adds D.reads D.leaves 1
        (row Chained (first_seal Chained) (parcels_of parcels.now) (0 ∷ [])) second.old second.new) }
    ensures reached { IfOk result (λ reached. reached ≡ reached_after (parcels_of parcels.now)) }
    ensures fit { OnOk result (AllByRecursion IsParcel (parcels_of parcels.now)) }
    ensures shut { StaysShut D.leaves D.moment D.since second.old second.new }
    ensures counts { D.faults second.old ≤ D.faults second.new }
    ensures cause { OnErr result (Rises (D.faults second.old) (D.faults second.new)) }
{
    let mut gate = 1u64;
    let mut last = [0; DIGEST_BYTES];
    for placed in parcels {
        last = write_parcel(&placed.parcel, last, second, gate)?;
        gate += Format::Chained.room(&placed.parcel);
    }
    add(second, gate, &[CLOSED])?;
    Ok(Reached {
        position: gate + 1,
        last,
    })
}

// Writes an open gate and a parcel at the end of the file, with its digest after this one, which it gives.
fn write_parcel<D: Disk>(
    parcel: &Parcel,
    last: [u8; DIGEST_BYTES],
    second: &mut D,
    gate: u64,
) -> Result<[u8; DIGEST_BYTES], Failed>
    requires some { 0 < gate }
    requires space { gate + room_in Chained parcel.now < 2 ^ 64 }
    ensures digest { IfOk result (λ digest. digest ≡ sha256 (last ++ parcel_bytes parcel.now)) }
    ensures fits { IsParcel parcel.now }
    ensures adds { IfOk result (λ digest. Adds D.reads D.leaves gate (1 ∷ (parcel_bytes parcel.now ++ digest))
        second.old second.new) }
    ensures shut { StaysShut D.leaves D.moment D.since second.old second.new }
    ensures counts { D.faults second.old ≤ D.faults second.new }
    ensures cause { OnErr result (Rises (D.faults second.old) (D.faults second.new)) }
{
    let bytes = parcel.own_bytes();
    let digest = chain_digest(&last, bytes);
    add(second, gate, &[OPEN])?;
    add(second, gate + 1, bytes)?;
    add(second, gate + 1 + bytes.len() as u64, &digest)?;
    Ok(digest)
}

// Puts bytes at the end of the file, which is at this offset.
fn add<D: Disk>(second: &mut D, at: u64, bytes: &[u8]) -> Result<(), Failed>
    requires { 0 < at }
    ensures adds { OnOk result (Adds D.reads D.leaves at bytes.now second.old second.new) }
    ensures shut { StaysShut D.leaves D.moment D.since second.old second.new }
    ensures counts { D.faults second.old ≤ D.faults second.new }
    ensures cause { OnErr result (Rises (D.faults second.old) (D.faults second.new)) }
{
    second.write_at(at, bytes)
}
