//! What stands at a gate.

ghost use Rattle.std.specs.Prelude.{◌≡◌, ◌≢◌, ◌↔◌, ◌+◌, ◌-◌, ◌<◌, ◌≤◌, ◌^◌, ◌++◌, ◌∷◌, [], ℕ, List, length, take, drop};
ghost use Rattle.std.specs.Prelude.{min, IfOk, IfSome, IsErrOf, IsNone, IsTrue, Ok, Err};
ghost use Rattle.std.specs.Int.{w32, w64, to_be_bytes};
ghost use Rattle.call_log.specs.Counts.{Rises};
ghost use Rattle.obs_journal.specs.Parcels.{RawParcel, IsParcel};
ghost use Rattle.obs_journal.specs.Formats.{seal, seal_length, kept_seal};
ghost use Rattle.obs_journal.specs.Files.{NoParcelIn};
ghost use Rattle.obs_journal.specs.Fronts.{head_spelled, HasRoom, StandsAtFront, StandsBehind, IsInside, IsSealed};
ghost use Rattle.obs_journal.specs.Journals.{IsUnwritten};

use crate::format::Format;
use crate::reading::read_bytes;
use crate::{DIGEST_BYTES, OPEN, OpenFault, Parcel};
use disk_model::Disk;
use std::alloc::Global;

// The bytes of a gate, and of the head after it.
const GATE_AND_HEAD_BYTES: u64 = 26;

// What the length of a parcel counts beside the body.
const FIELD_BYTES: usize = 21;

/// What stands at a gate.
#[derive(Drop)]
pub(crate) enum Front {
    /// The gate is closed.
    Closed,
    /// The gate is open, and no parcel with its seal and a gate after it follows.
    Damaged,
    /// The gate is open.
    Open {
        /// Its parcel.
        parcel: Parcel,
        /// What is kept of the parcel's seal.
        digest: [u8; DIGEST_BYTES],
    },
}

// The fields before the body.
#[derive(Drop)]
struct Head {
    counted: u32,
    caller: u32,
    number: u64,
    moment: i64,
    verb: u8,
}

// The number in the first four bytes, big-endian, and what follows.
fn four(bytes: &[u8]) -> (u32, &[u8])
    requires { 4 ≤ length bytes.now }
    ensures { bytes.now ≡ to_be_bytes w32 result.0 ++ result.1.now }
{
    let (front, rest) = bytes.split_at(4);
    (
        u32::from_be_bytes([front[0], front[1], front[2], front[3]]),
        rest,
    )
}

// The number in the first eight bytes, big-endian, and what follows.
fn eight(bytes: &[u8]) -> (u64, &[u8])
    requires { 8 ≤ length bytes.now }
    ensures { bytes.now ≡ to_be_bytes w64 result.0 ++ result.1.now }
{
    let (front, rest) = bytes.split_at(8);
    let number = u64::from_be_bytes([
        front[0], front[1], front[2], front[3], front[4], front[5], front[6], front[7],
    ]);
    (number, rest)
}

// The head in these bytes.
fn head_of(bytes: &[u8]) -> Head
    requires { length bytes.now ≡ 25 }
    ensures { bytes.now ≡ head_spelled result }
{
    let (counted, rest) = four(bytes);
    let (caller, rest) = four(rest);
    let (number, rest) = eight(rest);
    let (moment, rest) = eight(rest);
    Head {
        counted,
        caller,
        number,
        moment: moment.cast_signed(),
        verb: rest[0],
    }
}

fn has_room(format: Format, counted: u32, left: u64) -> bool
    ensures { IsTrue result ↔ HasRoom format counted left }
{
    let counted = u64::from(counted);
    21 <= counted && counted <= 1_048_597 && counted + 6 + format.seal_bytes() as u64 <= left
}

// The head in these bytes after an open gate, where its parcel, the seal and the gate after it are among the bytes that
// are left of the file, of which the gate is the first.
fn whole_head(format: Format, bytes: &[u8], left: u64) -> Option<Head>
    requires { length bytes.now + 1 ≡ min 26 left }
    ensures head { IfSome result (λ head. bytes.now ≡ head_spelled head) }
    ensures inside { IfSome result (λ head. HasRoom format head.counted left) }
    ensures none { IsNone result → (last behind : List ℕ) → length behind + 1 ≡ left →
        bytes.now ≡ take (length bytes.now) behind → NoParcelIn format last behind }
{
    if left <= GATE_AND_HEAD_BYTES {
        return None;
    }
    let head = head_of(bytes);
    if has_room(format, head.counted, left) {
        Some(head)
    } else {
        None
    }
}

// Reads the body after a head, and the seal after it.
fn read_parcel<D: Disk>(
    alloc: Global,
    disk: &mut D,
    format: Format,
    last: &[u8; DIGEST_BYTES],
    at: u64,
    head: Head,
    bytes: &mut Vec<u8>,
) -> Result<Front, OpenFault>
    requires least { 21 ≤ head.counted }
    requires most { head.counted ≤ 1048597 }
    requires place { at + (head.counted - 21) + seal_length format < 2 ^ 64 }
    ensures behind { IfOk result (λ front. IfSome (D.reads disk.old)
        (λ file. StandsBehind format (kept_seal format last.now) head (drop at file) front)) }
    ensures long { (parcel : RawParcel) (digest : List ℕ) → result ≡ Ok (Front.Open parcel digest) →
        length parcel.body + 21 ≡ head.counted }
    ensures fits { (parcel : RawParcel) (digest : List ℕ) → result ≡ Ok (Front.Open parcel digest) →
        IsParcel parcel }
    ensures sealed { IfOk result (λ front. IsSealed format (kept_seal format last.now) front) }
    ensures not_closed { result ≢ Ok Front.Closed }

    ensures unwritten { IsUnwritten D.reads D.moment D.since disk.old disk.new }
    ensures counts { D.faults disk.old ≤ D.faults disk.new }
    ensures cause { IsErrOf result OpenFault.DiskFault → Rises (D.faults disk.old) (D.faults disk.new) }
    ensures not_damaged { (file offset : ℕ) → result ≢ Err (OpenFault.Damaged file offset) }
{
    bytes.clear();
    let body_bytes = head.counted as usize - FIELD_BYTES;
    if !read_bytes(disk, at, body_bytes + format.seal_bytes(), bytes)? {
        return Ok(Front::Damaged);
    }
    let (body, seal) = bytes.split_at(body_bytes);
    let parcel = Parcel::make(
        alloc,
        head.caller,
        head.number,
        head.moment,
        head.verb,
        body,
    )?;
    let digest = format.next(last, &parcel);
    if !format.is_seal(&digest, seal) {
        return Ok(Front::Damaged);
    }
    Ok(Front::Open { parcel, digest })
}

/// Reads what stands at a gate of a file that ends at `end`, after the last seal, of which this is kept. `bytes` is
/// room to read into.
pub(crate) fn read_front<D: Disk>(
    alloc: Global,
    disk: &mut D,
    format: Format,
    last: &[u8; DIGEST_BYTES],
    gate: u64,
    end: u64,
    bytes: &mut Vec<u8>,
) -> Result<Front, OpenFault>
    requires { gate < end }
    ensures front { IfOk result (λ front. IfSome (D.reads disk.old) (λ file. length file ≡ end →
        StandsAtFront format (kept_seal format last.now) (drop gate file) front)) }
    ensures inside { IfOk result (λ front. IsInside format front (end - gate)) }
    ensures sealed { IfOk result (λ front. IsSealed format (kept_seal format last.now) front) }

    ensures unwritten { IsUnwritten D.reads D.moment D.since disk.old disk.new }
    ensures counts { D.faults disk.old ≤ D.faults disk.new }
    ensures cause { IsErrOf result OpenFault.DiskFault → Rises (D.faults disk.old) (D.faults disk.new) }
    ensures not_damaged { (file offset : ℕ) → result ≢ Err (OpenFault.Damaged file offset) }
{
    bytes.clear();
    let left = end - gate;
    let count = left.min(GATE_AND_HEAD_BYTES) as usize;
    if !read_bytes(disk, gate, count, bytes)? {
        return Ok(Front::Damaged);
    }
    if bytes[0] != OPEN {
        return Ok(Front::Closed);
    }
    let Some(head) = whole_head(format, &bytes[1..], left) else {
        return Ok(Front::Damaged);
    };
    let at = gate + GATE_AND_HEAD_BYTES;
    read_parcel(alloc, disk, format, last, at, head, bytes)
}
