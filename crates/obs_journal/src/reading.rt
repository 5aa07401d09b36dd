//! What reads give of a file.

ghost use Rattle.std.specs.Prelude.{◌≡◌, ◌≢◌, ◌↔◌, ◌+◌, ◌<◌, ◌≤◌, ◌^◌, ◌++◌, ℕ, List, length, take, drop, slice_index};
ghost use Rattle.std.specs.Prelude.{IfOk, IfSome, IsErrOf, OnOk, OnErr, IsTrue, true, false, Ok, Err, Some};
ghost use Rattle.call_log.specs.Counts.{Rises};
ghost use Rattle.obs_journal.specs.Journals.{IsUnwritten};

use crate::{CLOSED, OPEN, OpenFault, PIECE_BYTES};
use disk_model::{Disk, Failed};

/// Reads whether the gate at this offset is open.
pub(crate) fn reads_open<D: Disk>(disk: &mut D, gate: u64) -> Result<bool, Failed>
    ensures given { IfOk result (λ is_open. IfSome (D.reads disk.old)
        (λ file. IsTrue is_open ↔ (slice_index file gate ≡ 1))) }

    ensures unwritten { IsUnwritten D.reads D.moment D.since disk.old disk.new }
    ensures counts { D.faults disk.old ≤ D.faults disk.new }
    ensures cause { OnErr result (Rises (D.faults disk.old) (D.faults disk.new)) }
{
    let mut byte = [CLOSED];
    let count = disk.read_at(gate, &mut byte)?;
    Ok(count == 1 && byte[0] == OPEN)
}

/// Waits until the file is safe, and reads whether the gate at this offset is open.
pub(crate) fn is_open_for_good<D: Disk>(disk: &mut D, gate: u64) -> Result<bool, Failed>
    ensures given { IfOk result (λ is_open. IfSome (D.reads disk.old)
        (λ file. IsTrue is_open ↔ (slice_index file gate ≡ 1))) }
    ensures safe { OnOk result ((image : List ℕ) → D.leaves disk.new image → D.reads disk.old ≡ Some image) }

    ensures unwritten { IsUnwritten D.reads D.moment D.since disk.old disk.new }
    ensures counts { D.faults disk.old ≤ D.faults disk.new }
    ensures cause { OnErr result (Rises (D.faults disk.old) (D.faults disk.new)) }
{
    disk.sync()?;
    reads_open(disk, gate)
}

/// Puts this many bytes of the file, from this offset on, after those that are there, a piece after the other. False
/// where the file ends before.
pub(crate) fn read_bytes<D: Disk>(
    disk: &mut D,
    at: u64,
    count: usize,
    bytes: &mut Vec<u8>,
) -> Result<bool, OpenFault>
    requires { at + count < 2 ^ 64 }
    ensures whole { result ≡ Ok true → IfSome (D.reads disk.old)
        (λ file. bytes.new.items ≡ bytes.old.items ++ take count (drop at file)) }
    ensures length { result ≡ Ok true → length bytes.new.items ≡ length bytes.old.items + count }
    ensures ends { result ≡ Ok false → IfSome (D.reads disk.old) (λ file. length file < at + count) }

    ensures unwritten { IsUnwritten D.reads D.moment D.since disk.old disk.new }
    ensures counts { D.faults disk.old ≤ D.faults disk.new }
    ensures cause { IsErrOf result OpenFault.DiskFault → Rises (D.faults disk.old) (D.faults disk.new) }
    ensures not_damaged { (file offset : ℕ) → result ≢ Err (OpenFault.Damaged file offset) }
{
    let mut piece = [0; PIECE_BYTES];
    let mut from = at;
    let mut left = count;
    while left > 0 {
        let want = left.min(PIECE_BYTES);
        let got = disk.read_at(from, &mut piece[..want])?;
        if got == 0 {
            return Ok(false);
        }
        bytes.extend_from_slice(&piece[..got])?;
        from += got as u64;
        left -= got;
    }
    Ok(true)
}
