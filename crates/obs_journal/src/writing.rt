//! Writes that are safe once they are done.

ghost use Rattle.std.specs.Prelude.{ℕ, List, [], ◌∷◌, ◌≡◌, ◌≤◌, length, IfSome, OnOk, OnErr, Some};
ghost use Rattle.call_log.specs.Counts.{Rises};
ghost use Rattle.disk_model.specs.Files.{written};
ghost use Rattle.disk_model.specs.Crashes.{Torn, After, Passes, EachSince};
ghost use Rattle.obs_journal.specs.Writing.{IsSafe};

use crate::OPEN;
use disk_model::{Disk, Failed};

/// Writes the bytes, and waits until they are safe.
pub(crate) fn write_and_sync<D: Disk>(disk: &mut D, at: u64, bytes: &[u8]) -> Result<(), Failed>
    ensures safe { OnOk result (IsSafe D.reads D.leaves at bytes.now disk.old disk.new) }
    ensures wrote { OnOk result (IfSome (D.reads disk.old)
        (λ file. D.reads disk.new ≡ Some (written at bytes.now file))) }

    ensures time { Passes D.moment D.since disk.old disk.new }
    ensures images { EachSince D.moment D.since disk.old disk.new
        (After (Torn at (length bytes.now)) (D.leaves disk.old)) }
    ensures counts { D.faults disk.old ≤ D.faults disk.new }
    ensures cause { OnErr result (Rises (D.faults disk.old) (D.faults disk.new)) }
{
    disk.write_at(at, bytes)?;
    disk.sync()
}

/// Writes a parcel after the closed gate, with a new closed gate after it, and waits until they are safe.
pub(crate) fn stage<D: Disk>(disk: &mut D, position: u64, bytes: &[u8]) -> Result<(), Failed>
    ensures safe { OnOk result (IsSafe D.reads D.leaves position bytes.now disk.old disk.new) }
    ensures wrote { OnOk result (IfSome (D.reads disk.old)
        (λ file. D.reads disk.new ≡ Some (written position bytes.now file))) }

    ensures time { Passes D.moment D.since disk.old disk.new }
    ensures images { EachSince D.moment D.since disk.old disk.new
        (After (Torn position (length bytes.now)) (D.leaves disk.old)) }
    ensures counts { D.faults disk.old ≤ D.faults disk.new }
    ensures cause { OnErr result (Rises (D.faults disk.old) (D.faults disk.new)) }
{
    write_and_sync(disk, position, bytes)
}

/// Opens the gate at this offset, and waits until that is safe.
pub(crate) fn open_gate<D: Disk>(disk: &mut D, gate: u64) -> Result<(), Failed>
    ensures safe { OnOk result (IsSafe D.reads D.leaves gate (1 ∷ []) disk.old disk.new) }
    ensures wrote { OnOk result (IfSome (D.reads disk.old)
        (λ file. D.reads disk.new ≡ Some (written gate (1 ∷ []) file))) }

    ensures time { Passes D.moment D.since disk.old disk.new }
    ensures images { EachSince D.moment D.since disk.old disk.new (After (Torn gate 1) (D.leaves disk.old)) }
    ensures counts { D.faults disk.old ≤ D.faults disk.new }
    ensures cause { OnErr result (Rises (D.faults disk.old) (D.faults disk.new)) }
{
    write_and_sync(disk, gate, &[OPEN])
}
