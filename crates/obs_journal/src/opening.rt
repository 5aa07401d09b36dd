//! Opening a file: it is read from the front, and a fresh first one gets its gate.

ghost use Rattle.std.specs.Prelude.{◌≡◌, ◌≢◌, ◌↔◌, ◌+◌, ◌<◌, ◌≤◌, ◌∷◌, [], ℕ, List, length, IfOk, IfSome, IsErr};
ghost use Rattle.std.specs.Prelude.{IsErrOf, IsSome, OnErr, OnOk, IsTrue, true, false, Ok, Err, Some};
ghost use Rattle.call_log.specs.Counts.{Rises};
ghost use Rattle.disk_model.specs.Crashes.{During};
ghost use Rattle.obs_journal.specs.Files.{IsFresh, IsRow, IsRowIn, Spells, HasHead, IsBrokenIn, IsDamagedAt};
ghost use Rattle.obs_journal.specs.Parcels.{RawParcel};
ghost use Rattle.obs_journal.specs.Formats.{file_number, head, first_seal, last_seal, front_length, kept_seal};
ghost use Rattle.obs_journal.specs.Chains.{IsInForce, IsChain, IsBrokenAt, reached_after};
ghost use Rattle.obs_journal.specs.Journals.{IsUnwritten};
ghost use Rattle.obs_journal.specs.Opening.{parcels_of, placed_in, placed_from, SpellsAlike};

use crate::format::Format;
use crate::gates::{Front, read_front};
use crate::journal::Reached;
use crate::reading::reads_open;
use crate::writing::write_and_sync;
use crate::{CLOSED, DIGEST_BYTES, OpenFault, Parcel};
use disk_model::{Disk, Failed};
use item_list::ItemList;
use std::alloc::Global;

/// A parcel of the file.
#[derive(Debug, Drop)]
pub struct Placed {
    /// The offset of its gate.
    pub offset: u64,
    /// The parcel.
    pub parcel: Parcel,
}

/// The parcels of a file, in its order.
pub type Parcels = ItemList<Placed>;

// Reads the row of gates of a file that ends at `end`: its parcels, and where it stands after them.
fn read_row<D: Disk>(
    alloc: Global,
    disk: &mut D,
    format: Format,
    end: u64,
) -> Result<(Parcels, Reached), OpenFault>
    requires some { length (head format) < end }
    requires head { IfSome (D.reads disk.old) (λ file. HasHead format file) }
    ensures row { IfOk result (λ row. IfSome (D.reads disk.old) (λ file. length file ≡ end →
        IsRowIn format file (parcels_of row.0))) }
    ensures offsets { IfOk result (λ row. row.0 ≡ placed_in format (length (head format)) (parcels_of row.0)) }
    ensures position { IfOk result (λ row. row.1.position ≡ front_length format (parcels_of row.0) + 1) }
    ensures last { IfOk result (λ row.
        kept_seal format row.1.last ≡ last_seal format (first_seal format) (parcels_of row.0)) }
    ensures damaged { (file offset : ℕ) → result ≡ Err (OpenFault.Damaged file offset) → (file ≡ file_number format)
        × IfSome (D.reads disk.old) (λ bytes. length bytes ≡ end → IsBrokenIn format bytes offset) }

    ensures unwritten { IsUnwritten D.reads D.moment D.since disk.old disk.new }
    ensures counts { D.faults disk.old ≤ D.faults disk.new }
    ensures cause { IsErrOf result OpenFault.DiskFault → Rises (D.faults disk.old) (D.faults disk.new) }
{
    let mut bytes = Vec::new(alloc);
    let mut parcels = Parcels::new(alloc);
    let mut gate = format.head_bytes();
    let mut last = [0; DIGEST_BYTES];
    'gates: loop {
        match read_front(alloc, disk, format, &last, gate, end, &mut bytes)? {
            Front::Closed => {
                let position = gate + 1;
                return Ok((parcels, Reached { position, last }));
            }
            Front::Damaged => {
                let file = format.file_number();
                return Err(OpenFault::Damaged { file, offset: gate });
            }
            Front::Open { parcel, digest } => {
                let next = gate + format.room(&parcel);
                parcels.push(Placed {
                    offset: gate,
                    parcel,
                })?;
                gate = next;
                last = digest;
            }
        }
    }
}

// Whether nothing was added to the file yet, which ends at `end`.
fn is_fresh<D: Disk>(disk: &mut D, end: u64) -> Result<bool, Failed>
    ensures fresh { IfOk result (λ is_fresh. IfSome (D.reads disk.old) (λ file. length file ≡ end →
        (IsTrue is_fresh ↔ IsFresh file))) }
    ensures some { result ≡ Ok false → 0 < end }

    ensures unwritten { IsUnwritten D.reads D.moment D.since disk.old disk.new }
    ensures counts { D.faults disk.old ≤ D.faults disk.new }
    ensures cause { OnErr result (Rises (D.faults disk.old) (D.faults disk.new)) }
{
    if end != 1 {
        return Ok(end == 0);
    }
    reads_open(disk, 0)
}

/// Waits until the file is safe, and gives its length.
pub(crate) fn safe_end<D: Disk>(disk: &mut D) -> Result<u64, Failed>
    ensures end { IfOk result (λ end. IfSome (D.reads disk.old) (λ file. length file ≡ end)) }
    ensures safe { OnOk result ((image : List ℕ) → D.leaves disk.new image → D.reads disk.old ≡ Some image) }

    ensures unwritten { IsUnwritten D.reads D.moment D.since disk.old disk.new }
    ensures counts { D.faults disk.old ≤ D.faults disk.new }
    ensures cause { OnErr result (Rises (D.faults disk.old) (D.faults disk.new)) }
{
    disk.sync()?;
    disk.len()
}

/// Opens a first file, over a disk that stays the caller's: waits until it is safe, reads its parcels from the front,
/// and puts a closed gate into a fresh one. A file is fresh where it is empty or the one byte 1.
///
/// # Errors
/// `DiskFault` where the disk failed, `Damaged` in file 1 where the file spells no list of parcels, with the offset of
/// the gate where it stops, `NoMemory` where memory was refused.
pub fn open_first<D: Disk>(alloc: Global, disk: &mut D) -> Result<Parcels, OpenFault>
    ensures spelled { IfOk result (λ parcels. IfSome (D.reads disk.old) (λ file. Spells file (parcels_of parcels))) }
    ensures offsets { IfOk result (λ parcels. parcels ≡ placed_from 0 (parcels_of parcels)) }
    ensures rows { IfOk result (λ parcels. (image : List ℕ) → D.leaves disk.new image →
        IsRow image (parcels_of parcels)) }

    ensures damaged { (file offset : ℕ) → result ≡ Err (OpenFault.Damaged file offset) →
        (file ≡ 1) × IfSome (D.reads disk.old) (λ bytes. IsDamagedAt bytes offset) }
    // Where each image of a disk with known reads spells a list, nothing is damaged.
    ensures sound { (file offset : ℕ) → result ≡ Err (OpenFault.Damaged file offset) → IsSome (D.reads disk.old) →
        ((image : List ℕ) → D.leaves disk.old image → (parcels : List RawParcel) × Spells image parcels) → ⊥ }

    ensures fresh { OnOk result (IfSome (D.reads disk.old) (λ file.
        IsFresh file → D.reads disk.new ≡ Some (0 ∷ []))) }
    ensures kept { OnOk result (IfSome (D.reads disk.old) (λ file. (IsFresh file → ⊥) →
        IsUnwritten D.reads D.moment D.since disk.old disk.new)) }

    // A crash at any moment of the call leaves what it could leave before, or the same parcels.
    ensures any_moment { During D.moment D.since disk.old disk.new (SpellsAlike (D.reads disk.old)) }
    ensures unwritten { IsErr result → result ≢ Err OpenFault.DiskFault →
        IsUnwritten D.reads D.moment D.since disk.old disk.new }
    ensures counts { D.faults disk.old ≤ D.faults disk.new }
    ensures cause { result ≡ Err OpenFault.DiskFault → Rises (D.faults disk.old) (D.faults disk.new) }
{
    let end = safe_end(disk)?;
    if !is_fresh(disk, end)? {
        let (parcels, _reached) = read_row(alloc, disk, Format::Plain, end)?;
        return Ok(parcels);
    }
    write_and_sync(disk, 0, &[CLOSED])?;
    Ok(Parcels::new(alloc))
}

/// Reads a chained file that is in force: its parcels, and where the chain stands after them. Nothing is written.
pub(crate) fn recover_chain<D: Disk>(
    alloc: Global,
    disk: &mut D,
) -> Result<(Parcels, Reached), OpenFault>
    requires { IfSome (D.reads disk.old) IsInForce }
    ensures spelled { IfOk result (λ row. IfSome (D.reads disk.old) (λ file. IsChain file (parcels_of row.0))) }
    ensures offsets { IfOk result (λ row. row.0 ≡ placed_in Format.Chained 1 (parcels_of row.0)) }
    ensures reached { IfOk result (λ row. row.1 ≡ reached_after (parcels_of row.0)) }
    ensures chains { IfOk result (λ row. (image : List ℕ) → D.leaves disk.new image →
        IsChain image (parcels_of row.0)) }
    ensures damaged { (file offset : ℕ) → result ≡ Err (OpenFault.Damaged file offset) →
        (file ≡ 2) × IfSome (D.reads disk.old) (λ bytes. IsBrokenAt bytes offset) }

    ensures unwritten { IsUnwritten D.reads D.moment D.since disk.old disk.new }
    ensures counts { D.faults disk.old ≤ D.faults disk.new }
    ensures cause { result ≡ Err OpenFault.DiskFault → Rises (D.faults disk.old) (D.faults disk.new) }
{
    let end = safe_end(disk)?;
    if end < 2 {
        let file = Format::Chained.file_number();
        return Err(OpenFault::Damaged { file, offset: 1 });
    }
    read_row(alloc, disk, Format::Chained, end)
}
