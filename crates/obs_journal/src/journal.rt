//! A journal that is open: parcels are added to it, each with the digest of all up to it, and a parcel in doubt is
//! settled.

ghost use Rattle.std.specs.Prelude.{◌≡◌, ◌≢◌, ◌⊎◌, ◌↔◌, ◌+◌, ◌-◌, ◌<◌, ◌≤◌, ◌^◌, ℕ, List, [], ◌∷◌, ◌++◌, slice_index};
ghost use Rattle.std.specs.Prelude.{if◌then◌else◌, IfOk, IfErr, IfSome, IsSome, OnOk, OnErr, IsErrOf, is_ok, Ok};
ghost use Rattle.std.specs.Prelude.{Some, None};
ghost use Rattle.call_log.specs.Counts.{Rises};
ghost use Rattle.disk_model.specs.Crashes.{During};
ghost use Rattle.obs_journal.specs.Parcels.{RawParcel};
ghost use Rattle.obs_journal.specs.Formats.{room_in, row_length_in, file_of};
ghost use Rattle.obs_journal.specs.declared.format.Format.TheVariants.{Chained};
ghost use Rattle.obs_journal.specs.Opening.{parcels_of, placed_in};
ghost use Rattle.obs_journal.specs.Chains.{IsInForce, IsChain, IsBrokenAt, reached_with};
ghost use Rattle.obs_journal.specs.Journals.{StandsFor, IsUnwritten, opened_disk, carried_disk};
ghost use Rattle.obs_journal.specs.Writing.{appended_in};
ghost use Rattle.obs_journal.specs.Moves.{IsIdle, IsCarriedInto};

use crate::opening::recover_chain;
use crate::reading::is_open_for_good;
use crate::second::carry_row;
use crate::writing::{open_gate, stage};
use crate::{DIGEST_BYTES, OpenFault, Parcel, Parcels};
use disk_model::{Disk, Failed};
use std::alloc::Global;
use std::error::Error;
use std::fmt;
use std::fmt::{Display, Formatter};
use std::marker::Model;

/// Why a parcel was not acknowledged. The disk failed in either case.
#[derive(Clone, Copy, Debug, PartialEq, Eq)]
pub enum AppendFault {
    /// The parcel isn't in the file, and the journal goes on without it.
    Untouched,
    /// The parcel is in doubt: a crash may leave the file with it or without it. `mend` settles that.
    InDoubt,
}

impl Display for AppendFault {
    fn fmt<W: fmt::Write>(&self, f: &mut Formatter<W>) -> fmt::Result {
        f.pad(match self {
            AppendFault::Untouched => "the disk failed, and nothing was added",
            AppendFault::InDoubt =>
                "the disk failed, and it is in doubt whether the parcel was added",
        })
    }
}

impl Error for AppendFault {}

/// What became of the parcel in doubt.
#[derive(Clone, Copy, Debug, PartialEq, Eq)]
pub enum Settled {
    /// No parcel was in doubt.
    Nothing,
    /// Its gate is open: it counts.
    Added,
    /// Its gate is closed: it doesn't count.
    Dropped,
}

/// Where a chain stands.
#[derive(Clone, Copy, Debug)]
pub(crate) struct Reached {
    /// The bytes up to and with the closed gate.
    pub(crate) position: u64,
    /// The digest of the last parcel; zeros before the first.
    pub(crate) last: [u8; DIGEST_BYTES],
}

/// An open journal: a second file in force.
#[derive(Debug, Drop)]
pub struct Journal<D: Disk> {
    disk: D,
    reached: Reached,
    // while a parcel is in doubt: where the chain stands once it is added
    in_doubt: Option<Reached>,
}

impl<D: Disk> Model for Journal<D> {
    ghost use Rattle.std.specs.Prelude.{◌<◌, IfSome};
    ghost use Rattle.obs_journal.specs.Journals.{JournalState};

    ghost Value = { JournalState D };

    ghost view = { λ j. record { disk = j.disk; reached = j.reached; in_doubt = j.in_doubt } };

    ghost invariant = { λ j. (0 < j.reached.position) × IfSome j.in_doubt (λ after. 0 < after.position) };
}

impl<D: Disk> Journal<D> {
    /// Opens the journal on a disk that is in force, as `in_force` tells: waits until the file is safe, and reads its
    /// parcels from the front, each with its digest. Nothing is written.
    ///
    /// # Errors
    /// The disk comes back beside the fault: `DiskFault` where the disk failed, `Damaged` in file 2 where the file
    /// spells no list of parcels, with the offset of the gate where it stops, `NoMemory` where memory was refused.
    pub fn open(alloc: Global, mut disk: D) -> Result<(Journal<D>, Parcels), (OpenFault, D)>
        requires in_force { IfSome (D.reads disk) IsInForce }

        ensures spelled { IfOk result (λ opened. IfSome (D.reads disk)
            (λ file. IsChain file (parcels_of opened.1))) }
        ensures offsets { IfOk result (λ opened. opened.1 ≡ placed_in Chained 1 (parcels_of opened.1)) }
        ensures stands { IfOk result (λ opened. StandsFor D.leaves opened.0 (parcels_of opened.1) None) }

        ensures damaged { IfErr result (λ failed. (file offset : ℕ) → failed.0 ≡ OpenFault.Damaged file offset →
            (file ≡ 2) × IfSome (D.reads disk) (λ bytes. IsBrokenAt bytes offset)) }
        // Where each image of a disk with known reads spells a list, nothing is damaged.
        ensures sound { IfErr result (λ failed. (file offset : ℕ) → failed.0 ≡ OpenFault.Damaged file offset →
            IsSome (D.reads disk) →
            ((image : List ℕ) → D.leaves disk image → (parcels : List RawParcel) × IsChain image parcels) → ⊥) }

        // So a crash at any moment of the call leaves what it could leave before.
        ensures unwritten { IsUnwritten D.reads D.moment D.since disk (opened_disk result) }
        ensures counts { D.faults disk ≤ D.faults (opened_disk result) }
        ensures cause { IfErr result (λ failed. failed.0 ≡ OpenFault.DiskFault →
            Rises (D.faults disk) (D.faults failed.1)) }
    {
        match recover_chain(alloc, &mut disk) {
            Ok((parcels, reached)) => {
                let journal = Journal {
                    disk,
                    reached,
                    in_doubt: None,
                };
                Ok((journal, parcels))
            }
            Err(fault) => Err((fault, disk)),
        }
    }

    /// Carries parcels into a second file that isn't in force, as `carry` does, and is the open journal of it. It takes
    /// no memory.
    ///
    /// # Errors
    /// The disk comes back where it failed.
    pub fn carried(parcels: &Parcels, mut disk: D) -> Result<Journal<D>, D>
        requires safe { (image : List ℕ) → D.leaves disk image → D.reads disk ≡ Some image }
        requires idle { IfSome (D.reads disk) IsIdle }
        requires space { row_length_in Chained (parcels_of parcels.now) + 2 < 2 ^ 64 }

        ensures stands { IfOk result (λ journal. StandsFor D.leaves journal (parcels_of parcels.now) None) }
        ensures file { IfOk result (λ journal. IfSome (D.reads disk) (λ _.
            D.reads journal.disk ≡ Some (file_of Chained (parcels_of parcels.now) (0 ∷ [])))) }
        ensures any_moment { During D.moment D.since disk (carried_disk result)
            (IsCarriedInto (D.reads disk) (parcels_of parcels.now)) }
        ensures counts { D.faults disk ≤ D.faults (carried_disk result) }
        ensures cause { IfErr result (λ failed. Rises (D.faults disk) (D.faults failed)) }
    {
        match carry_row(parcels, &mut disk) {
            Ok(reached) => Ok(Journal {
                disk,
                reached,
                in_doubt: None,
            }),
            Err(Failed) => Err(disk),
        }
    }

    /// How many bytes of the file count: those up to and with the closed gate.
    pub fn position(&self) -> u64
        ensures { result ≡ self.now.reached.position }
    {
        self.reached.position
    }

    /// Gives the disk back, also with a parcel in doubt. No device is called.
    pub fn close(self) -> D
        ensures { result ≡ self.disk }
    {
        let Journal { disk, .. } = self;
        disk
    }

    /// Adds a parcel. Once it is acknowledged, a crash at any later moment leaves a file that has it. No memory is
    /// taken.
    ///
    /// # Errors
    /// `Untouched` where the disk failed before the parcel's gate was written, `InDoubt` where it failed then.
    pub fn append(&mut self, parcel: Parcel) -> Result<(), AppendFault>
        requires settled { self.old.in_doubt ≡ None }
        requires space { self.old.reached.position + room_in Chained parcel < 2 ^ 64 }

        ensures added { OnOk result ((parcels : List RawParcel) → StandsFor D.leaves self.old parcels None →
            StandsFor D.leaves self.new (parcels ++ parcel ∷ []) None) }
        ensures untouched { IsErrOf result AppendFault.Untouched → (parcels : List RawParcel) →
            StandsFor D.leaves self.old parcels None → StandsFor D.leaves self.new parcels None }
        ensures in_doubt { IsErrOf result AppendFault.InDoubt → (parcels : List RawParcel) →
            StandsFor D.leaves self.old parcels None → StandsFor D.leaves self.new parcels (Some parcel) }

        // What is written: the parcel with its digest and the closed gate 0 after it, and the parcel's own gate 1.
        ensures file { OnOk result (IfSome (D.reads self.old.disk) (λ file. D.reads self.new.disk ≡
            Some (appended_in Chained self.old.reached.last parcel self.old.reached.position file))) }

        // A crash at any moment of the call leaves the parcels from before it, with the new one or without.
        ensures any_moment { (parcels : List RawParcel) → StandsFor D.leaves self.old parcels None →
            During D.moment D.since self.old.disk self.new.disk
            (λ image. IsChain image parcels ⊎ IsChain image (parcels ++ parcel ∷ [])) }

        ensures position { self.new.reached.position ≡ (if is_ok result
            then self.old.reached.position + room_in Chained parcel else self.old.reached.position) }
        ensures reached { self.new.reached ≡
            (if is_ok result then reached_with self.old.reached parcel else self.old.reached) }
        ensures doubt { IsErrOf result AppendFault.InDoubt →
            self.new.in_doubt ≡ Some (reached_with self.old.reached parcel) }
        ensures no_doubt { (IsErrOf result AppendFault.InDoubt → ⊥) → self.new.in_doubt ≡ None }
        ensures counts { D.faults self.old.disk ≤ D.faults self.new.disk }
        ensures cause { OnErr result (Rises (D.faults self.old.disk) (D.faults self.new.disk)) }
    {
        let position = self.reached.position;
        let sealed = parcel.sealed(&self.reached.last);
        let after = Reached {
            position: position + sealed.bytes.len() as u64,
            last: sealed.digest,
        };
        let Ok(()) = stage(&mut self.disk, position, &sealed.bytes) else {
            return Err(AppendFault::Untouched);
        };
        let Ok(()) = open_gate(&mut self.disk, position - 1) else {
            self.in_doubt = Some(after);
            return Err(AppendFault::InDoubt);
        };
        self.reached = after;
        Ok(())
    }

    /// Settles the parcel in doubt: waits until the file is safe, and reads the parcel's gate. With nothing in doubt
    /// no device is called. Nothing is written.
    ///
    /// # Errors
    /// `Failed` where the disk failed. The doubt stays.
    pub fn mend(&mut self) -> Result<Settled, Failed>
        ensures nothing { (result ≡ Ok Settled.Nothing) ↔ (self.old.in_doubt ≡ None) }
        ensures no_call { self.old.in_doubt ≡ None → self.new ≡ self.old }

        ensures added_where_open { result ≡ Ok Settled.Added →
            IfSome (D.reads self.old.disk) (λ file. slice_index file (self.old.reached.position - 1) ≡ 1) }
        ensures dropped_where_closed { result ≡ Ok Settled.Dropped →
            IfSome (D.reads self.old.disk) (λ file. slice_index file (self.old.reached.position - 1) ≢ 1) }
        ensures added { result ≡ Ok Settled.Added → (parcels : List RawParcel) (doubt : RawParcel) →
            StandsFor D.leaves self.old parcels (Some doubt) →
            StandsFor D.leaves self.new (parcels ++ doubt ∷ []) None }
        ensures dropped { result ≡ Ok Settled.Dropped → (parcels : List RawParcel) (doubt : RawParcel) →
            StandsFor D.leaves self.old parcels (Some doubt) → StandsFor D.leaves self.new parcels None }
        ensures still_in_doubt { OnErr result ((parcels : List RawParcel) (doubt : RawParcel) →
            StandsFor D.leaves self.old parcels (Some doubt) →
            StandsFor D.leaves self.new parcels (Some doubt)) }

        ensures after { IfOk result (λ settled. (self.new.in_doubt ≡ None)
            × (settled ≡ Settled.Added → self.old.in_doubt ≡ Some self.new.reached)
            × (settled ≡ Settled.Dropped → self.new.reached ≡ self.old.reached)) }
        ensures as_before { OnErr result ((self.new.in_doubt ≡ self.old.in_doubt)
            × (self.new.reached ≡ self.old.reached)) }
        ensures unwritten { IsUnwritten D.reads D.moment D.since self.old.disk self.new.disk }
        ensures counts { D.faults self.old.disk ≤ D.faults self.new.disk }
        ensures cause { OnErr result (Rises (D.faults self.old.disk) (D.faults self.new.disk)) }
    {
        let Some(after) = self.in_doubt else {
            return Ok(Settled::Nothing);
        };
        let is_open = is_open_for_good(&mut self.disk, self.reached.position - 1)?;
        self.in_doubt = None;
        if !is_open {
            return Ok(Settled::Dropped);
        }
        self.reached = after;
        Ok(Settled::Added)
    }
}
