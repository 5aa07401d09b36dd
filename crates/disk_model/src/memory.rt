//! A disk in memory. It fails at the calls that it is told to, and else does what it can.

ghost use Rattle.std.specs.Prelude.{◌≡◌, ℕ, ◌+◌, ◌-◌, ◌*◌, ◌^◌, ◌<◌, ◌≤◌, ◌↔◌, ◌⊎◌, ◌++◌, [], ◌∷◌, List, Bool, true};
ghost use Rattle.std.specs.Prelude.{false, length, take, drop, min, max, vec_capacity, IsTrue, IsErr, IfOk, IfSome};
ghost use Rattle.std.specs.Prelude.{OnOk, OnErr, Some, refl};
ghost use Rattle.call_log.specs.Counts.{Rises};
ghost use Rattle.call_log.specs.Calls.{FailsNext};
ghost use Rattle.disk_model.specs.Files.{Gives, written, cut_to};
ghost use Rattle.disk_model.specs.Crashes.{Torn, CutTo, After, Passes, EachSince};
ghost use Rattle.disk_model.specs.Memory.{Wrote, Cut, Synced, new_disk, file_of, HasRoom, Fails, after_passed};
ghost use Rattle.disk_model.specs.Memory.{after_fault, after_done, after_failed, images_of, moment_of, images_since};
ghost use Rattle.disk_model.specs.Memory.{Records, record_size, last_synced};
ghost use Rattle.disk_model.specs.MemoryLaws.{as_read, is_image_since, only_image_now};

use crate::file::write_over;
use crate::record::Record;
use crate::{Disk, Failed, NoMemory};
use call_log::CallLog;
use std::alloc::Global;
use std::marker::Model;

/// A disk whose file is in memory, which it has from the start. It keeps a record of all its writes, cuts and syncs, by
/// which a crash is played.
#[derive(Debug, Drop)]
pub struct MemDisk {
    first: Vec<u8>,
    file: Vec<u8>,
    deeds: Record,
    log: CallLog,
}

impl Model for MemDisk {
    ghost use Rattle.std.specs.Prelude.{◌≤◌, vec_capacity};
    ghost use Rattle.disk_model.specs.Memory.{MemoryState, IsHeld};

    ghost Value = { MemoryState };

    ghost view = { λ d.
        record { first = d.first.items; deeds = d.deeds.deeds; capacity = d.deeds.capacity; calls = d.log } };

    ghost invariant = { λ d.
        IsHeld d.first.items d.file.items d.deeds.deeds d.deeds.capacity
        × (d.deeds.capacity ≤ vec_capacity d.first)
        × (d.deeds.capacity ≤ vec_capacity d.file) };
}

impl MemDisk {
    /// A disk with this file, all of it safe. Its capacity in bytes bounds the file and the record together, in which
    /// each write, cut and sync counts 32 bytes and the bytes that it writes. A call past the capacity fails. All calls
    /// are counted, from 1, and those that `fails` lists fail.
    ///
    /// # Errors
    ///
    /// `NoMemory` where memory was refused.
    pub fn new(
        alloc: Global,
        bytes: &[u8],
        capacity: usize,
        fails: &[u64],
    ) -> Result<MemDisk, NoMemory>
        requires { length bytes.now ≤ capacity }
        ensures { IfOk result (λ disk. disk ≡ new_disk bytes.now capacity fails.now) }
    {
        let mut first = Vec::with_capacity(alloc, capacity)?;
        first.extend_from_slice(bytes).unwrap();
        let mut file = Vec::with_capacity(alloc, capacity)?;
        file.extend_from_slice(bytes).unwrap();
        Ok(MemDisk {
            first,
            file,
            deeds: Record::new(alloc, capacity)?,
            log: CallLog::new(alloc, fails)?,
        })
    }
}

// Where a write of this many bytes ends in a file of this length, or where the file ends, if that is later.
fn end_after(len: usize, at: u64, count: usize) -> u128
    ensures none { count ≡ 0 → result ≡ len }
    ensures some { 0 < count → result ≡ max len (at + count) }
{
    if count == 0 {
        return len as u128;
    }
    (at as u128 + count as u128).max(len as u128)
}

// Whether the record has room for one deed more, which writes this many bytes, beside a file of this length.
fn has_room(deeds: &Record, count: usize, len: u128) -> bool
    requires { len ≤ 2 ^ 66 }
    ensures { IsTrue result ↔ (len + (32 + count + record_size deeds.now.deeds) ≤ deeds.now.capacity) }
{
    let size = 32 + count as u128 + deeds.size() as u128;
    len + size <= deeds.capacity() as u128
}

impl MemDisk {
    fn try_len(&mut self) -> Result<u64, Failed>
        ensures fails { IsErr result ↔ FailsNext self.old.calls }
        ensures given { IfOk result (λ n. n ≡ length (file_of self.old)) }
        ensures passed { OnOk result (self.new ≡ after_passed self.old) }
        ensures failed { OnErr result (self.new ≡ after_fault self.old) }
        ensures counts { self.old.calls.faults ≤ self.new.calls.faults }
        ensures same { (self.new.first ≡ self.old.first) × (self.new.deeds ≡ self.old.deeds) }
    {
        if self.log.fails_next() {
            self.log.fail();
            return Err(Failed);
        }
        self.log.pass();
        Ok(self.file.len() as u64)
    }

    fn try_read(&mut self, at: u64, piece: &mut [u8]) -> Result<usize, Failed>
        ensures fails { IsErr result ↔ FailsNext self.old.calls }
        ensures amount { IfOk result (λ n. n ≡ min (length piece.old) (length (file_of self.old) - at)) }
        ensures piece { IfOk result (λ n. piece.new ≡ take n (drop at (file_of self.old)) ++ drop n piece.old) }
        ensures passed { OnOk result (self.new ≡ after_passed self.old) }
        ensures failed { OnErr result (self.new ≡ after_fault self.old) }
        ensures untouched { OnErr result (piece.new ≡ piece.old) }
        ensures counts { self.old.calls.faults ≤ self.new.calls.faults }
        ensures same { (self.new.first ≡ self.old.first) × (self.new.deeds ≡ self.old.deeds) }
    {
        if self.log.fails_next() {
            self.log.fail();
            return Err(Failed);
        }
        let from = self.file.len().min(at as usize);
        let (_, rest) = self.file.split_at(from);
        let count = rest.len().min(piece.len());
        let (given, _) = rest.split_at(count);
        piece[..count].copy_from_slice(given);
        self.log.pass();
        Ok(count)
    }
}

impl MemDisk {
    fn try_write(&mut self, at: u64, bytes: &[u8]) -> Result<(), Failed>
        ensures fails { IsErr result ↔ Fails self.old (Wrote at bytes.now true) }
        ensures done { OnOk result (self.new ≡ after_done self.old (Wrote at bytes.now true)) }
        ensures no_room { (¬ HasRoom self.old (Wrote at bytes.now true)) → self.new ≡ after_fault self.old }
        ensures failed { OnErr result
            (HasRoom self.old (Wrote at bytes.now true) → self.new ≡ after_failed self.old (Wrote at bytes.now false)) }
        ensures counts { self.old.calls.faults ≤ self.new.calls.faults }
        ensures records { Records self.old self.new (Wrote at bytes.now) }
    {
        let end = end_after(self.file.len(), at, bytes.len());
        if !has_room(&self.deeds, bytes.len(), end) {
            self.log.fail();
            return Err(Failed);
        }
        let done = !self.log.fails_next();
        self.deeds.add_write(at, bytes, done);
        if !done {
            self.log.fail();
            return Err(Failed);
        }
        write_over(&mut self.file, at as usize, bytes);
        self.log.pass();
        Ok(())
    }

    fn try_cut(&mut self, len: u64) -> Result<(), Failed>
        ensures fails { IsErr result ↔ Fails self.old (Cut len true) }
        ensures done { OnOk result (self.new ≡ after_done self.old (Cut len true)) }
        ensures no_room { (¬ HasRoom self.old (Cut len true)) → self.new ≡ after_fault self.old }
        ensures failed { OnErr result
            (HasRoom self.old (Cut len true) → self.new ≡ after_failed self.old (Cut len false)) }
        ensures counts { self.old.calls.faults ≤ self.new.calls.faults }
        ensures records { Records self.old self.new (Cut len) }
    {
        if !has_room(&self.deeds, 0, self.file.len() as u128) {
            self.log.fail();
            return Err(Failed);
        }
        let done = !self.log.fails_next();
        self.deeds.add_cut(len, done);
        if !done {
            self.log.fail();
            return Err(Failed);
        }
        self.file.truncate(len as usize);
        self.log.pass();
        Ok(())
    }

    fn try_sync(&mut self) -> Result<(), Failed>
        ensures fails { IsErr result ↔ Fails self.old (Synced true) }
        ensures done { OnOk result (self.new ≡ after_done self.old (Synced true)) }
        ensures no_room { (¬ HasRoom self.old (Synced true)) → self.new ≡ after_fault self.old }
        ensures failed { OnErr result
            (HasRoom self.old (Synced true) → self.new ≡ after_failed self.old (Synced false)) }
        ensures counts { self.old.calls.faults ≤ self.new.calls.faults }
        ensures records { Records self.old self.new Synced }
    {
        if !has_room(&self.deeds, 0, self.file.len() as u128) {
            self.log.fail();
            return Err(Failed);
        }
        let done = !self.log.fails_next();
        self.deeds.add_sync(done);
        if !done {
            self.log.fail();
            return Err(Failed);
        }
        self.log.pass();
        Ok(())
    }
}

impl MemDisk {
    /// The disk after a crash at this moment. Its file is one of the images, chosen by the pick: 0 loses all that isn't
    /// safe, and each digit in base 5 says what is left of one deed since the last sync. Its capacity is the same, its
    /// record is empty, and no failure is planned.
    pub fn crash(self, pick: u64) -> MemDisk
        ensures image { images_of self result.first }
        ensures all_lost { pick ≡ 0 → result.first ≡ last_synced self.first self.deeds }
        ensures fresh { result ≡ new_disk result.first self.capacity [] }
    {
        let MemDisk {
            first: mut image,
            mut file,
            mut deeds,
            mut log,
        } = self;
        file.clear();
        file.extend_from_slice(&image).unwrap();
        deeds.replay(pick, &mut file, &mut image);
        file.clear();
        file.extend_from_slice(&image).unwrap();
        deeds.start_again();
        log.start_again();
        MemDisk {
            first: image,
            file,
            deeds,
            log,
        }
    }
}

impl Disk for MemDisk {
    ghost reads = { λ disk. Some (file_of disk) };

    ghost leaves = { images_of };

    ghost moment = { moment_of };

    ghost since = { images_since };

    ghost faults = { λ disk. disk.calls.faults };

    fn len(&mut self) -> Result<u64, Failed>
        ensures fails { IsErr result ↔ FailsNext self.old.calls }
        ensures exact { IfOk result (λ n. n ≡ length (file_of self.old)) }
        ensures passed { OnOk result (self.new ≡ after_passed self.old) }
        ensures failed { OnErr result (self.new ≡ after_fault self.old) }

        ensures given { IfOk result (λ n. IfSome (Some (file_of self.old)) (λ file. n ≡ length file)) }
        ensures reads { Some (file_of self.new) ≡ Some (file_of self.old) }
        ensures time { Passes moment_of images_since self.old self.new }
        ensures images { EachSince moment_of images_since self.old self.new (images_of self.old) }
        ensures counts { self.old.calls.faults ≤ self.new.calls.faults }
        ensures cause { OnErr result (Rises self.old.calls.faults self.new.calls.faults) }
    {
        self.try_len()
    }

    fn read_at(&mut self, at: u64, piece: &mut [u8]) -> Result<usize, Failed>
        ensures fails { IsErr result ↔ FailsNext self.old.calls }
        ensures amount { IfOk result (λ n. n ≡ min (length piece.old) (length (file_of self.old) - at)) }
        ensures passed { OnOk result (self.new ≡ after_passed self.old) }
        ensures failed { OnErr result (self.new ≡ after_fault self.old) }
        ensures untouched { OnErr result (piece.new ≡ piece.old) }

        ensures given { IfOk result
            (λ n. IfSome (Some (file_of self.old)) (λ file. Gives file at n piece.old piece.new)) }
        ensures within { IfOk result (λ n. n ≤ length piece.old) }
        ensures reads { Some (file_of self.new) ≡ Some (file_of self.old) }
        ensures time { Passes moment_of images_since self.old self.new }
        ensures images { EachSince moment_of images_since self.old self.new (images_of self.old) }
        ensures counts { self.old.calls.faults ≤ self.new.calls.faults }
        ensures cause { OnErr result (Rises self.old.calls.faults self.new.calls.faults) }
    {
        self.try_read(at, piece)
    }

    fn write_at(&mut self, at: u64, bytes: &[u8]) -> Result<(), Failed>
        ensures fails { IsErr result ↔ Fails self.old (Wrote at bytes.now true) }
        ensures done { OnOk result (self.new ≡ after_done self.old (Wrote at bytes.now true)) }
        ensures no_room { (¬ HasRoom self.old (Wrote at bytes.now true)) → self.new ≡ after_fault self.old }
        ensures failed { OnErr result
            (HasRoom self.old (Wrote at bytes.now true) → self.new ≡ after_failed self.old (Wrote at bytes.now false)) }

        ensures wrote { OnOk result
            (IfSome (Some (file_of self.old)) (λ file. Some (file_of self.new) ≡ Some (written at bytes.now file))) }
        ensures time { Passes moment_of images_since self.old self.new }
        ensures images { EachSince moment_of images_since self.old self.new
            (After (Torn at (length bytes.now)) (images_of self.old)) }
        ensures counts { self.old.calls.faults ≤ self.new.calls.faults }
        ensures cause { OnErr result (Rises self.old.calls.faults self.new.calls.faults) }
    {
        self.try_write(at, bytes)
    }

    fn cut(&mut self, len: u64) -> Result<(), Failed>
        ensures fails { IsErr result ↔ Fails self.old (Cut len true) }
        ensures done { OnOk result (self.new ≡ after_done self.old (Cut len true)) }
        ensures no_room { (¬ HasRoom self.old (Cut len true)) → self.new ≡ after_fault self.old }
        ensures failed { OnErr result
            (HasRoom self.old (Cut len true) → self.new ≡ after_failed self.old (Cut len false)) }

        ensures cut { OnOk result
            (IfSome (Some (file_of self.old)) (λ file. Some (file_of self.new) ≡ Some (cut_to len file))) }
        ensures time { Passes moment_of images_since self.old self.new }
        ensures images { EachSince moment_of images_since self.old self.new (After (CutTo len) (images_of self.old)) }
        ensures counts { self.old.calls.faults ≤ self.new.calls.faults }
        ensures cause { OnErr result (Rises self.old.calls.faults self.new.calls.faults) }
    {
        self.try_cut(len)
    }

    fn sync(&mut self) -> Result<(), Failed>
        ensures fails { IsErr result ↔ Fails self.old (Synced true) }
        ensures done { OnOk result (self.new ≡ after_done self.old (Synced true)) }
        ensures no_room { (¬ HasRoom self.old (Synced true)) → self.new ≡ after_fault self.old }
        ensures failed { OnErr result
            (HasRoom self.old (Synced true) → self.new ≡ after_failed self.old (Synced false)) }

        ensures safe { OnOk result
            ((image : List ℕ) → images_of self.new image → Some (file_of self.new) ≡ Some image) }
        ensures reads { Some (file_of self.new) ≡ Some (file_of self.old) }
        ensures time { Passes moment_of images_since self.old self.new }
        ensures images { EachSince moment_of images_since self.old self.new (images_of self.old) }
        ensures counts { self.old.calls.faults ≤ self.new.calls.faults }
        ensures cause { OnErr result (Rises self.old.calls.faults self.new.calls.faults) }
    {
        self.try_sync()
    }

    ghost as_read = { λ disk file is. as_read disk file is };

    ghost known = { λ disk image left. refl };

    ghost counts_now = { λ disk t image le now. is_image_since disk.first disk.deeds t image le now };

    ghost only_now = { λ disk image since. only_image_now disk.first disk.deeds image since };
}
