//! A disk over a real file. Nothing of its content is known to a proof: that it keeps the model is trusted.

ghost use Rattle.std.specs.Prelude.{◌≡◌, ℕ, ◌≤◌, List, length, true, false, IfOk, IfSome, OnOk, OnErr, IsErr, Ok, Some};
ghost use Rattle.call_log.specs.Counts.{Rises, one_more};
ghost use Rattle.disk_model.specs.Files.{Gives, written, cut_to};
ghost use Rattle.disk_model.specs.Crashes.{Torn, CutTo, After, Passes, EachSince};
ghost use Rattle.disk_model.specs.Real.{untold, unread, no_image, no_image_since, no_moment};

use crate::named_file::{NamedFile, SystemFile};
use crate::opened::{Opened, read_some};
use crate::{Disk, Failed};
use std::fs::File;
use std::io;
use std::marker::Model;
use std::rt::Files;

/// A file under a name. It is opened at the first call, and made where it isn't there. As long as the disk lives it
/// holds an exclusive lock of the file, so that a second one on the same file gets a fault.
///
/// What is no regular file is a fault, and stays as it is. So is a file that was removed, renamed, replaced or cut
/// beside the disk, at the next write and the next sync. After a write, a cut or a sync that failed, the next sync
/// writes again what was written since the last one that succeeded.
///
/// It tells nothing of its content, and counts each error as a fault. It keeps the last one, for people to read: that
/// it is the last is no clause, since nothing is known of what a system says. An offset past 2^63 - 1 is an error of
/// the system.
#[derive(Debug, Drop)]
pub struct FileDisk<F: NamedFile> {
    file: F,
    opened: Option<Opened>,
    faults: u64,
    last_error: Option<io::Error>,
}

impl<F: NamedFile> Model for FileDisk<F> {
    ghost use Rattle.std.specs.Prelude.{is_some};
    ghost use Rattle.disk_model.specs.Real.{FileState};

    ghost Value = { FileState };

    ghost view = { λ disk. record { is_open = is_some disk.opened; faults = disk.faults } };
}

impl<R: Files<File = File> + Copy> FileDisk<SystemFile<R>> {
    /// A disk over the file of this name in the current folder. It isn't opened yet.
    pub fn new(system: R, name: &'static str) -> FileDisk<SystemFile<R>>
        ensures { result ≡ record { is_open = false; faults = 0 } }
    {
        FileDisk::over(SystemFile::new(system, name))
    }
}

impl<F: NamedFile> FileDisk<F> {
    /// A disk over this file, of which nothing is open.
    pub fn over(file: F) -> FileDisk<F>
        ensures { result ≡ record { is_open = false; faults = 0 } }
    {
        FileDisk {
            file,
            opened: None,
            faults: 0,
            last_error: None,
        }
    }

    /// How often it failed.
    pub fn faults(&self) -> u64
        ensures { result ≡ self.now.faults }
    {
        self.faults
    }

    /// Why it failed the last time, in the system's words or its own; None where it never failed.
    pub fn last_error(&self) -> Option<io::Error> {
        self.last_error
    }

    // Opens the file, if it isn't open. Where that fails nothing stays open, and the next call begins anew.
    fn open(&mut self) -> io::Result<()>
        ensures opened { OnOk result (self.new ≡ record self.old { is_open = true }) }
        ensures unopened { OnErr result (self.new ≡ self.old) }
    {
        if self.opened.is_some() {
            return Ok(());
        }
        match Opened::open(&mut self.file) {
            Ok(opened) => {
                self.opened = Some(opened);
                Ok(())
            }
            Err(error) => {
                self.file.close();
                Err(error)
            }
        }
    }

    fn try_len(&mut self) -> io::Result<u64>
        ensures faults { self.new.faults ≡ self.old.faults }
        ensures opened { OnOk result (self.new.is_open ≡ true) }
        ensures stays { self.old.is_open ≡ true → self.new.is_open ≡ true }
    {
        self.open()?;
        let Some(opened) = &mut self.opened else {
            unreachable!();
        };
        opened.len(&mut self.file)
    }

    fn try_read(&mut self, at: u64, piece: &mut [u8]) -> io::Result<usize>
        ensures within { IfOk result (λ n. n ≤ length piece.old) }
        ensures faults { self.new.faults ≡ self.old.faults }
        ensures opened { OnOk result (self.new.is_open ≡ true) }
        ensures stays { self.old.is_open ≡ true → self.new.is_open ≡ true }
    {
        self.open()?;
        read_some(&mut self.file, at, piece)
    }

    fn try_write(&mut self, at: u64, bytes: &[u8]) -> io::Result<()>
        ensures faults { self.new.faults ≡ self.old.faults }
        ensures opened { OnOk result (self.new.is_open ≡ true) }
        ensures stays { self.old.is_open ≡ true → self.new.is_open ≡ true }
    {
        self.open()?;
        let Some(opened) = &mut self.opened else {
            unreachable!();
        };
        opened.write(&mut self.file, at, bytes)
    }

    fn try_cut(&mut self, len: u64) -> io::Result<()>
        ensures faults { self.new.faults ≡ self.old.faults }
        ensures opened { OnOk result (self.new.is_open ≡ true) }
        ensures stays { self.old.is_open ≡ true → self.new.is_open ≡ true }
    {
        self.open()?;
        let Some(opened) = &mut self.opened else {
            unreachable!();
        };
        opened.cut(&mut self.file, len)
    }

    fn try_sync(&mut self) -> io::Result<()>
        ensures faults { self.new.faults ≡ self.old.faults }
        ensures opened { OnOk result (self.new.is_open ≡ true) }
        ensures stays { self.old.is_open ≡ true → self.new.is_open ≡ true }
    {
        self.open()?;
        let Some(opened) = &mut self.opened else {
            unreachable!();
        };
        opened.sync(&mut self.file)
    }
}

// The answer, with each error counted, and the last one kept.
fn counted<T: Drop>(
    answer: io::Result<T>,
    faults: &mut u64,
    last: &mut Option<io::Error>,
) -> Result<T, Failed>
    ensures passed { IfOk answer (λ value. result ≡ Ok value) }
    ensures same { OnOk answer (faults.new ≡ faults.old) }
    ensures failed { OnErr answer (IsErr result) }
    ensures more { OnErr answer (faults.new ≡ one_more faults.old) }
    ensures counts { faults.old ≤ faults.new }
{
    match answer {
        Ok(value) => Ok(value),
        Err(error) => {
            *faults = faults.saturating_add(1);
            *last = Some(error);
            Err(Failed)
        }
    }
}

impl<F: NamedFile> Disk for FileDisk<F> {
    ghost reads = { unread };

    ghost leaves = { no_image };

    ghost moment = { no_moment };

    ghost since = { no_image_since };

    ghost faults = { λ disk. disk.faults };

    fn len(&mut self) -> Result<u64, Failed>
        ensures opened { OnOk result (self.new ≡ record self.old { is_open = true }) }
        ensures failed { OnErr result (self.new.faults ≡ one_more self.old.faults) }
        ensures stays { self.old.is_open ≡ true → self.new.is_open ≡ true }

        ensures given { IfOk result (λ n. IfSome (unread self.old) (λ file. n ≡ length file)) }
        ensures reads { unread self.new ≡ unread self.old }
        ensures time { Passes no_moment no_image_since self.old self.new }
        ensures images { EachSince no_moment no_image_since self.old self.new (no_image self.old) }
        ensures counts { self.old.faults ≤ self.new.faults }
        ensures cause { OnErr result (Rises self.old.faults self.new.faults) }
    {
        let answer = self.try_len();
        counted(answer, &mut self.faults, &mut self.last_error)
    }

    fn read_at(&mut self, at: u64, piece: &mut [u8]) -> Result<usize, Failed>
        ensures opened { OnOk result (self.new ≡ record self.old { is_open = true }) }
        ensures failed { OnErr result (self.new.faults ≡ one_more self.old.faults) }
        ensures stays { self.old.is_open ≡ true → self.new.is_open ≡ true }

        ensures given { IfOk result (λ n. IfSome (unread self.old) (λ file. Gives file at n piece.old piece.new)) }
        ensures within { IfOk result (λ n. n ≤ length piece.old) }
        ensures reads { unread self.new ≡ unread self.old }
        ensures time { Passes no_moment no_image_since self.old self.new }
        ensures images { EachSince no_moment no_image_since self.old self.new (no_image self.old) }
        ensures counts { self.old.faults ≤ self.new.faults }
        ensures cause { OnErr result (Rises self.old.faults self.new.faults) }
    {
        let answer = self.try_read(at, piece);
        counted(answer, &mut self.faults, &mut self.last_error)
    }

    fn write_at(&mut self, at: u64, bytes: &[u8]) -> Result<(), Failed>
        ensures opened { OnOk result (self.new ≡ record self.old { is_open = true }) }
        ensures failed { OnErr result (self.new.faults ≡ one_more self.old.faults) }
        ensures stays { self.old.is_open ≡ true → self.new.is_open ≡ true }

        ensures wrote { OnOk result
            (IfSome (unread self.old) (λ file. unread self.new ≡ Some (written at bytes.now file))) }
        ensures time { Passes no_moment no_image_since self.old self.new }
        ensures images { EachSince no_moment no_image_since self.old self.new
            (After (Torn at (length bytes.now)) (no_image self.old)) }
        ensures counts { self.old.faults ≤ self.new.faults }
        ensures cause { OnErr result (Rises self.old.faults self.new.faults) }
    {
        let answer = self.try_write(at, bytes);
        counted(answer, &mut self.faults, &mut self.last_error)
    }

    fn cut(&mut self, len: u64) -> Result<(), Failed>
        ensures opened { OnOk result (self.new ≡ record self.old { is_open = true }) }
        ensures failed { OnErr result (self.new.faults ≡ one_more self.old.faults) }
        ensures stays { self.old.is_open ≡ true → self.new.is_open ≡ true }

        ensures cut { OnOk result (IfSome (unread self.old) (λ file. unread self.new ≡ Some (cut_to len file))) }
        ensures time { Passes no_moment no_image_since self.old self.new }
        ensures images { EachSince no_moment no_image_since self.old self.new (After (CutTo len) (no_image self.old)) }
        ensures counts { self.old.faults ≤ self.new.faults }
        ensures cause { OnErr result (Rises self.old.faults self.new.faults) }
    {
        let answer = self.try_cut(len);
        counted(answer, &mut self.faults, &mut self.last_error)
    }

    fn sync(&mut self) -> Result<(), Failed>
        ensures opened { OnOk result (self.new ≡ record self.old { is_open = true }) }
        ensures failed { OnErr result (self.new.faults ≡ one_more self.old.faults) }
        ensures stays { self.old.is_open ≡ true → self.new.is_open ≡ true }

        ensures safe { OnOk result ((image : List ℕ) → no_image self.new image → unread self.new ≡ Some image) }
        ensures reads { unread self.new ≡ unread self.old }
        ensures time { Passes no_moment no_image_since self.old self.new }
        ensures images { EachSince no_moment no_image_since self.old self.new (no_image self.old) }
        ensures counts { self.old.faults ≤ self.new.faults }
        ensures cause { OnErr result (Rises self.old.faults self.new.faults) }
    {
        let answer = self.try_sync();
        counted(answer, &mut self.faults, &mut self.last_error)
    }

    ghost as_read = { λ disk file is. untold file is };

    ghost known = { λ disk image left. absurd left };

    ghost counts_now = { λ disk t image le now. now };

    ghost only_now = { λ disk image since. since };
}
