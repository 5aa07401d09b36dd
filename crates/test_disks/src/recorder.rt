//! A file of a test's own: it keeps a list of the calls that a disk makes of it, and fails or interrupts those that it
//! is told to.
//!
//! What reads give it keeps apart from what the disk holds. As with Linux, a sync that fails leaves what was written
//! since the last one unwritten and taken for written, so that the next sync doesn't write it, until it is written once
//! more. Its length is always safe.

ghost use Rattle.std.specs.Prelude.{◌≤◌, length, IfOk};

use crate::cases::{Case, Under};
use arrayvec::ArrayString;
use disk_model::{NamedFile, NoMemory, Seen};
use std::alloc::Global;
use std::cell::Cell;
use std::cmp::{max, min};
use std::fmt::Write;
use std::io;
use std::io::ErrorKind;
use std::rc::Rc;

/// What a test sees of a file that a disk owns.
#[derive(Clone, Copy)]
pub struct Log {
    /// The calls so far, the oldest first: a word for each, its offset or length and its count of bytes where it has
    /// them, and "; " after it. A look at what stands under the name is "name", one at what is open is "file".
    pub calls: ArrayString<1_000>,
    /// The front of what the disk holds, and how long it is.
    pub holds: [u8; 16],
    pub held: usize,
}

/// The file.
#[derive(Drop)]
pub struct Recorder {
    case: Case,
    log: Rc<Cell<Log>>,
    made: usize,
    under: Under,
    reads: Vec<u8>,
    holds: Vec<u8>,
    unwritten: Option<(usize, usize)>,
}

fn failure<T>(kind: ErrorKind) -> io::Result<T> {
    Err(io::Error::from(kind))
}

fn make_len(bytes: &mut Vec<u8>, len: usize) -> io::Result<()> {
    match bytes.resize(len, 0) {
        Ok(()) => Ok(()),
        Err(_) => failure(ErrorKind::OutOfMemory),
    }
}

// Copies the bytes from one place up to another, as far as both have them.
fn copy_part(from: &[u8], to: &mut [u8], first: usize, end: usize) {
    for at in first..end {
        if let (Some(&byte), Some(place)) = (from.get(at), to.get_mut(at)) {
            *place = byte;
        }
    }
}

// Copies bytes to the front of a piece, and says how many.
fn copy_front(bytes: &[u8], piece: &mut [u8]) -> usize
    ensures { result ≤ length piece.old }
{
    let count = min(bytes.len(), piece.len());
    piece[..count].copy_from_slice(&bytes[..count]);
    count
}

impl Recorder {
    /// The file of a case, and what is seen of it.
    pub fn new(alloc: Global, case: Case) -> Result<(Recorder, Rc<Cell<Log>>), NoMemory> {
        let empty = Log {
            calls: ArrayString::new(),
            holds: [0; 16],
            held: 0,
        };
        let log = Rc::new(alloc, Cell::new(empty))?;
        let seen = log.clone()?;
        let file = Recorder {
            case,
            log,
            made: 0,
            under: Under::File,
            reads: Vec::from_slice(alloc, case.reads)?,
            holds: Vec::from_slice(alloc, case.holds)?,
            unwritten: None,
        };
        file.show();
        Ok((file, seen))
    }

    // Shows what the disk holds.
    fn show(&self) {
        let mut log = self.log.get();
        log.held = copy_front(self.holds.as_slice(), &mut log.holds);
        self.log.set(log);
    }

    fn file(&self) -> Seen {
        Seen {
            is_regular: true,
            device: 1,
            inode: 7,
            links: 1,
            length: self.reads.len() as u64,
        }
    }

    fn change_name(&mut self) {
        for &(from, under) in self.case.under {
            if from == self.made {
                self.under = under;
            }
        }
    }

    // Notes the call with its numbers. One for which there is no room is missing, which a test finds.
    fn note(&self, call: &str, numbers: &[u64]) {
        let mut log = self.log.get();
        let _ = log.calls.try_push_str(call);
        for number in numbers {
            let _ = write!(log.calls, " {number}");
        }
        let _ = log.calls.try_push_str("; ");
        self.log.set(log);
    }

    // Notes the call, and says whether it fails.
    fn call(&mut self, call: &str, numbers: &[u64]) -> io::Result<()> {
        self.note(call, numbers);
        self.made = self.made.saturating_add(1);
        self.change_name();
        if self.case.fails.contains(&self.made) {
            return failure(ErrorKind::TimedOut);
        }
        if self.case.interrupts.contains(&self.made) {
            return failure(ErrorKind::Interrupted);
        }
        Ok(())
    }

    // Makes the file that long.
    fn make_len(&mut self, len: usize) -> io::Result<()> {
        make_len(&mut self.reads, len)?;
        make_len(&mut self.holds, len)?;
        self.show();
        Ok(())
    }

    // Puts the bytes into what reads give.
    fn put(&mut self, at: usize, bytes: &[u8]) -> io::Result<()> {
        let end = at.saturating_add(bytes.len());
        if self.reads.len() < end {
            self.make_len(end)?;
        }
        for (place, &byte) in bytes.iter().enumerate() {
            if let Some(old) = self.reads.get_mut(at.saturating_add(place)) {
                *old = byte;
            }
        }
        self.unwritten = match self.unwritten {
            Some((first, last)) => Some((min(first, at), max(last, end))),
            None => Some((at, end)),
        };
        Ok(())
    }
}

impl NamedFile for Recorder {
    fn open_folder(&mut self) -> io::Result<()> {
        self.call("folder", &[])
    }

    fn look_at_name(&mut self) -> io::Result<Option<Seen>> {
        self.call("name", &[])?;
        match self.under {
            Under::Nothing => Ok(None),
            Under::File => Ok(Some(self.file())),
            Under::Other(seen) => Ok(Some(seen)),
        }
    }

    fn make(&mut self) -> io::Result<()> {
        self.call("make", &[])?;
        self.under = Under::File;
        Ok(())
    }

    fn open(&mut self) -> io::Result<()> {
        self.call("open", &[])
    }

    fn lock(&mut self) -> io::Result<()> {
        self.call("lock", &[])
    }

    fn look_at_file(&mut self) -> io::Result<Seen> {
        self.call("file", &[])?;
        Ok(self.file())
    }

    fn sync_folder(&mut self) -> io::Result<()> {
        self.call("sync folder", &[])
    }

    // What was written is safe, or where the call fails taken for safe.
    fn sync_file(&mut self) -> io::Result<()> {
        let (first, end) = self.unwritten.take().unwrap_or((0, 0));
        self.call("sync", &[])?;
        copy_part(self.reads.as_slice(), self.holds.as_mut_slice(), first, end);
        self.show();
        Ok(())
    }

    fn drop_pages(&mut self) -> io::Result<()> {
        self.call("drop", &[])?;
        let len = self.holds.len();
        copy_part(self.holds.as_slice(), self.reads.as_mut_slice(), 0, len);
        Ok(())
    }

    fn remove_name(&mut self) -> io::Result<()> {
        self.call("remove", &[])?;
        self.under = Under::Nothing;
        Ok(())
    }

    fn close(&mut self) {
        let _ = self.call("close", &[]);
    }

    fn read_at(&mut self, at: u64, piece: &mut [u8]) -> io::Result<usize>
        ensures within { IfOk result (λ n. n ≤ length piece.old) }
    {
        self.call("read", &[at, piece.len() as u64])?;
        let most = self.case.most;
        match self.reads.get(at as usize..) {
            Some(rest) => Ok(copy_front(&rest[..min(rest.len(), most)], piece)),
            None => Ok(0),
        }
    }

    fn write_at(&mut self, at: u64, bytes: &[u8]) -> io::Result<usize>
        ensures within { IfOk result (λ n. n ≤ length bytes.now) }
    {
        self.call("write", &[at, bytes.len() as u64])?;
        let count = min(bytes.len(), self.case.most);
        self.put(at as usize, &bytes[..count])?;
        Ok(count)
    }

    fn set_len(&mut self, len: u64) -> io::Result<()> {
        self.call("length", &[len])?;
        self.make_len(len as usize)
    }
}
