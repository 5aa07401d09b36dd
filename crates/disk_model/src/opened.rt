//! The file that a disk has open: what is known of it, and what of it isn't safe.

ghost use Rattle.std.specs.Prelude.{◌≤◌, length, IfOk, IfSome};

use crate::named_file::{NamedFile, Seen};
use std::cmp::{max, min};
use std::io;
use std::io::ErrorKind;

// How many bytes are read and written again at once.
const PIECE: usize = 4096;

// A part of the file, from its first byte to its end.
#[derive(Clone, Copy, Debug)]
struct Span {
    first: u64,
    end: u64,
}

// The least span that holds this part and that one.
fn joined(part: Option<Span>, first: u64, end: u64) -> Span
    ensures first { result.first ≤ first }
    ensures end { end ≤ result.end }
    ensures part { IfSome part (λ old. (result.first ≤ old.first) × (old.end ≤ result.end)) }
{
    match part {
        Some(old) => Span {
            first: min(old.first, first),
            end: max(old.end, end),
        },
        None => Span { first, end },
    }
}

// What is known of the file that is open. Its length is at least `reaches`, unless somebody else cut it: that is what
// was seen when it was opened and what the system has taken since.
//
// Linux takes what it couldn't write for written: after a sync that failed, the next one succeeds and writes nothing of
// it, while reads go on to give it. So what was written since the last sync that succeeded is known as one span. After
// a failure it is read and written again before the next sync, so that this one writes it.
#[derive(Debug, Drop)]
pub struct Opened {
    device: u64,
    inode: u64,
    reaches: u64,
    written: Option<Span>,
    has_failed: bool,
}

// Reads once, and again after an interrupt.
pub fn read_some<F: NamedFile>(file: &mut F, at: u64, piece: &mut [u8]) -> io::Result<usize>
    ensures { IfOk result (λ n. n ≤ length piece.old) }
{
    for _ in 0..u64::MAX {
        match file.read_at(at, piece) {
            Err(error) if error.kind() == ErrorKind::Interrupted => {}
            answer => return answer,
        }
    }
    Err(io::Error::from(ErrorKind::Interrupted))
}

// Writes once, and again after an interrupt.
fn write_some<F: NamedFile>(file: &mut F, at: u64, bytes: &[u8]) -> io::Result<usize>
    ensures { IfOk result (λ n. n ≤ length bytes.now) }
{
    for _ in 0..u64::MAX {
        match file.write_at(at, bytes) {
            Err(error) if error.kind() == ErrorKind::Interrupted => {}
            answer => return answer,
        }
    }
    Err(io::Error::from(ErrorKind::Interrupted))
}

// Opens the file, or makes it where its name is missing, and says whether it made it. What is no regular file is an
// error, and nothing of it is opened.
fn open_or_make<F: NamedFile>(file: &mut F) -> io::Result<bool> {
    match file.look_at_name()? {
        None => {
            file.make()?;
            Ok(true)
        }
        Some(seen) if seen.is_regular => {
            file.open()?;
            Ok(false)
        }
        Some(_) => Err(io::Error::new(ErrorKind::InvalidInput, "it is no regular file")),
    }
}

fn is_same_file(seen: &Seen, device: u64, inode: u64) -> bool {
    seen.is_regular && seen.device == device && seen.inode == inode && seen.links > 0
}

// What stands under the name, where that is this file.
fn look<F: NamedFile>(file: &mut F, device: u64, inode: u64) -> io::Result<Seen> {
    match file.look_at_name()? {
        Some(seen) if is_same_file(&seen, device, inode) => Ok(seen),
        _ => Err(io::Error::new(
            ErrorKind::NotFound,
            "it doesn't stand under its name any more",
        )),
    }
}

// Syncs the folder, so that the name outlives a crash. Where that fails and the file was made just now, the name is
// removed, so that the next try makes it anew and syncs the folder with it.
fn keep_name<F: NamedFile>(file: &mut F, was_made: bool, opened: &Seen) -> io::Result<()> {
    let answer = file.sync_folder();
    if answer.is_err() && was_made {
        let seen = look(file, opened.device, opened.inode)?;
        if seen.length == 0 {
            file.remove_name()?;
        }
    }
    answer
}

impl Opened {
    // Opens the file, takes its lock, and sees that the name still leads to it, since it may have been removed or
    // replaced before the lock was taken. Then it is synced, with its folder, and what the system has of it in memory
    // is dropped: a program before this one may have ended after a sync that failed, and what reads give is to be what
    // the disk holds.
    pub fn open<F: NamedFile>(file: &mut F) -> io::Result<Opened> {
        file.open_folder()?;
        let was_made = open_or_make(file)?;
        file.lock()?;
        let opened = file.look_at_file()?;
        let seen = look(file, opened.device, opened.inode)?;
        keep_name(file, was_made, &seen)?;
        file.sync_file()?;
        file.drop_pages()?;
        Ok(Opened {
            device: seen.device,
            inode: seen.inode,
            reaches: seen.length,
            written: None,
            has_failed: false,
        })
    }

    // The length that was seen. A file that is shorter than it was written is an error.
    fn whole(&self, seen: &Seen) -> io::Result<u64> {
        if seen.length < self.reaches {
            return Err(io::Error::new(
                ErrorKind::UnexpectedEof,
                "it is shorter than what was written to it",
            ));
        }
        Ok(seen.length)
    }

    // The length of the file.
    pub fn len<F: NamedFile>(&self, file: &mut F) -> io::Result<u64> {
        self.whole(&file.look_at_file()?)
    }

    // The length of the file, where it still stands under its name.
    fn standing_len<F: NamedFile>(&self, file: &mut F) -> io::Result<u64> {
        self.whole(&look(file, self.device, self.inode)?)
    }

    // Notes whether a change of the file or its sync failed.
    fn noted(&mut self, answer: io::Result<()>) -> io::Result<()> {
        if answer.is_err() {
            self.has_failed = true;
        }
        answer
    }

    // Writes all of the bytes, as many at once as the system takes.
    fn write_parts<F: NamedFile>(&mut self, file: &mut F, at: u64, bytes: &[u8]) -> io::Result<()> {
        let mut done = 0;
        while done < bytes.len() {
            let from = at.saturating_add(done as u64);
            let count = write_some(file, from, &bytes[done..])?;
            if count == 0 {
                return Err(io::Error::from(ErrorKind::WriteZero));
            }
            done += count;
            self.reaches = max(self.reaches, from.saturating_add(count as u64));
        }
        Ok(())
    }

    // Sees first that the file is whole, since a write past its end would fill what somebody cut off with zeros and
    // hide that. The span is noted before the write, as one that fails may leave anything there. It begins where the
    // file ends, if that is before the write, since what lies between becomes zeros.
    fn try_write<F: NamedFile>(&mut self, file: &mut F, at: u64, bytes: &[u8]) -> io::Result<()> {
        let length = self.standing_len(file)?;
        let end = at.saturating_add(bytes.len() as u64);
        self.written = Some(joined(self.written, min(at, length), end));
        self.write_parts(file, at, bytes)
    }

    // Writes the bytes.
    pub fn write<F: NamedFile>(&mut self, file: &mut F, at: u64, bytes: &[u8]) -> io::Result<()> {
        let answer = self.try_write(file, at, bytes);
        self.noted(answer)
    }

    // The least length is lowered before the cut, since one that fails may have cut the file. It leaves nothing to be
    // made again: the length is no page but a part of the inode, which stays unwritten until a sync writes it, and what
    // reads give after that sync is the file of the length that it wrote.
    fn try_cut<F: NamedFile>(&mut self, file: &mut F, len: u64) -> io::Result<()> {
        if len < self.len(file)? {
            self.reaches = min(self.reaches, len);
            file.set_len(len)?;
        }
        Ok(())
    }

    // Cuts a file that is longer.
    pub fn cut<F: NamedFile>(&mut self, file: &mut F, len: u64) -> io::Result<()> {
        let answer = self.try_cut(file, len);
        self.noted(answer)
    }

    // Reads this part of the file and writes it again where it stands, up to the end of the file at most, so that
    // nothing is made longer.
    fn write_again<F: NamedFile>(&mut self, file: &mut F, part: Span) -> io::Result<()> {
        let mut piece = [0u8; PIECE];
        let mut at = part.first;
        while at < part.end {
            let room = min(PIECE as u64, part.end - at) as usize;
            let count = read_some(file, at, &mut piece[..room])?;
            if count == 0 {
                return Ok(());
            }
            self.write_parts(file, at, &piece[..count])?;
            at += count as u64;
        }
        Ok(())
    }

    fn try_sync<F: NamedFile>(&mut self, file: &mut F) -> io::Result<()> {
        if let (true, Some(part)) = (self.has_failed, self.written) {
            self.write_again(file, part)?;
        }
        self.standing_len(file)?;
        file.sync_file()
    }

    // Waits until the file is safe. A file that was removed, renamed, replaced or cut beside this disk is an error:
    // what is written into it is lost, or has a hole.
    pub fn sync<F: NamedFile>(&mut self, file: &mut F) -> io::Result<()> {
        let answer = self.try_sync(file);
        if answer.is_ok() {
            self.written = None;
            self.has_failed = false;
        }
        self.noted(answer)
    }
}
