//! A file under a name in a folder, as the single calls of the system that a disk over a real file makes.

ghost use Rattle.std.specs.Prelude.{◌≤◌, length, IfOk};

use std::fs::{File, TryLockError};
use std::io::ErrorKind;
use std::os::fd::AsRawFd;
use std::os::unix::fs::{FileExt, MetadataExt, OpenOptionsExt};
use std::rt::Files;
use std::{fs, io};

/// What the system says about what stands under a name, or of the file that is open.
#[derive(Clone, Copy, Debug, PartialEq, Eq)]
pub struct Seen {
    /// Whether it is a regular file: no folder, link, pipe or device.
    pub is_regular: bool,
    /// The device that it stands on.
    pub device: u64,
    /// Its number there.
    pub inode: u64,
    /// How many names lead to it.
    pub links: u64,
    /// Its length in bytes.
    pub length: u64,
}

impl Seen {
    fn of(metadata: &fs::Metadata) -> Seen {
        Seen {
            is_regular: metadata.is_file(),
            device: metadata.dev(),
            inode: metadata.ino(),
            links: metadata.nlink(),
            length: metadata.len(),
        }
    }
}

/// A file under a name in a folder. Each method is one call of the system, so that a kind that keeps a list of its
/// calls shows which ones a disk makes, and in which order.
///
/// Nothing is open at first. A call that needs the folder or the file open fails where it isn't. All calls but
/// `read_at` and `write_at` are tried again by the kind where the system interrupts them.
pub trait NamedFile: Drop {
    /// Opens the folder.
    ///
    /// # Errors
    ///
    /// Those of the system, as at each method here.
    fn open_folder(&mut self) -> io::Result<()>;

    /// What stands under the name, where a link is seen itself and not followed; None where the name is missing.
    fn look_at_name(&mut self) -> io::Result<Option<Seen>>;

    /// Makes the file and opens it. Only its owner may read and write it. Where the name is there this is an error.
    fn make(&mut self) -> io::Result<()>;

    /// Opens the file that is there, to read and to write, and leaves it as it is.
    fn open(&mut self) -> io::Result<()>;

    /// Takes the exclusive lock of the open file. Where another one has it this is an error, and nothing is waited for.
    fn lock(&mut self) -> io::Result<()>;

    /// What is open.
    fn look_at_file(&mut self) -> io::Result<Seen>;

    /// Waits until the names in the folder are safe.
    fn sync_folder(&mut self) -> io::Result<()>;

    /// Waits until the bytes of the open file and its length are safe.
    fn sync_file(&mut self) -> io::Result<()>;

    /// Asks the system to forget what it has in memory of the open file and what is safe.
    fn drop_pages(&mut self) -> io::Result<()>;

    /// Removes the name from the folder.
    fn remove_name(&mut self) -> io::Result<()>;

    /// Closes the file and the folder, which gives back the lock.
    fn close(&mut self);

    /// Reads once from this offset on, and says how many bytes: 0 for an empty piece, or from the end of the file on.
    /// It may answer `Interrupted`.
    fn read_at(&mut self, at: u64, piece: &mut [u8]) -> io::Result<usize>
        ensures within { IfOk result (λ n. n ≤ length piece.old) };

    /// Writes once at this offset, and says how many of the bytes. It may answer `Interrupted`.
    fn write_at(&mut self, at: u64, bytes: &[u8]) -> io::Result<usize>
        ensures within { IfOk result (λ n. n ≤ length bytes.now) };

    /// Makes the file that long.
    fn set_len(&mut self, len: u64) -> io::Result<()>;
}

/// A file of the current folder.
// The folder is opened three times, before the file, and stays open as long. A file that is opened gets the lowest free
// descriptor: where a standard stream was closed when the program started, the folder has its descriptor, and not the
// file, over which answers would else be written.
#[derive(Debug, Drop)]
pub struct SystemFile<R: Files<File = File> + Copy> {
    system: R,
    name: &'static str,
    folders: Option<[File; 3]>,
    file: Option<File>,
}

impl<R: Files<File = File> + Copy> SystemFile<R> {
    /// The file of this name, of which nothing is open.
    pub fn new(system: R, name: &'static str) -> SystemFile<R> {
        SystemFile {
            system,
            name,
            folders: None,
            file: None,
        }
    }

    fn opened(&self) -> io::Result<&File> {
        self.file.as_ref().ok_or(not_open())
    }
}

fn not_open() -> io::Error {
    io::Error::from(ErrorKind::NotConnected)
}

impl<R: Files<File = File> + Copy> NamedFile for SystemFile<R> {
    fn open_folder(&mut self) -> io::Result<()> {
        let first = File::open(&self.system, ".")?;
        let second = File::open(&self.system, ".")?;
        self.folders = Some([first, second, File::open(&self.system, ".")?]);
        Ok(())
    }

    fn look_at_name(&mut self) -> io::Result<Option<Seen>> {
        match fs::symlink_metadata(&self.system, self.name) {
            Ok(metadata) => Ok(Some(Seen::of(&metadata))),
            Err(error) if error.kind() == ErrorKind::NotFound => Ok(None),
            Err(error) => Err(error),
        }
    }

    fn make(&mut self) -> io::Result<()> {
        let mut options = File::options();
        options.read(true).write(true).create_new(true).mode(0o600);
        self.file = Some(options.open(&self.system, self.name)?);
        Ok(())
    }

    fn open(&mut self) -> io::Result<()> {
        let mut options = File::options();
        options.read(true).write(true);
        self.file = Some(options.open(&self.system, self.name)?);
        Ok(())
    }

    fn lock(&mut self) -> io::Result<()> {
        match self.opened()?.try_lock() {
            Ok(()) => Ok(()),
            Err(TryLockError::WouldBlock) => Err(io::Error::new(
                ErrorKind::WouldBlock,
                "another program uses it",
            )),
            Err(TryLockError::Error(error)) => Err(error),
        }
    }

    fn look_at_file(&mut self) -> io::Result<Seen> {
        Ok(Seen::of(&self.opened()?.metadata()?))
    }

    fn sync_folder(&mut self) -> io::Result<()> {
        match &self.folders {
            Some(folders) => folders[0].sync_all(),
            None => Err(not_open()),
        }
    }

    fn sync_file(&mut self) -> io::Result<()> {
        self.opened()?.sync_all()
    }

    fn drop_pages(&mut self) -> io::Result<()> {
        match libc::posix_fadvise(self.opened()?.as_raw_fd(), 0, 0, libc::POSIX_FADV_DONTNEED) {
            0 => Ok(()),
            refusal => Err(io::Error::from_raw_os_error(refusal)),
        }
    }

    fn remove_name(&mut self) -> io::Result<()> {
        fs::remove_file(&self.system, self.name)
    }

    fn close(&mut self) {
        self.file = None;
        self.folders = None;
    }

    fn read_at(&mut self, at: u64, piece: &mut [u8]) -> io::Result<usize>
        ensures within { IfOk result (λ n. n ≤ length piece.old) }
    {
        self.opened()?.read_at(piece, at)
    }

    fn write_at(&mut self, at: u64, bytes: &[u8]) -> io::Result<usize>
        ensures within { IfOk result (λ n. n ≤ length bytes.now) }
    {
        self.opened()?.write_at(bytes, at)
    }

    fn set_len(&mut self, len: u64) -> io::Result<()> {
        self.opened()?.set_len(len)
    }
}
