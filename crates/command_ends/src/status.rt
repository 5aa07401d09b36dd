//! The statuses with which the program ends.

ghost use Rattle.std.specs.Prelude.{◌≡◌};
ghost use Rattle.command_ends.specs.Statuses.{number_of};

use disk_model::Disk;
use thiserror::Error;

/// How a call of the program ended.
#[derive(Debug, Drop, Error)]
pub enum Status {
    /// The job is done: the source was read to its end.
    #[error("Done")]
    Done,
    /// The words are none of the program's commands.
    #[error("Usage")]
    Usage,
    /// From this offset on the bytes are no frame.
    #[error("BadFrame at {offset}")]
    BadFrame { offset: u64 },
    /// A disk failed while the office was opened, or the second one at the end, when an act in doubt was mended.
    #[error("DiskFault")]
    DiskFault,
    /// The file of this number, 1 or 2, is damaged at this offset.
    #[error("Damaged in {file} at {offset}")]
    Damaged { file: u8, offset: u64 },
    /// The source failed.
    #[error("ReadFault")]
    ReadFault,
    /// The sink failed.
    #[error("WriteFault")]
    WriteFault,
    /// Memory was refused.
    #[error("NoMemory")]
    NoMemory,
    /// The door failed, by which connections come.
    #[error("DoorFault")]
    DoorFault,
    /// The mirror failed.
    #[error("MirrorFault")]
    MirrorFault,
    /// There are more rows than a mirror can count: this many accepted observations, or this many objects.
    #[error("TooMany {count}")]
    TooMany { count: u64 },
}

impl Status {
    /// The number with which the program ends.
    pub fn number(&self) -> u8
        ensures { result ≡ number_of self.now }
    {
        match self {
            Status::Done => 0,
            Status::Usage => 2,
            Status::BadFrame { .. } => 3,
            Status::DiskFault => 4,
            Status::Damaged { .. } => 5,
            Status::ReadFault => 6,
            Status::WriteFault => 7,
            Status::NoMemory => 8,
            Status::DoorFault => 9,
            Status::MirrorFault => 10,
            Status::TooMany { .. } => 11,
        }
    }
}

/// How a call ended, the two disks, and how many entries were added.
#[derive(Debug, Drop)]
pub struct Ended<D: Disk> {
    pub status: Status,
    /// The first disk, whose file is only read and moved from.
    pub disk: D,
    /// The second disk, with the file that counts.
    pub second: D,
    /// How many entries were added to the office's history, or to the register of a command that keeps one.
    pub added: u64,
}
