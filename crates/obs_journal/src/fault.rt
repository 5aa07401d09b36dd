//! Why a journal didn't open.

ghost use Rattle.std.specs.Prelude.{◌≡◌};
ghost use Rattle.obs_journal.specs.declared.fault.OpenFault.TheVariants.{DiskFault, NoMemory};

use disk_model::Failed;
use std::alloc::AllocError;
use std::error::Error;
use std::fmt;
use std::fmt::{Display, Formatter};

/// Why a journal didn't open.
#[derive(Clone, Copy, Debug, PartialEq, Eq)]
pub enum OpenFault {
    /// The disk failed.
    DiskFault,
    /// A file spells no list of parcels.
    Damaged {
        /// 1 for the first file, 2 for the second one.
        file: u8,
        /// The offset of the gate where it stops.
        offset: u64,
    },
    /// Memory was refused.
    NoMemory,
}

impl Display for OpenFault {
    fn fmt<W: fmt::Write>(&self, f: &mut Formatter<W>) -> fmt::Result {
        match self {
            OpenFault::DiskFault => f.pad("the disk failed"),
            OpenFault::Damaged { file, offset } => {
                write!(
                    f,
                    "the journal is damaged in file {file} at offset {offset}"
                )
            }
            OpenFault::NoMemory => f.pad("out of memory"),
        }
    }
}

impl Error for OpenFault {}

impl From<Failed> for OpenFault {
    ghost from_gives = { λ _ fault. fault ≡ DiskFault };

    fn from(_: Failed) -> Self {
        OpenFault::DiskFault
    }
}

impl From<AllocError> for OpenFault {
    ghost from_gives = { λ _ fault. fault ≡ NoMemory };

    fn from(_: AllocError) -> Self {
        OpenFault::NoMemory
    }
}
