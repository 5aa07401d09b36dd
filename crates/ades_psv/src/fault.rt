//! Why a batch has no lines.

use item_list::NoMemory;
use obs_record::HeaderFault;
use std::error::Error;
use std::fmt;
use std::fmt::{Display, Formatter};

/// Why a batch wasn't read.
#[derive(Clone, Copy, Debug, PartialEq, Eq)]
pub enum PsvFault {
    /// The first fault of its headers.
    Header {
        /// What is wrong.
        fault: HeaderFault,
        /// The number of the line, counted from 1 over all lines of the batch.
        line: u32,
    },
    /// Memory was refused.
    NoMemory,
}

impl Display for PsvFault {
    fn fmt<W: fmt::Write>(&self, f: &mut Formatter<W>) -> fmt::Result {
        match self {
            PsvFault::Header { fault, line } => write!(f, "{fault} in line {line}"),
            PsvFault::NoMemory => f.pad("out of memory"),
        }
    }
}

impl Error for PsvFault {}

impl From<NoMemory> for PsvFault {
    ghost use Rattle.std.specs.Prelude.{◌≡◌};
    ghost use Rattle.ades_psv.specs.declared.fault.PsvFault.TheVariants as faults;

    ghost from_gives = { λ _ fault. fault ≡ faults.NoMemory };

    fn from(_: NoMemory) -> PsvFault {
        PsvFault::NoMemory
    }
}
