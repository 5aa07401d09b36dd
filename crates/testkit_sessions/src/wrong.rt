//! What is wrong with a call.

use crate::transcripts::Fault;
use item_list::NoMemory;

/// The first thing in which a call was not as wanted, and the mark of the call.
#[derive(Debug, Drop)]
pub struct Wrong {
    pub mark: usize,
    pub found: Found,
}

/// What was found in place of what was wanted.
#[derive(Debug, Drop)]
pub enum Found {
    /// Nothing, for memory was refused to the test.
    NoMemory,
    /// Nothing, for the clock can't begin at that moment.
    NoClock,
    /// A transcript that can't be read for this, in this request, counted from 1.
    Transcript(Fault, usize),
    /// It ended with this status.
    Status(String),
    /// It ended with a status of this number.
    Number(u8),
    /// The history grew by so many entries.
    Entries(u64),
    /// From this place on it wrote other bytes, or more, or no more.
    BytesFrom(usize),
    /// The mirror holds these objects, or these observations; or it doesn't tell what it holds.
    Objects(String),
    Sights(String),
    Untold,
    /// The file of the first disk or the second is another one, or the disk doesn't tell it.
    File(u8),
}

impl From<NoMemory> for Wrong {
    fn from(_error: NoMemory) -> Wrong {
        Wrong {
            mark: 0,
            found: Found::NoMemory,
        }
    }
}
