//! How the commands of the program begin and end: the status of each end, the office opened on its disks, also to be
//! read alone, and the last mending.
//!
//! What stands on the disks at the end of a command is told in the same words by each of them: `specs/Opening.antt` for
//! an office that was opened or couldn't be, `specs/Closing.antt` for an act in doubt, `specs/Reading.antt` for an
//! office that was only read, `specs/Left.antt` for the history.
#![tactic(auto)]

mod closing;
mod opening;
mod reading;
mod status;

pub use closing::mend_last;
pub use opening::{JOURNAL_BYTES, not_begun, open_desk};
pub use reading::{end_reading, open_to_read};
pub use status::{Ended, Status};
