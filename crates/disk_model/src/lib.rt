//! One file on a disk, and what a crash at any moment may leave of it.
#![tactic(auto)]

mod disk;
mod file;
mod memory;
mod named_file;
mod opened;
mod real;
mod record;

pub use disk::{Disk, Failed};
pub use item_list::NoMemory;
pub use memory::MemDisk;
pub use named_file::{NamedFile, Seen, SystemFile};
pub use real::FileDisk;
