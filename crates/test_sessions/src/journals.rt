//! What stands on two disks in memory: files that are a journal, or aren't; journals that are opened again and moved
//! from the first disk to the second; disks that fail at each of their calls, and what a crash leaves.

mod crashes;
mod disks;
mod each_place;
mod files;
mod moves;
mod opened_journals;
