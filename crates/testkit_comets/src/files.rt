//! Files of a register that are opened beside one office, each on a disk of its own.

use crate::runs::{Disks, call_on, three_disks};
use disk_model::{Disk, MemDisk};
use std::alloc::Global;
use testkit_sessions::{Call, Drive, Drives, NoMemory, Wrong, are_left, disks_of};

/// A file of a register; how `comets`, which is asked for the register, ends over it, with the status as it is printed
/// and its number; what it writes; and the file that it leaves.
#[derive(Drop)]
pub struct Opening {
    pub file: Vec<u8>,
    pub status: &'static str,
    pub number: u8,
    pub taken: Vec<u8>,
    pub left: Vec<u8>,
}

/// Files that are opened one after another.
pub trait Openings {
    /// How many there are.
    fn count(&self) -> usize;

    /// The one at this place, counted from 0.
    fn opening(&self, alloc: Global, place: usize) -> Result<Opening, NoMemory>;
}

const REGISTER: &[u8] = b"+founder-1 0 register 0\n";

/// Makes a call on the office's disks and the second of these, which is then looked at, and gives the office's back.
fn called_beside<D: Disk>(
    alloc: Global,
    call: &Call,
    drives: &Drives,
    office: (D, D),
    others: Result<(D, D), NoMemory>,
) -> Result<(D, D), Wrong> {
    let (other, register) = others?;
    let Disks { office, register } = call_on(alloc, call, Disks { office, register })?;
    are_left(alloc, drives, (other, register), call.mark)?;
    Ok(office)
}

/// Opens a file beside an office, looks whether that is as wanted, and gives the office's disks back.
fn opened_beside(
    alloc: Global,
    mark: usize,
    opening: &Opening,
    office: (MemDisk, MemDisk),
) -> Result<(MemDisk, MemDisk), Wrong> {
    let call = Call {
        mark,
        words: &["comets", "--key", "+founder-1"],
        status: opening.status,
        number: opening.number,
        ..Call::run(REGISTER, 0, &opening.taken)
    };
    let drives = Drives::with_second(Drive {
        file: &opening.file,
        left: Some(&opening.left),
        ..Drive::EMPTY
    });
    called_beside(alloc, &call, &drives, office, disks_of(alloc, &drives))
}

/// Makes a run on two empty disks for the office, and opens these files beside it.
///
/// # Errors
///
/// What is wrong with the run, or with the first file that isn't opened as wanted, whose place is the mark; that
/// another one was left is told as file 2.
pub fn comets_over<F: Openings>(alloc: Global, office: &Call, files: &F) -> Result<(), Wrong> {
    let (before, _) = three_disks(alloc, &Drives::EMPTY)?;
    let Disks { mut office, .. } = call_on(alloc, office, before)?;
    for place in 0..files.count() {
        let opening = files.opening(alloc, place)?;
        office = opened_beside(alloc, place, &opening, office)?;
    }
    Ok(())
}
