//! What the tests have in common: parcels, the bytes of files with them, and what a file holds.

ghost use Rattle.std.specs.Prelude.{IfSome};
ghost use Rattle.obs_journal.specs.Chains.{IsInForce};

use disk_model::{Disk, MemDisk};
use obs_journal::{Journal, OpenFault, Parcel, in_force};
use std::alloc::Global;
use std::process::Abort;

// The body of one parcel; that of the other is 'hi'.
const BODY: &[u8] = b"{\"key\":\"observer-1\",\"name\":\"Ann\",\"role\":\"observer\"}";

const MOMENT: i64 = 1_711_929_600_000_000_000;

/// A first file with both parcels: for each an open gate, the bytes counted, caller, number, moment, verb and body;
/// then a closed gate.
pub(super) const PLAIN_BOTH: [u8; 106] =
    *b"\x01\0\0\0\x48\0\0\0\0\0\0\0\0\0\0\0\x01\x17\xc1\xfe\xe6\xa8\x7a\0\0\x01\
        {\"key\":\"observer-1\",\"name\":\"Ann\",\"role\":\"observer\"}\
        \x01\0\0\0\x17\0\0\0\x07\0\0\0\0\0\0\0\x02\xff\xff\xff\xff\xff\xff\xff\xff\x0dhi\0";

/// A first file with the one parcel.
pub(super) const PLAIN_ONE: [u8; 78] =
    *b"\x01\0\0\0\x48\0\0\0\0\0\0\0\0\0\0\0\x01\x17\xc1\xfe\xe6\xa8\x7a\0\0\x01\
        {\"key\":\"observer-1\",\"name\":\"Ann\",\"role\":\"observer\"}\0";

/// A second file with both parcels: the byte 1 before them, and after each the SHA-256 digest of its bytes after the
/// last digest, which is of zeros at first. Python's hashlib gave the digests.
pub(super) const BOTH: [u8; 171] =
    *b"\x01\x01\0\0\0\x48\0\0\0\0\0\0\0\0\0\0\0\x01\x17\xc1\xfe\xe6\xa8\x7a\0\0\x01\
        {\"key\":\"observer-1\",\"name\":\"Ann\",\"role\":\"observer\"}\
        \x9e\xb5\xf8\xae\xd6\xbb\x29\x0b\x09\xb7\x49\x53\x7e\xc3\xa0\x2b\
        \x76\x13\x7c\x7f\x6d\xf5\xf5\x74\x19\xda\x70\x33\x7d\x05\x10\x41\
        \x01\0\0\0\x17\0\0\0\x07\0\0\0\0\0\0\0\x02\xff\xff\xff\xff\xff\xff\xff\xff\x0dhi\
        \x03\x07\xe6\xef\x3d\x31\x1c\xc9\x22\xcf\x43\x0f\x2a\xcd\xf0\x32\
        \xb7\xaf\x10\x7a\xd6\x8a\xbe\xb5\x9a\x10\x3c\x13\x78\x52\x45\x0f\0";

/// A second file with the one parcel.
pub(super) const ONE: [u8; 111] =
    *b"\x01\x01\0\0\0\x48\0\0\0\0\0\0\0\0\0\0\0\x01\x17\xc1\xfe\xe6\xa8\x7a\0\0\x01\
        {\"key\":\"observer-1\",\"name\":\"Ann\",\"role\":\"observer\"}\
        \x9e\xb5\xf8\xae\xd6\xbb\x29\x0b\x09\xb7\x49\x53\x7e\xc3\xa0\x2b\
        \x76\x13\x7c\x7f\x6d\xf5\xf5\x74\x19\xda\x70\x33\x7d\x05\x10\x41\0";

/// A second file with the other parcel alone.
pub(super) const OTHER: [u8; 62] =
    *b"\x01\x01\0\0\0\x17\0\0\0\x07\0\0\0\0\0\0\0\x02\xff\xff\xff\xff\xff\xff\xff\xff\x0dhi\
        \x31\x9f\x24\xf8\x83\x68\xaf\xa3\xc6\xa8\xfa\xbc\xda\xbf\x56\x1d\
        \xe0\x53\xd7\xca\x3e\x44\x3a\xd0\xee\xc3\xd9\xb2\x25\xb0\xec\x20\0";

/// What a second file holds.
#[derive(Clone, Copy, Debug, PartialEq, Eq)]
pub(super) enum Held {
    /// It isn't in force.
    Idle,
    /// No parcel.
    Nothing,
    /// The one parcel.
    One,
    /// The other one.
    Other,
    /// The one parcel, and the other one after it.
    Both,
    /// Anything else.
    Damage,
}

// Enough for each disk.
const CAPACITY: usize = 4_096;

/// The one parcel.
pub(super) fn one(alloc: Global) -> Option<Parcel> {
    Parcel::make(alloc, 0, 1, MOMENT, 1, BODY).ok()
}

/// The other parcel.
pub(super) fn other(alloc: Global) -> Option<Parcel> {
    Parcel::make(alloc, 7, 2, -1, 13, b"hi").ok()
}

/// A disk with this file, whose calls with these numbers fail; None where it is too long or memory was refused.
pub(super) fn disk_with(alloc: Global, file: &[u8], fails: &[u64]) -> Option<MemDisk> {
    if file.len() > CAPACITY {
        return None;
    }
    MemDisk::new(alloc, file, CAPACITY, fails).ok()
}

/// Whether the disk has this file, of 199 bytes at most.
pub(super) fn is_file<D: Disk>(disk: &mut D, want: &[u8]) -> bool {
    let mut file = [0u8; 200];
    match disk.read_at(0, &mut file) {
        Ok(count) => count == want.len() && file.starts_with(want),
        Err(_) => false,
    }
}

// Whether the file begins so, and a closed gate follows.
fn stops_after(file: &[u8], front: &[u8]) -> bool {
    match file.get(front.len()) {
        Some(&gate) => gate != 1 && file.starts_with(front),
        None => false,
    }
}

fn held_in(file: &[u8]) -> Held {
    if file.len() < 2 || !file.starts_with(b"\x01") {
        Held::Idle
    } else if stops_after(file, b"\x01") {
        Held::Nothing
    } else if stops_after(file, &ONE[..110]) {
        Held::One
    } else if stops_after(file, &OTHER[..61]) {
        Held::Other
    } else if stops_after(file, &BOTH[..170]) {
        Held::Both
    } else {
        Held::Damage
    }
}

/// What opening a second file gives.
#[derive(Clone, Copy, Debug, PartialEq, Eq)]
pub(super) enum Opened {
    /// It isn't in force.
    Idle,
    /// The disk failed, or memory was refused.
    Failed,
    /// The file of this number is damaged at this offset.
    Damaged(u8, u64),
    /// So many parcels, and the position after them.
    Parcels(u64, u64),
}

/// What opening the file on a disk gives.
pub(super) fn opened_on<D: Disk>(alloc: Global, disk: D) -> Opened {
    let mut disk = disk;
    match in_force(&mut disk) {
        Ok(true) => opened_in_force(alloc, disk),
        Ok(false) => Opened::Idle,
        Err(_) => Opened::Failed,
    }
}

// What opening a file in force gives.
fn opened_in_force<D: Disk>(alloc: Global, disk: D) -> Opened
    requires { IfSome (D.reads disk) IsInForce }
{
    match Journal::open(alloc, disk) {
        Ok((journal, parcels)) => Opened::Parcels(parcels.len(), journal.position()),
        Err((OpenFault::Damaged { file, offset }, _)) => Opened::Damaged(file, offset),
        Err(_) => Opened::Failed,
    }
}

// What opening a file that holds this is to give.
fn is_opened(held: Held, opened: Opened) -> bool {
    let wanted = match held {
        Held::Idle => Opened::Idle,
        Held::Nothing => Opened::Parcels(0, 2),
        Held::One => Opened::Parcels(1, 111),
        Held::Other => Opened::Parcels(1, 62),
        Held::Both => Opened::Parcels(2, 171),
        Held::Damage => return false,
    };
    opened == wanted
}

// What the file holds by its bytes.
fn read_held<D: Disk>(disk: &mut D) -> Option<Held> {
    let mut file = [0u8; 200];
    let count = disk.read_at(0, &mut file).ok()?;
    let (file, _) = file.split_at(count);
    Some(held_in(file))
}

/// What the file on a disk holds, of whose calls none is to fail. None where opening it gives anything else.
pub(super) fn held_on<D: Disk>(alloc: Global, disk: D) -> Option<Held> {
    let mut disk = disk;
    let held = read_held(&mut disk)?;
    if is_opened(held, opened_on(alloc, disk)) {
        Some(held)
    } else {
        None
    }
}

/// Whether a crash by this pick may leave this: the least by the pick 0, which leaves nothing that wasn't safe, the
/// most by the pick 1, which leaves all of the first write since the last sync, and either of them by another.
pub(super) fn may_be_left(held: Held, least: Held, most: Held, pick: u64) -> bool {
    match pick {
        0 => held == least,
        1 => held == most,
        _ => held == least || held == most,
    }
}

/// Expects that no row of a table is wrong; the first that is stands in this place, counted from 0.
pub(super) fn expect_none_wrong<R: Abort>(rt: &R, wrong: Option<usize>) {
    assert_eq!(rt; wrong, None);
}
