//! Batches that come in pieces.

ghost use Rattle.std.specs.Prelude.{◌≡◌, ◌<◌, length};
ghost use Rattle.ades_psv.specs.Feeding.{unfed};

use super::calls::said;
use super::headers::{FAULTY, TWO_HEADERS};
use super::observations::BATCH;
use crate::tables::expect_none_wrong;
use ades_psv::{PsvFault, PsvReader};
use obs_record::{HeaderFault, Lines};
use std::alloc::Global;

/// What is said of a batch that isn't long and comes in pieces of this size.
fn said_in_pieces(alloc: Global, body: &[u8], size: usize) -> Result<Lines, PsvFault> {
    if body.len() > 9999 || size == 0 {
        return Ok(Lines::new(alloc));
    }
    let mut reader = PsvReader::new(alloc)?;
    let mut rest = body;
    'pieces: while !rest.is_empty() {
        let (piece, behind) = rest.split_at(rest.len().min(size));
        reader.feed(piece)?;
        rest = behind;
    }
    reader.finish()
}

/// The fault of a batch that comes in pieces of this size; none where it has none.
fn fault_in_pieces(alloc: Global, body: &[u8], size: usize) -> Option<PsvFault> {
    said_in_pieces(alloc, body, size).err()
}

/// Whether the same is said.
fn is_same(one: &Result<Lines, PsvFault>, other: &Result<Lines, PsvFault>) -> bool {
    match (one, other) {
        (Ok(lines), Ok(others)) => lines.as_slice() == others.as_slice(),
        (Err(fault), Err(other)) => fault == other,
        _ => false,
    }
}

/// Batches that are fed in pieces: two whole ones, one that ends in a carriage return, one with a fault.
const FED_BATCHES: &[&[u8]] = &[
    BATCH,
    TWO_HEADERS,
    b"\r\n# version=2017\r\n! x\r\nra|dec\r\nAAA1\r",
    b"# version=2017\nra\r\n# second",
];

/// Whether a batch says the same in pieces of this size as whole.
fn is_same_in_pieces(alloc: Global, body: &[u8], size: usize) -> bool {
    is_same(&said_in_pieces(alloc, body, size), &said(alloc, body))
}

/// Whether it says the same in pieces of 1, 2, 3 and 7 bytes.
fn is_same_in_any_pieces(alloc: Global, body: &[u8]) -> bool {
    for size in [1, 2, 3, 7] {
        if !is_same_in_pieces(alloc, body, size) {
            return false;
        }
    }
    true
}

fn wrong_pieces(alloc: Global) -> Option<usize> {
    for (row, &body) in FED_BATCHES.iter().enumerate() {
        if !is_same_in_any_pieces(alloc, body) {
            return Some(row);
        }
    }
    None
}

#[test]
fn says_the_same_in_any_pieces(rt: HostRuntime) {
    let wrong = wrong_pieces(rt.alloc());
    expect_none_wrong(&rt, wrong);
}

fn wrong_fault_in_pieces(alloc: Global) -> Option<usize> {
    for (row, &(body, fault, line)) in FAULTY.iter().enumerate() {
        if fault_in_pieces(alloc, body, 3) != Some(PsvFault::Header { fault, line }) {
            return Some(row);
        }
    }
    None
}

#[test]
fn finds_the_first_fault_in_any_pieces(rt: HostRuntime) {
    let wrong = wrong_fault_in_pieces(rt.alloc());
    expect_none_wrong(&rt, wrong);
}

/// The faults that a new reader tells at the end of a text, at whose front nothing was wrong, and at a piece after it.
fn tell(reader: &mut PsvReader, front: &[u8], end: &[u8]) -> [Option<PsvFault>; 2]
    requires new { reader.old ≡ unfed }
    requires front { length front.now < 100 }
    requires end { length end.now < 100 }
{
    if reader.feed(front).is_err() {
        return [None; 2];
    }
    let Err(PsvFault::Header { fault, line }) = reader.feed(end) else {
        return [None; 2];
    };
    let again = reader.feed(b"\n# version=2017\nra|dec\n").err();
    [Some(PsvFault::Header { fault, line }), again]
}

/// The same, and the fault that the reader tells when it is finished.
fn told(alloc: Global, front: &[u8], end: &[u8]) -> Option<[Option<PsvFault>; 3]> {
    if front.len() > 99 || end.len() > 99 {
        return None;
    }
    match PsvReader::new(alloc) {
        Ok(new) => {
            let mut reader = new;
            let [at_end, behind] = tell(&mut reader, front, end);
            Some([at_end, behind, reader.finish().err()])
        }
        Err(_) => None,
    }
}

/// The front of a text, its end with a line feed, the fault that is told there, and its line.
const TOLD: &[(&[u8], &[u8], HeaderFault, u32)] = &[
    (b"# version=2010", b"\n# version=2017", HeaderFault::H1, 1),
    (b"# version=2017\nra", b"\r\n", HeaderFault::H3, 2),
    (
        b"# version=2017\nra|dec\nx\n#\nra|dec|pos1",
        b"\nx\n",
        HeaderFault::H4,
        5,
    ),
    (
        b"# version=2017\n!\nra|dec|",
        b"dec\n#\nra\n",
        HeaderFault::H5,
        3,
    ),
];

fn wrong_told(alloc: Global) -> Option<usize> {
    for (row, &(front, end, fault, line)) in TOLD.iter().enumerate() {
        let fault = Some(PsvFault::Header { fault, line });
        if told(alloc, front, end) != Some([fault; 3]) {
            return Some(row);
        }
    }
    None
}

#[test]
fn tells_a_fault_at_its_line_feed(rt: HostRuntime) {
    let wrong = wrong_told(rt.alloc());
    expect_none_wrong(&rt, wrong);
}
