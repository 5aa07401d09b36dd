//! Heads at the front of bytes, and replies as frames.

use frame_grammar::{Front, put_reply, read_head};
use std::alloc::{AllocError, Global};
use std::test::Fail;

/// What is to stand at the front: a whole head with its key, number, verb, length of the body and size; the part of
/// one; or none.
#[derive(Clone, Copy)]
enum Want {
    Whole(&'static [u8], u64, &'static [u8], u64, usize),
    Part,
    Bad,
}

const HEADS: &[(&[u8], Want)] = &[
    (
        b"+founder-1 1 submit80 411\nCOD 703\n",
        Want::Whole(b"+founder-1", 1, b"submit80", 411, 26),
    ),
    (
        b"nobody-here 1 submit80 0\n",
        Want::Whole(b"nobody-here", 1, b"submit80", 0, 25),
    ),
    (
        b"+founder-1 2 tally 0\n+founder-1 3",
        Want::Whole(b"+founder-1", 2, b"tally", 0, 21),
    ),
    (b"k 0 v 0\n", Want::Whole(b"k", 0, b"v", 0, 8)),
    (
        b"k 0 v 9999999999\n",
        Want::Whole(b"k", 0, b"v", 9999999999, 17),
    ),
    (
        b"abcdefghijklmnopqrstuvwxyz0123456 123456789012345678 abcdefghijkl 1234567890\n",
        Want::Whole(
            b"abcdefghijklmnopqrstuvwxyz0123456",
            123456789012345678,
            b"abcdefghijkl",
            1234567890,
            77,
        ),
    ),
    (b"", Want::Part),
    (b"+founder-1", Want::Part),
    (b"+founder-1 ", Want::Part),
    (b"+founder-1 0", Want::Part),
    (b"+founder-1 1 submit80 41", Want::Part),
    (b" 1 tally 0\n", Want::Bad),
    (b"+founder-1\t1", Want::Bad),
    (b"abcdefghijklmnopqrstuvwxyz01234567", Want::Bad),
    (b"+founder-1 01", Want::Bad),
    (b"+founder-1  1", Want::Bad),
    (b"+founder-1 1234567890123456789", Want::Bad),
    (b"+founder-1 1 Tally", Want::Bad),
    (b"+founder-1 1 abcdefghijklm", Want::Bad),
    (b"+founder-1 1 tally 00", Want::Bad),
    (b"+founder-1 1 tally 12345678901", Want::Bad),
    (b"+founder-1 1 tally 0\r\n", Want::Bad),
    (b"+founder-1 1 tally \n", Want::Bad),
];

fn is_wanted(front: Front, want: Want) -> bool {
    match (front, want) {
        (Front::Whole(head), Want::Whole(key, number, verb, length, size)) => {
            head.key == key
                && head.number == number
                && head.verb == verb
                && head.length == length
                && head.size == size
        }
        (Front::Part, Want::Part) => true,
        (Front::Bad, Want::Bad) => true,
        _ => false,
    }
}

/// The first row at whose front something else stands, counted from 0; None where there is none.
fn wrong_head(rows: &[(&[u8], Want)]) -> Option<usize> {
    for (row, &(bytes, want)) in rows.iter().enumerate() {
        if !is_wanted(read_head(bytes), want) {
            return Some(row);
        }
    }
    None
}

#[test]
fn heads_at_the_front(rt: HostRuntime) {
    assert_eq!(rt; wrong_head(HEADS), None);
}

// Two replies, one at once after the other.
fn two_replies(alloc: Global) -> Result<Vec<u8>, AllocError> {
    let mut out = Vec::new(alloc);
    put_reply(&mut out, 409, b"refused 3 OtherRequest receipt 1\n")?;
    put_reply(&mut out, 200, b"")?;
    Ok(out)
}

#[test]
fn replies_one_behind_the_other(rt: HostRuntime) -> Result<(), Fail> {
    let out = two_replies(rt.alloc())?;
    let want = b"409 33\nrefused 3 OtherRequest receipt 1\n200 0\n";
    assert_eq!(rt; out.as_slice(), want.as_slice());
    Ok(())
}
