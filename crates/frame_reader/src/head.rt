//! Heads that are kept apart from the buffer that they were read in.

ghost use Rattle.std.specs.Prelude.{◌≡◌, ◌≤◌, length};
ghost use Rattle.frame_reader.specs.Frames.{ReadsFront};

use arrayvec::ArrayVec;
use frame_grammar::{Front, KEY_BYTES, VERB_BYTES, laws, read_head};

/// The head of a frame.
#[derive(Debug, Drop)]
pub struct HeldHead {
    /// The key by which the caller is known.
    pub key: ArrayVec<u8, KEY_BYTES>,
    /// The request's number.
    pub number: u64,
    /// What is asked.
    pub verb: ArrayVec<u8, VERB_BYTES>,
    /// How many bytes the body has.
    pub length: u64,
    /// How many bytes the head has.
    pub size: usize,
}

/// What the front of the bytes that have come is.
#[derive(Debug, Drop)]
pub enum HeldFront {
    /// They begin with this head.
    Whole(HeldHead),
    /// No head has come yet, and bytes that may follow complete one.
    Part,
    /// Whatever may follow, no frame stands at their front.
    Bad,
}

/// A text with memory of its own.
fn held<const N: usize>(text: &[u8]) -> ArrayVec<u8, N>
    requires { length text.now ≤ N }
    ensures { result.items ≡ text.now }
{
    let mut copy = ArrayVec::new();
    copy.try_extend_from_slice(text).unwrap();
    copy
}

/// Looks for a head at the front of the bytes that have come so far.
pub fn held_front(bytes: &[u8]) -> HeldFront
    ensures { ReadsFront bytes.now result }
{
    laws::goes_on();
    laws::no_frame_yet();
    laws::never_a_frame();
    match read_head(bytes) {
        Front::Whole(head) => HeldFront::Whole(HeldHead {
            key: held(head.key),
            number: head.number,
            verb: held(head.verb),
            length: head.length,
            size: head.size,
        }),
        Front::Part => HeldFront::Part,
        Front::Bad => HeldFront::Bad,
    }
}
