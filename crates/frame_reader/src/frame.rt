//! Frames that were read.

use arrayvec::ArrayVec;
use frame_grammar::{KEY_BYTES, VERB_BYTES};
use read_ahead::Body;

/// A request frame that was read.
#[derive(Debug, Drop)]
pub struct ReadFrame {
    /// The key by which the caller is known.
    pub key: ArrayVec<u8, KEY_BYTES>,
    /// The request's number.
    pub number: u64,
    /// What is asked.
    pub verb: ArrayVec<u8, VERB_BYTES>,
    /// The text that belongs to it.
    pub body: Body,
    /// How many bytes the frame has, its head and its body.
    pub size: u64,
}
