//! Reply frames.

ghost use Rattle.std.specs.Prelude.{◌≡◌, ◌+◌, ◌≤◌, ◌++◌, length, vec_len, vec_capacity, IsOk, OnOk, OnErr};
ghost use Rattle.frame_grammar.specs.Replies.{reply_frame};

use itoa::Buffer;
use std::alloc::AllocError;

/// Puts the frame of a reply after what `out` has: its status, its length, and its text.
///
/// It takes the memory for all of the frame first. Where that is refused, `out` keeps what it had.
///
/// # Errors
///
/// Memory was refused.
pub fn put_reply(out: &mut Vec<u8>, status: u16, text: &[u8]) -> Result<(), AllocError>
    ensures ok { OnOk result (out.new.items ≡ out.old.items ++ reply_frame status text.now) }
    ensures err { OnErr result (out.new.items ≡ out.old.items) }
    // With room for the frame it is put.
    ensures room { vec_len out.old + length (reply_frame status text.now) ≤ vec_capacity out.old → IsOk result }
{
    let mut status_buffer = Buffer::new();
    let status_digits = status_buffer.format(status).as_bytes();
    let mut length_buffer = Buffer::new();
    let length_digits = length_buffer.format(text.len()).as_bytes();
    let digits = status_digits.len() + length_digits.len();
    out.reserve(digits + text.len() + 2)?;
    out.extend_from_slice(status_digits)?;
    out.push(b' ')?;
    out.extend_from_slice(length_digits)?;
    out.push(b'\n')?;
    out.extend_from_slice(text)
}
