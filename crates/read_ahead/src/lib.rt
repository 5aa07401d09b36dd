//! Bytes that are read ahead of their use, through one buffer: what a reader of messages over a source stands on.
//!
//! A source gives its bytes in whatever pieces it likes. What came and isn't used yet stands in a `ReadAhead`, which
//! contracts see as the list of those bytes: a reader looks at them, uses some from their front, reads once more after
//! them, or takes a text of a known length out of them and of what is still to come.
#![tactic(auto)]

mod ahead;
mod body;
mod halt;

pub use ahead::ReadAhead;
pub use body::{BODY_BYTES, Body};
pub use halt::Halt;

/// How many bytes are read ahead at most: the size of the buffer.
pub const BUFFER_BYTES: usize = 65_536;
