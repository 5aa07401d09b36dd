//! The body of a message.

use item_list::Bytes;

/// The longest body that is kept, in bytes. A longer one is read to its end and thrown away.
pub const BODY_BYTES: u64 = 1_048_576;

/// What the body of a message came to.
#[derive(Debug, Drop)]
pub enum Body {
    /// All of its bytes, at most [`BODY_BYTES`].
    Whole(Bytes),
    /// It is longer than [`BODY_BYTES`]: this many bytes. It was read to its end and thrown away.
    TooLong(u64),
    /// Memory for it was refused. It was read to its end and thrown away.
    NoRoom,
}
