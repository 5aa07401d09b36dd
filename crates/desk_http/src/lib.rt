//! HTTP requests out of a source of bytes, and answers into a sink.
//!
//! A source gives its bytes in whatever pieces it likes. A `Wire` takes the messages that they make, one
//! after the other, through one buffer; `write_reply` writes the answer to one, and `write_unread` that to bytes that
//! are no message.
#![tactic(auto)]

mod head;
mod heard;
pub mod laws;
mod replies;
mod route;
mod routes;
mod scan;
mod wire;

pub use head::{Front, HeadParts};
pub use heard::Heard;
pub use replies::{SendFault, write_reply, write_unread};
pub use route::Asked;
pub use wire::Wire;

/// The most bytes that a head has, with the empty lines in front of it.
pub const HEAD_BYTES: usize = 8_192;

/// The most fields that a head has.
pub const HEAD_FIELDS: usize = 32;

/// The most digits that a Content-Length has.
pub const LENGTH_DIGITS: usize = 10;

/// The most digits that the number of an act has.
pub const NUMBER_DIGITS: usize = 18;
