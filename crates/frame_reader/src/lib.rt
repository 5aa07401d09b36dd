//! Request frames out of a source of bytes, and reply frames into a sink.
//!
//! A source gives its bytes in whatever pieces it likes. A `FrameReader` takes the frames that they
//! make, one after the other, through one buffer.
#![tactic(auto)]

mod frame;
mod head;
mod reader;
mod replies;

pub use frame::ReadFrame;
pub use read_ahead::{Body, Halt};
pub use reader::FrameReader;
pub use replies::write_reply_frame;
