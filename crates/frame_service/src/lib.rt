//! Frames of one source, each answered by an attendant: the loop that reads them and writes the replies.
//!
//! An attendant answers one frame after another, with readings of a clock. Over every source, however it cuts its bytes
//! into pieces, serving says which frames were answered, that the attendant answered them in their order, and what the
//! sink took.
#![tactic(auto)]

mod attendant;
mod serving;
mod spoken;

pub use attendant::Attendant;
pub use serving::{Stop, serve};
pub use spoken::Spoken;
