//! Calls of `run` and of `export` over a source, a sink, two disks and a clock in memory, for the crates that test
//! whole sessions; what such sessions are made of; and the frames of a whole one with their answers.
//!
//! A function says what is wrong with a call, and asserts nothing: no library may stop the program. None has a clause,
//! since what the calls promise would then stand in the proof of every test.
#![tactic(auto)]

mod calls;
mod frames;
mod journals;
mod pieces;
mod scripts;
mod session_texts;
mod sessions;
mod setup;
mod tracklets;
mod transcripts;
mod wrong;

pub use calls::{
    Call, Devices, Drive, Drives, are_left, call_alone, call_in_turn, disks_of, has_ended,
    has_ended_with, words_of,
};
pub use frames::Frames;
pub use item_list::NoMemory;
pub use journals::{CHAINED, ENROLLED, ENROLS, PLAIN};
pub use pieces::{Part, put, put_lines, put_number, put_parts, put_reply, put_taken, text_of};
pub use scripts::{Script, call_days};
pub use session_texts::{BATCHES, FRAMES, whole_session};
pub use sessions::{FOUNDER, OBSERVER, catalogue_after, catalogue_of, session};
pub use setup::{BATCH, FIRST, FIRST_ANSWER, SETUP};
pub use transcripts::{Asked, Fault, Named, asked_in};
pub use wrong::{Found, Wrong};
