//! The words of a command line, and the commands that they name.
//!
//! The first word is the command, and its options stand after it in any order, each exactly once: `--key K` in two
//! words or `--key=K` in one. A value that is a word of its own doesn't begin with a hyphen. Whatever else the words
//! are, `--` and words for help among them, they name no command.
#![tactic(auto)]

mod command;
mod days;
mod keys;
mod numbers;
mod options;

pub use command::{Command, Words, command_of};
