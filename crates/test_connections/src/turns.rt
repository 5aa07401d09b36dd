//! The desk over a journal, turns that threads take at the lock of an office, and passes through it.

mod desks;
mod eight_threads;
mod passes;
mod two_threads;
