//! Sessions of which a part is sent.

use crate::scripts::Script;
use crate::transcripts::{Asked, asked_in};
use crate::wrong::Wrong;
use item_list::NoMemory;
use std::alloc::Global;

/// A session of transcripts, and how far it is after each of its frames.
#[derive(Drop)]
pub struct Frames {
    script: Script,
    progress: Vec<Progress>,
}

/// How many bytes some frames have, how many the replies to them, and how many entries the history has after them.
#[derive(Clone, Copy)]
struct Progress {
    bytes: usize,
    taken: usize,
    entries: u64,
}

const NONE: Progress = Progress {
    bytes: 0,
    taken: 0,
    entries: 0,
};

/// The number of the entry that a reply is the receipt of; 0 where it is none.
fn receipt_of(text: &str) -> u64 {
    let number = text
        .strip_prefix("receipt ")
        .and_then(|rest| rest.split_once('\n'));
    match number {
        Some((number, _)) => number.parse::<u64>().ok().unwrap_or(0),
        None => 0,
    }
}

impl Frames {
    /// The frames of these transcripts, one after another.
    ///
    /// # Errors
    ///
    /// Memory was refused, or one of them can't be read.
    pub fn of(alloc: Global, transcripts: &[&str]) -> Result<Frames, Wrong> {
        let mut frames = Frames {
            script: Script::new(alloc),
            progress: Vec::new(alloc),
        };
        for transcript in transcripts {
            frames.add(&asked_in(alloc, transcript, &[])?)?;
        }
        Ok(frames)
    }

    fn add(&mut self, asked: &[Asked<'_>]) -> Result<(), NoMemory> {
        for next in asked {
            let before = self.after(self.progress.len());
            self.script.add_asked(next)?;
            let call = self.script.call(0);
            // An entry is filed with its receipt, and a later reply with an earlier one is told of it again.
            let after = Progress {
                bytes: call.bytes.len(),
                taken: call.taken.len(),
                entries: before.entries.max(receipt_of(next.text)),
            };
            self.progress.push(after)?;
        }
        Ok(())
    }

    /// How far the session is after so many frames, or after all of them.
    fn after(&self, count: usize) -> Progress {
        let count = count.min(self.progress.len());
        match self.progress.get(count.saturating_sub(1)) {
            Some(after) if count > 0 => *after,
            _ => NONE,
        }
    }

    /// The bytes of the frames from one place, counted from 0, to before another.
    pub fn bytes(&self, from: usize, to: usize) -> &[u8] {
        let (from, to) = (self.after(from).bytes, self.after(to).bytes);
        self.script.call(0).bytes.get(from..to).unwrap_or(b"")
    }

    /// The answers to them.
    pub fn answers(&self, from: usize, to: usize) -> &[u8] {
        let (from, to) = (self.after(from).taken, self.after(to).taken);
        self.script.call(0).taken.get(from..to).unwrap_or(b"")
    }

    /// How many entries the history has after the first so many frames.
    pub fn entries(&self, count: usize) -> u64 {
        self.after(count).entries
    }

    /// How many of the frames stand whole in the first so many bytes.
    pub fn whole_in(&self, count: usize) -> usize {
        let mut whole = 0usize;
        for after in &self.progress {
            if after.bytes <= count {
                whole = whole.saturating_add(1);
            }
        }
        whole
    }
}
