//! What the command line asks for.

use crate::line_reader::LineReader;
use anyhow::{Context, Result, bail};
use obs_record::Lines;
use std::alloc::Global;
use std::env::Args;

/// The length from which on a batch is too long for the readers: their lines are numbered by 32 bits.
const TOO_LONG: usize = 4_294_967_295;

/// A reader, and how often it reads the batch.
#[derive(Clone, Copy, Debug)]
pub(crate) struct Task {
    reader: LineReader,
    readings: u32,
}

impl Task {
    /// The task that the words of the command line name, the first of which is the program's.
    pub(crate) fn from_words(words: Args) -> Option<Task> {
        let mut words = words.skip(1);
        let reader = LineReader::named(words.next()?.as_str())?;
        let readings = words.next()?.parse().ok()?;
        match words.next() {
            None => Some(Task { reader, readings }),
            Some(_) => None,
        }
    }

    /// How many lines of the batch are read well, over all readings.
    pub(crate) fn count_read(self, alloc: Global, batch: &[u8]) -> Result<u64> {
        if batch.len() >= TOO_LONG {
            bail!("the batch has {TOO_LONG} bytes or more");
        }
        let mut count = 0u64;
        'readings: for _ in 0..self.readings {
            let lines = self.reader.read(alloc, batch)?;
            count = count
                .checked_add(count_good(&lines))
                .context("too many lines to be counted")?;
        }
        Ok(count)
    }
}

/// How many of these lines break no rule.
fn count_good(lines: &Lines) -> u64 {
    lines.iter().filter(|line| line.read.is_ok()).count() as u64
}
