//! Measures the readers of lines alone: reads all of standard input as one batch, as often as the second word of the
//! command line says, by the reader that its first word names, and prints how many lines were read well.
#![tactic(auto)]

mod line_reader;
mod task;

use anyhow::{Context, Result};
use std::env;
use std::io::Read;
use task::Task;

/// What the words of the command line may be.
const USAGE: &str = "usage: reader_bench columns|columns-pieces|psv|psv-pieces READINGS";

fn main(rt: HostRuntime) -> Result<()> {
    let task = Task::from_words(env::args(&rt)?).context(USAGE)?;
    let mut batch = Vec::new(rt.alloc());
    rt.stdin().read_to_end(&mut batch)?;
    let count = task.count_read(rt.alloc(), &batch)?;
    println!(rt; "lines {count}")?;
    Ok(())
}
