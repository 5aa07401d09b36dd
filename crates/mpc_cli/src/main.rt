//! The clearing house for minor planet astrometry as a program: `run --key K` reads request frames from standard input
//! and writes reply frames to standard output, `serve --key K --connections N` attends connections at port 8017,
//! `export` writes the catalogue, `mirror` keeps it as tables of a database, `look` writes the observations of some
//! days from there, and `comets --key K` answers frames by a register of comets. The office stands on the journal in
//! the current folder; the mirror and the register are files beside it.
//!
//! `top` of program_top does all that the program does, over any source, sink, three disks, clock, door and mirror, and
//! carries the theorem. program_main hands it the real ones, and the mirror that it is given.
#![tactic(auto)]

use mirror_sqlite::FileMirror;
use program_main::program;
pub use program_top::top::{single, top};
pub use program_top::{Ended, Left, LinkEnds, Status, Words, answer_one, attend, model};
use std::process::ExitCode;

fn main(rt: HostRuntime) -> ExitCode {
    let mut mirror = FileMirror::new(rt);
    let code = program(rt, rt, &rt, &mut mirror);
    mirror.close();
    code
}
