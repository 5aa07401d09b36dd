//! The commands that words name.

ghost use Rattle.std.specs.Prelude.{◌≡◌, IfSome};
ghost use Rattle.command_line.specs.Commands.{run_of, serve_of, export_of, workload_of, mirror_of, look_of, comets_of};
ghost use Rattle.command_line.specs.Commands.{command_named, command_of, IsInRange};

use crate::days::day_in;
use crate::keys::founder_key;
use crate::numbers::number_in;
use crate::options::{one_value, two_values};
use act_bodies::Key;
use item_list::{Bytes, ItemList};

/// The words of the command line, after the program's name.
pub type Words = ItemList<Bytes>;

/// A command of the program.
#[derive(Clone, Copy, Debug)]
pub enum Command {
    /// To answer the frames of standard input; the key is the founding officer's.
    Run { key: Key },
    /// To attend this many connections, 1 to 1,000; the key is the founding officer's.
    Serve { key: Key, connections: u32 },
    /// To write the catalogue.
    Export,
    /// To run the made-up requests that this number starts, of this many objects, 1 to 20,000.
    Workload { seed: u64, count: u32 },
    /// To copy the catalogue into its mirror.
    Mirror,
    /// To write what the mirror holds: all objects, and the observations from the first moment of the day `from` on and
    /// before the first moment of the day `to`. Both are days since 1970-01-01, of the years 1800 to 2199.
    Look { from: i32, to: i32 },
    /// To answer the frames of standard input by the register of comets; the key is the founding officer's.
    Comets { key: Key },
}

fn run_of(options: &[Bytes]) -> Option<Command>
    ensures command { result ≡ run_of options.now }
    ensures range { IfSome result IsInRange }
{
    let key = founder_key(one_value(b"--key", options)?)?;
    Some(Command::Run { key })
}

fn serve_of(options: &[Bytes]) -> Option<Command>
    ensures command { result ≡ serve_of options.now }
    ensures range { IfSome result IsInRange }
{
    let (key, connections) = two_values(b"--key", b"--connections", options)?;
    let key = founder_key(key)?;
    let connections = number_in(1, 1_000, connections)? as u32;
    Some(Command::Serve { key, connections })
}

fn export_of(options: &[Bytes]) -> Option<Command>
    ensures command { result ≡ export_of options.now }
    ensures range { IfSome result IsInRange }
{
    if options.is_empty() {
        Some(Command::Export)
    } else {
        None
    }
}

fn workload_of(options: &[Bytes]) -> Option<Command>
    ensures command { result ≡ workload_of options.now }
    ensures range { IfSome result IsInRange }
{
    let (seed, count) = two_values(b"--seed", b"--count", options)?;
    let seed = number_in(0, u64::MAX, seed)?;
    let count = number_in(1, 20_000, count)? as u32;
    Some(Command::Workload { seed, count })
}

fn mirror_of(options: &[Bytes]) -> Option<Command>
    ensures command { result ≡ mirror_of options.now }
    ensures range { IfSome result IsInRange }
{
    if options.is_empty() {
        Some(Command::Mirror)
    } else {
        None
    }
}

fn look_of(options: &[Bytes]) -> Option<Command>
    ensures command { result ≡ look_of options.now }
    ensures range { IfSome result IsInRange }
{
    let (from, to) = two_values(b"--from", b"--to", options)?;
    let from = day_in(from)?;
    let to = day_in(to)?;
    Some(Command::Look { from, to })
}

fn comets_of(options: &[Bytes]) -> Option<Command>
    ensures command { result ≡ comets_of options.now }
    ensures range { IfSome result IsInRange }
{
    let key = founder_key(one_value(b"--key", options)?)?;
    Some(Command::Comets { key })
}

fn command_named(name: &[u8], options: &[Bytes]) -> Option<Command>
    ensures command { result ≡ command_named name.now options.now }
    ensures range { IfSome result IsInRange }
{
    if name == b"run".as_slice() {
        run_of(options)
    } else if name == b"serve".as_slice() {
        serve_of(options)
    } else if name == b"export".as_slice() {
        export_of(options)
    } else if name == b"workload".as_slice() {
        workload_of(options)
    } else if name == b"mirror".as_slice() {
        mirror_of(options)
    } else if name == b"look".as_slice() {
        look_of(options)
    } else if name == b"comets".as_slice() {
        comets_of(options)
    } else {
        None
    }
}

/// The command that the words name; None for all words that name none.
#[tactic(auto, unfolding(crate::specs::Commands::command_of))]
pub fn command_of(words: &Words) -> Option<Command>
    ensures command { result ≡ command_of words.now }
    ensures range { IfSome result IsInRange }
{
    match words.as_slice() {
        [] => None,
        [name, options @ ..] => command_named(name.as_slice(), options),
    }
}
