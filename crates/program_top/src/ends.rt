//! How the program ended, and how the links of `serve` did.

ghost use Rattle.std.specs.Prelude.{◌≡◌, ◌≤◌, ◌↔◌, length, IsNone, slice_get, option_copied};

use command_ends::{Ended as CommandEnded, Status};
use disk_model::Disk;
use serve_command::LinkEnd;
use std::marker::Model;

/// How the program ended, and its disks.
#[derive(Debug, Drop)]
pub struct Ended<D: Disk> {
    pub status: Status,
    /// The first disk, whose file is only read and moved from.
    pub disk: D,
    /// The second disk, with the file that counts.
    pub second: D,
    /// The disk of the register of comets.
    pub comets: D,
    /// By how many entries the history grew; after the command `comets`, the register.
    pub added: u64,
}

/// The end of a command, and the disk of the register beside it.
pub(crate) fn ended_beside<D: Disk>(ended: CommandEnded<D>, comets: D) -> Ended<D>
    ensures { result ≡ record {
      status = ended.status;
      disk = ended.disk;
      second = ended.second;
      comets = comets;
      added = ended.added;
    } }
{
    let CommandEnded {
        status,
        disk,
        second,
        added,
    } = ended;
    Ended {
        status,
        disk,
        second,
        comets,
        added,
    }
}

/// The ends of the links that a door gave, in the door's order, as [`top`](crate::top::top) gives them. Contracts see
/// the list of them.
#[derive(Debug, Drop)]
pub struct LinkEnds<I, O> {
    ends: Vec<LinkEnd<I, O>>,
}

impl<I, O> Model for LinkEnds<I, O> {
    ghost use Rattle.std.specs.Prelude.{List};
    ghost use Rattle.serve_command.specs.declared.ends.LinkEnd.{LinkEnd};

    ghost Value = { List (LinkEnd I O) };

    ghost view = { λ l. l.ends.items };
}

impl<I, O> LinkEnds<I, O> {
    /// These ends, of which the first one stands first.
    pub(crate) fn new(ends: Vec<LinkEnd<I, O>>) -> LinkEnds<I, O>
        ensures { result ≡ ends.items }
    {
        LinkEnds { ends }
    }

    /// How many links there were.
    pub fn len(&self) -> u64
        ensures { result ≡ length self.now }
    {
        self.ends.len() as u64
    }

    /// The end of the link at a place, counted from 0. None exactly from the length on.
    pub fn get(&self, place: u64) -> Option<&LinkEnd<I, O>>
        ensures value { option_copied result ≡ slice_get self.now place }
        ensures past { IsNone result ↔ (length self.now ≤ place) }
    {
        self.ends.get(place as usize)
    }
}
