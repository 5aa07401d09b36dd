//! Where links come from, and a door in memory.

ghost use Rattle.std.specs.Prelude.{◌≡◌, ℕ, ◌≤◌, ◌↔◌, List, Option, Some, IfOk};
ghost use Rattle.call_log.specs.Calls.{no_calls, FailsNext};
ghost use Rattle.desk_io.specs.Doors.{LinksAfter, FaultsAfter, AnswersOnce};
ghost use Rattle.desk_io.specs.declared.doors.Next.TheVariants as answers;

use crate::{MemSink, MemSource, NoMemory, Sink, Source};
use call_log::CallLog;
use std::alloc::Global;
use std::collections::VecDeque;
use std::marker::Model;

/// What a door gives.
#[derive(Debug, Drop)]
pub enum Next<I, O> {
    /// A link: the source and the sink of it.
    Link(I, O),
    /// No link will come.
    Shut,
    /// The door failed in this call. Its count of faults has risen.
    Failed,
    /// Memory was refused.
    NoMemory,
}

/// Where links come from.
pub trait Door: Drop {
    /// Where a link's bytes come from.
    type In: Source + Send;

    /// Where a link's bytes go.
    type Out: Sink + Send;

    /// The links to come, where they are known.
    ghost links: { Self → Option (List (Self.In × Self.Out)) };

    /// How often the door has failed.
    ghost faults: { Self → ℕ };

    /// Waits for the next link.
    fn next(&mut self) -> Next<Self::In, Self::Out>
        ensures links { LinksAfter (links self.old) (links self.new) result }
        ensures counts { faults self.old ≤ faults self.new }
        ensures cause { FaultsAfter (faults self.old) (faults self.new) result };
}

/// A door that gives links from memory.
#[derive(Debug, Drop)]
pub struct MemDoor {
    links: VecDeque<(MemSource, MemSink)>,
    log: CallLog,
}

impl Model for MemDoor {
    ghost use Rattle.desk_io.specs.Doors.{DoorState};

    ghost Value = { DoorState };

    ghost view = { λ door. record { links = door.links.items; calls = door.log } };
}

impl MemDoor {
    /// A door with these links, of which it gives the first one first. Its calls are counted from 1,
    /// and those that `fails` lists fail.
    ///
    /// # Errors
    ///
    /// Memory was refused.
    pub fn new(
        alloc: Global,
        links: Vec<(MemSource, MemSink)>,
        fails: &[u64],
    ) -> Result<MemDoor, NoMemory>
        ensures { IfOk result (λ door. door ≡ record { links = links.items; calls = no_calls fails.now }) }
    {
        Ok(MemDoor {
            links: VecDeque::from(links),
            log: CallLog::new(alloc, fails)?,
        })
    }
}

impl Door for MemDoor {
    type In = MemSource;

    type Out = MemSink;

    ghost links = { λ door. Some door.links };

    ghost faults = { λ door. door.calls.faults };

    fn next(&mut self) -> Next<MemSource, MemSink>
        ensures fails { result ≡ answers.Failed ↔ FailsNext self.old.calls }
        ensures gives { AnswersOnce self.old self.new result }

        ensures links { LinksAfter (Some self.old.links) (Some self.new.links) result }
        ensures counts { self.old.calls.faults ≤ self.new.calls.faults }
        ensures cause { FaultsAfter self.old.calls.faults self.new.calls.faults result }
    {
        if self.log.fails_next() {
            self.log.fail();
            return Next::Failed;
        }
        self.log.pass();
        match self.links.pop_front() {
            Some((source, sink)) => Next::Link(source, sink),
            None => Next::Shut,
        }
    }
}
