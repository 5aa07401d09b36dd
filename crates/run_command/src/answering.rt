//! A desk that answers frames.

ghost use Rattle.std.specs.Prelude.{◌≡◌};
ghost use Rattle.command_ends.specs.Disks.{disk_words};
ghost use Rattle.run_command.specs.Serving.{request_read, AnswersBy};

use crate::spoken::speak;
use crate::turns::take_turn;
use act_model::{Key, Request, laws, read_verb};
use desk_io::Clock;
use disk_model::Disk;
use frame_reader::ReadFrame;
use frame_service::{Attendant, Spoken};
use mpc_desk::ChainedDesk;
use std::alloc::Global;

/// A desk to which frames come: each is answered by one turn, that of its request.
#[derive(Debug, Drop)]
pub struct FrontDesk<D: Disk> {
    /// The desk that takes the turns.
    pub desk: ChainedDesk<D>,
}

fn request_of(read: ReadFrame) -> Request
    ensures { result ≡ request_read read }
{
    Request {
        key: Key::new(read.key.as_slice()),
        number: Some(read.number),
        verb: read_verb(read.verb.as_slice()),
        body: read.body,
    }
}

impl<D: Disk> Attendant for FrontDesk<D> {
    ghost answers = { λ old one new. AnswersBy (disk_words D.reads D.leaves D.moment D.since D.faults)
        old.attendant.desk old.clock one new.attendant.desk new.clock };

    fn answer<C: Clock>(&mut self, alloc: Global, read: ReadFrame, clock: &mut C) -> Spoken {
        laws::out_of_memory_changes_nothing();
        laws::no_room_no_step();
        let request = request_of(read);
        let reply = take_turn(&mut self.desk, &request, clock);
        speak(alloc, reply)
    }
}
