//! A register that answers frames.

ghost use Rattle.std.specs.Prelude.{◌≡◌};
ghost use Rattle.act_model.specs.Deeds.{deeds};
ghost use Rattle.command_ends.specs.Disks.{disk_words};
ghost use Rattle.comet_desk.specs.Desks.{IsBeside};
ghost use Rattle.comets_command.specs.Serving.{request_read, AnswersBeside};

use crate::spoken::speak;
use crate::turns::take_turn;
use act_model::Key;
use comet_desk::CometDesk;
use comet_model::{CometRequest, laws, read_comet_verb};
use desk_io::Clock;
use disk_model::Disk;
use frame_reader::ReadFrame;
use frame_service::{Attendant, Spoken};
use mpc_desk::Desk;
use std::alloc::Global;
use std::marker::Model;

/// A register to which frames come, each answered by one turn, that of its request; and the office beside it, which is
/// read.
///
/// Contracts see both.
#[derive(Debug, Drop)]
pub struct FrontComets<D: Disk> {
    office: Desk<D>,
    register: CometDesk<D>,
}

impl<D: Disk> Model for FrontComets<D> {
    ghost use Rattle.act_model.specs.Deeds.{deeds};
    ghost use Rattle.comet_desk.specs.Desks.{IsBeside};
    ghost use Rattle.comets_command.specs.Serving.{FrontState};

    ghost Value = { FrontState D };

    ghost view = { λ f. record { office = f.office; register = f.register } };

    ghost invariant = { λ f. IsBeside (deeds f.office.chained.state.settled) f.register };
}

impl<D: Disk> FrontComets<D> {
    /// A register that was opened beside this office.
    pub fn new(office: Desk<D>, register: CometDesk<D>) -> FrontComets<D>
        requires beside { IsBeside (deeds office.chained.state.settled) register }
        ensures office { result.office ≡ office }
        ensures register { result.register ≡ register }
    {
        FrontComets { office, register }
    }

    /// The office and the register, each as it is.
    pub fn apart(self) -> (Desk<D>, CometDesk<D>)
        ensures office { result.0 ≡ self.office }
        ensures register { result.1 ≡ self.register }
    {
        let FrontComets { office, register } = self;
        (office, register)
    }
}

fn request_of(read: ReadFrame) -> CometRequest
    ensures { result ≡ request_read read }
{
    CometRequest {
        key: Key::new(read.key.as_slice()),
        number: Some(read.number),
        verb: read_comet_verb(read.verb.as_slice()),
        body: read.body,
    }
}

impl<D: Disk> Attendant for FrontComets<D> {
    ghost answers = { λ old one new. AnswersBeside (disk_words D.reads D.leaves D.moment D.since D.faults)
        old.attendant old.clock one new.attendant new.clock };

    fn answer<C: Clock>(&mut self, _alloc: Global, read: ReadFrame, clock: &mut C) -> Spoken {
        laws::no_room_no_step();
        let request = request_of(read);
        let reply = take_turn(&mut self.register, self.office.core(), &request, clock);
        speak(reply)
    }
}
