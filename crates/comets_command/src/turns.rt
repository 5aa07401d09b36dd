//! One turn of the register: a request, the clock's reading, and the reply.

ghost use Rattle.act_model.specs.Clocks.{clock_of};
ghost use Rattle.act_model.specs.Deeds.{deeds};
ghost use Rattle.command_ends.specs.Disks.{disk_words};
ghost use Rattle.comet_desk.specs.Desks.{IsBeside};
ghost use Rattle.comets_command.specs.Conducted.{TurnBeside};

use act_model::Shelf;
use comet_desk::CometDesk;
use comet_model::{CometReply, CometRequest};
use desk_io::Clock;
use disk_model::Disk;

/// Takes one turn, beside an office that is read. A request whose verb is that of the act takes one reading of the
/// clock, whatever its answer.
pub fn take_turn<D: Disk, V: Shelf, C: Clock>(
    register: &mut CometDesk<D>,
    shelf: &V,
    request: &CometRequest,
    clock: &mut C,
) -> CometReply
    requires beside { IsBeside (deeds (V.history shelf.now)) register.old }
    ensures turn { TurnBeside (disk_words D.reads D.leaves D.moment D.since D.faults) (deeds (V.history shelf.now))
        register.old request.now result register.new
        (clock_of C.reading C.last clock.old) (clock_of C.reading C.last clock.new) }
    ensures beside { IsBeside (deeds (V.history shelf.now)) register.new }
{
    if request.verb.is_act() {
        let reading = clock.now();
        register.act(shelf, request, reading)
    } else {
        register.ask(shelf, request)
    }
}
