//! One turn of the office: a request, the clock's reading, and the reply.

ghost use Rattle.act_model.specs.Clocks.{clock_of};
ghost use Rattle.command_ends.specs.Disks.{disk_words};
ghost use Rattle.run_command.specs.Conducted.{TakesTurn};

use act_model::{Reply, Request};
use desk_io::Clock;
use disk_model::Disk;
use mpc_desk::ChainedDesk;

/// Takes one turn. A request whose verb is an act takes one reading of the clock, whatever its answer.
pub fn take_turn<D: Disk, C: Clock>(
    desk: &mut ChainedDesk<D>,
    request: &Request,
    clock: &mut C,
) -> Reply
    ensures { TakesTurn (disk_words D.reads D.leaves D.moment D.since D.faults)
        desk.old request.now result desk.new
        (clock_of C.reading C.last clock.old) (clock_of C.reading C.last clock.new) }
{
    if request.verb.is_act() {
        let reading = clock.now();
        desk.act(request, reading)
    } else {
        desk.ask(request)
    }
}
