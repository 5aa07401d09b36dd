//! One link, attended to its end.

ghost use Rattle.std.specs.Prelude.{◌≡◌};
ghost use Rattle.act_model.specs.Clocks.{clock_of};
ghost use Rattle.serve_command.specs.Links.{link_words, IsLinkAttended};

use crate::ends::LinkEnd;
use act_model::Keeper;
use desk_io::{Clock, Sink, Source};
use http_connection::attend;
use intake_lock::{Pass, TurnLock};
use std::alloc::Global;
use std::sync::Wait;

/// Attends a link, and then ends its source and its sink.
pub(crate) fn attend_link<V: Keeper, S: Source, K: Sink, C: Clock, R: Wait>(
    rt: &R,
    alloc: Global,
    lock: &TurnLock<V>,
    pass: Pass,
    mut source: S,
    mut sink: K,
    mut clock: C,
) -> (Pass, LinkEnd<S, K>)
    requires { pass.lock ≡ lock.now.id }
    ensures pass { (result.0.lock ≡ pass.lock) × (result.0.view.role ≡ pass.view.role) }
    ensures attended { IsLinkAttended (link_words S.left S.gives S.faults S.is_open K.taken K.faults K.is_open)
        (record { source = source; sink = sink; view = pass.view; clock = clock_of C.reading C.last clock })
        result.1 result.0.view }
{
    let (pass, left) = attend(rt, alloc, lock, pass, &mut source, &mut sink, &mut clock);
    source.end();
    sink.end();
    (pass, LinkEnd { left, source, sink })
}
