//! The links of a door, attended over one keeper of the office.

ghost use Rattle.std.specs.Prelude.{◌≡◌, ◌≤◌, [], None};
ghost use Rattle.intake_lock.specs.Rule.{MOST};
ghost use Rattle.act_model.specs.Clocks.{clock_of};
ghost use Rattle.serve_command.specs.Links.{link_words};
ghost use Rattle.serve_command.specs.Gathering.{door_of};
ghost use Rattle.serve_command.specs.Serving.{Serves};

use crate::accepting::{Gathered, Stop, attend_links};
use crate::ends::{LinkEnd, no_ends, turned_round};
use crate::gates::{Lent, take_back};
use act_model::Keeper;
use desk_io::{Clock, Door};
use http_connection::laws as link_laws;
use intake_lock::{TurnLock, laws as lock_laws};
use std::alloc::Global;
use std::sync::Wait;
use std::thread::Threads;

/// A keeper when the links of a door were attended, the ends of the links, and why no further link was taken.
#[derive(Debug, Drop)]
pub struct Attended<V, I, O> {
    /// The keeper.
    pub keeper: V,
    /// The ends of the links, in the door's order.
    pub ends: Vec<LinkEnd<I, O>>,
    /// Why no further link was taken. None where memory for the links was refused, so that none was awaited.
    pub stop: Option<Stop>,
}

/// Attends up to this many links of a door, at most 1,000, with a keeper of the office without an act in doubt: each
/// link in a thread of its own, while the next one is awaited. The links take turns at the keeper, and each has a clock
/// of its own.
///
/// Where memory for the links is refused, none is awaited, and door, clock and keeper are as they were. It returns when
/// all links were left.
pub fn attend_door<V: Keeper + Send, C: Clock + Send, G: Door + Send, R: Threads + Wait + Sync>(
    rt: &R,
    alloc: Global,
    keeper: V,
    connections: u64,
    clock: &mut C,
    door: &mut G,
) -> Attended<V, G::In, G::Out>
    requires settled { (V.office keeper).state.doubt ≡ None }
    requires most { connections ≤ MOST }
    // The door gave the links whose ends there are, in their order. Each link was attended over its bytes as by itself,
    // at the keeper's one history, where its calls have places that rise, and each newer entry of that comes from a
    // request of one of the links.
    ensures serves { Serves (link_words G.In.left G.In.gives G.In.faults G.In.is_open G.Out.taken G.Out.faults
        G.Out.is_open)
        (record {
          clock = clock_of C.reading C.last clock.old;
          office = V.office keeper;
          door = door_of G.links G.faults door.old;
          most = connections;
        })
        (record {
          office = V.office result.keeper;
          door = door_of G.links G.faults door.new;
          ends = result.ends.items;
          stop = result.stop;
        }) }
    // Where memory for the links was refused, nothing was called, also where the door tells nothing.
    ensures unasked { result.stop ≡ None → (door.new ≡ door.old) × (clock.new ≡ clock.old)
        × (result.keeper ≡ keeper) × (result.ends.items ≡ []) }
{
    lock_laws::calls_are_true();
    link_laws::places_stay_in_order();
    let Ok(room) = Vec::with_capacity(alloc, connections as usize) else {
        return Attended {
            keeper,
            ends: no_ends(alloc),
            stop: None,
        };
    };
    let (lock, root) = match TurnLock::new(alloc, keeper) {
        Ok(made) => made,
        Err(keeper) => return Attended {
            keeper,
            ends: no_ends(alloc),
            stop: None,
        },
    };
    let other = clock.another();
    let gathered = attend_links(
        rt,
        alloc,
        &lock,
        root,
        Lent { door },
        other,
        room,
        connections,
    );
    let Gathered {
        root,
        gate,
        ends,
        stop,
    } = gathered;
    let Lent { door } = gate;
    take_back(door);
    Attended {
        keeper: lock.close(root),
        ends: turned_round(ends),
        stop: Some(stop),
    }
}
