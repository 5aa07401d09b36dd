//! A desk that stamps its acts, with what a crash may have left since it was opened and since each act.

ghost use Rattle.std.specs.Prelude.{◌≡◌, ◌⊎◌, ◌↔◌, ◌≤◌, ℕ, List, [], Some, None};
ghost use Rattle.std.specs.List.{AllByRecursion};
ghost use Rattle.disk_model.specs.Crashes.{During};
ghost use Rattle.act_model.specs.declared.entry.Entry.{Entry};
ghost use Rattle.act_model.specs.Clocks.{clock_of};
ghost use Rattle.act_model.specs.Legal.{IsLegal};
ghost use Rattle.intake_lock.specs.Rule.{MOST};
ghost use Rattle.mpc_desk.specs.Desks.{DeskState};
ghost use Rattle.serve_command.specs.Gathering.{door_of};
ghost use Rattle.serve_command.specs.Images.{StandsWithin, Answered, WasAsked, stamping_office, HasPassed, WasBetween};
ghost use Rattle.serve_command.specs.Links.{link_words};
ghost use Rattle.serve_command.specs.Serving.{Serves};

use crate::keeping::{Attended, attend_door};
use act_model::{Keeper, Reply, Request, laws as office_laws};
use desk_io::{Clock, Door};
use disk_model::Disk;
use http_server::Log;
use mpc_desk::ChainedDesk;
use obs_time::Instant;
use std::alloc::Global;
use std::marker::{Brand, Model, PhantomData};
use std::sync::Wait;
use std::thread::Threads;

/// A desk as it was opened, for proofs alone: its history, and the moment and the images of its disk then.
pub trait Opening {
    /// The history.
    ghost history: { List Entry };

    /// The moment of the disk.
    ghost moment: { ℕ };

    /// The images of the disk since an earlier moment.
    ghost images: { ℕ → List ℕ → Type 0 };
}

impl Opening for Brand {
    ghost history = { [] };

    ghost moment = { 0 };

    ghost images = { λ t image. ⊥ };
}

/// What a desk was asked in one act, the request and the clock's reading, as a log of one pair. It is for proofs alone.
pub type Asked = Log<Request, Instant>;

/// A desk that was opened so. Contracts see the desk, and how it was when it had answered each of its acts: the latter
/// is a list that only proofs read, and takes no memory.
#[derive(Drop)]
pub struct Watched<D: Disk, W: Opening> {
    desk: ChainedDesk<D>,
    answered: Log<ChainedDesk<D>, Asked>,
    opening: PhantomData<W>,
}

impl<D: Disk, W: Opening> Model for Watched<D, W> {
    ghost use Rattle.std.specs.List.{AllByRecursion};
    ghost use Rattle.serve_command.specs.Images.{IsWatched, HasPassed, WasAsked, WatchedState};

    ghost Value = { WatchedState D };

    ghost view = { λ w. record { desk = w.desk; answered = w.answered.items } };

    ghost invariant = { λ w. IsWatched D.moment D.since W.history W.moment W.images (WasAsked w.answered.items) w.desk
        × AllByRecursion
        (λ then. HasPassed D.moment D.since W.history W.moment W.images (WasAsked w.answered.items) w.desk then.0)
        w.answered.items };
}

impl<D: Disk, W: Opening> Watched<D, W> {
    // Watches a desk from now on.
    fn new(desk: ChainedDesk<D>) -> Watched<D, W>
        requires settled { desk.state.doubt ≡ None }
        requires legal { IsLegal desk.founder desk.state.settled }
        requires history { W.history ≡ desk.state.settled }
        requires moment { W.moment ≡ D.moment desk.disk }
        requires images { (t : ℕ) (image : List ℕ) → D.since desk.disk t image → W.images t image }
        ensures { result ≡ record { desk = desk; answered = [] } }
    {
        Watched {
            desk,
            answered: Log::new(),
            opening: PhantomData,
        }
    }

    // The desk, and what a crash may have left since it was opened and since each act.
    fn close(self) -> ChainedDesk<D>
        ensures desk { result ≡ self.desk }
        ensures later { W.moment ≤ D.moment result.disk }
        ensures images { (t : ℕ) (image : List ℕ) → t ≤ W.moment → D.since result.disk t image →
            W.images t image
            ⊎ StandsWithin result.founder (Some result.limit) (WasAsked self.answered) W.history result.state.settled
            image }
        ensures passed { AllByRecursion
            (λ then. HasPassed D.moment D.since W.history W.moment W.images (WasAsked self.answered) result then.0)
            self.answered }
    {
        self.desk
    }
}

impl<D: Disk, W: Opening> Keeper for Watched<D, W> {
    ghost office = { λ w. stamping_office D.moment D.faults w.desk w.answered };

    fn act(&mut self, request: &Request, reading: Instant) -> Reply {
        office_laws::histories_grow();
        office_laws::histories_are_legal();
        office_laws::steps_add_one_entry();
        let reply = self.desk.act(request, reading);
        let asked = Log::new().and(request, &reading);
        let answered = self.answered.and(&self.desk, &asked);
        self.answered = answered;
        reply
    }

    fn ask(&self, request: &Request) -> Reply {
        self.desk.ask(request)
    }

    fn entries(&self) -> u64 {
        Keeper::entries(&self.desk)
    }
}

/// Attends up to this many links of a door, with a desk that was opened so, and says what a crash at any moment
/// meanwhile leaves, and since each act that was answered.
pub(crate) fn attend_watched<
    W: Opening + Send,
    D: Disk + Send,
    C: Clock + Send,
    G: Door + Send,
    R: Threads + Wait + Sync,
>(
    rt: &R,
    alloc: Global,
    desk: ChainedDesk<D>,
    connections: u64,
    clock: &mut C,
    door: &mut G,
) -> Attended<ChainedDesk<D>, G::In, G::Out>
    requires settled { desk.state.doubt ≡ None }
    requires legal { IsLegal desk.founder desk.state.settled }
    requires most { connections ≤ MOST }
    requires history { W.history ≡ desk.state.settled }
    requires moment { W.moment ≡ D.moment desk.disk }
    requires images { (t : ℕ) (image : List ℕ) → D.since desk.disk t image ↔ W.images t image }
    ensures serves { (answered : Answered D)
        × Serves (link_words G.In.left G.In.gives G.In.faults G.In.is_open G.Out.taken G.Out.faults G.Out.is_open)
        (record {
          clock = clock_of C.reading C.last clock.old;
          office = stamping_office D.moment D.faults desk [];
          door = door_of G.links G.faults door.old;
          most = connections;
        })
        (record {
          office = stamping_office D.moment D.faults result.keeper answered;
          door = door_of G.links G.faults door.new;
          ends = result.ends.items;
          stop = result.stop;
        })
        × AllByRecursion (λ then. WasBetween D.moment D.since (WasAsked answered) desk result.keeper then.0) answered
        × During D.moment D.since desk.disk result.keeper.disk
        (StandsWithin desk.founder (Some desk.limit) (WasAsked answered) desk.state.settled
        result.keeper.state.settled) }
    ensures unasked { result.stop ≡ None → (door.new ≡ door.old) × (clock.new ≡ clock.old) }
{
    let watched = Watched::<D, W>::new(desk);
    let Attended { keeper, ends, stop } = attend_door(rt, alloc, watched, connections, clock, door);
    Attended {
        keeper: keeper.close(),
        ends,
        stop,
    }
}
