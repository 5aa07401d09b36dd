//! Turns at the keeper behind the lock.

ghost use Rattle.std.specs.Prelude.{◌≡◌, ℤ, true, false, [], Option, Some, None};
ghost use Rattle.act_model.specs.declared.keeper.Office.{Office};
ghost use Rattle.act_model.specs.declared.reply.Reply.{Reply};
ghost use Rattle.act_model.specs.declared.reply.Reply.TheVariants.{Done};
ghost use Rattle.act_model.specs.declared.request.Request.{Request};
ghost use Rattle.read_ahead.specs.declared.body.Body.TheVariants.{NoRoom};
ghost use Rattle.act_model.specs.declared.request.Verb.TheVariants.{Unknown};
ghost use Rattle.act_model.specs.Requests.{is_act};
ghost use Rattle.intake_lock.specs.Items.{TakesTurn, Noted};
ghost use Rattle.intake_lock.specs.Views.{spent_view};

use crate::keeping::Seat;
use crate::view::{Item, View};
use act_model::{Keeper, Reply, Request};
use atomic_table::{Mark, PerchPlay, PerchRule, RuledPerch};
use item_list::ItemList;
use obs_time::Instant;
use std::fmt;
use std::fmt::{Debug, Formatter};
use std::marker::{Brand, Model, PhantomData};
use std::snapshot::Snapshot;

/// The calls of a turn, for proofs alone.
pub type Log = ItemList<Item>;

/// The rule of a turn's calls, which asks nothing.
pub struct Noting;

impl PerchRule<Log> for Noting {
    ghost use Rattle.std.specs.Prelude.{[]};

    ghost holds = { λ n views. Unit {0} };

    ghost first = { [] };
}

/// What a keeper was asked and answered, and the office before and after.
pub trait Answered {
    /// The office before the call.
    ghost before: { Office };

    /// What was asked.
    ghost request: { Request };

    /// The clock's reading, where it was an act.
    ghost reading: { Option ℤ };

    /// What was answered.
    ghost reply: { Reply };

    /// The office after the call.
    ghost after: { Office };
}

impl Answered for Brand {
    ghost before = { spent_view.office };

    ghost request = { record { key = spent_view.office.founder; number = None; verb = Unknown; body = NoRoom } };

    ghost reading = { None };

    ghost reply = { Done [] };

    ghost after = { spent_view.office };
}

/// Notes a call.
pub struct Note<W> {
    marker: PhantomData<W>,
}

impl<W: Answered> PerchPlay<Log> for Note<W> {
    ghost then = { λ old new items found noted. Noted W.before W.request W.reading W.reply W.after items noted };
}

/// Where a turn's calls are noted.
pub type Notes<V> = RuledPerch<Option<V>, View, Log, Noting>;

/// The turn of a lock, with its keeper.
///
/// A turn that is dropped is lost with its keeper, and nobody enters any more.
#[derive(Drop)]
pub struct Turn<V: Keeper> {
    pub(crate) seat: Seat<V>,
    pub(crate) keeper: V,
    pub(crate) notes: Notes<V>,
    pub(crate) log: Mark<Log>,
}

impl<V: Keeper> Debug for Turn<V> {
    fn fmt<W: fmt::Write>(&self, f: &mut Formatter<W>) -> fmt::Result {
        f.write_str("Turn")
    }
}

impl<V: Keeper> Model for Turn<V> {
    ghost use Rattle.std.specs.Prelude.{◌≡◌, ℕ, [], ◌∷◌, None};
    ghost use Rattle.intake_lock.specs.declared.view.Stage.TheVariants.{Holding};
    ghost use Rattle.intake_lock.specs.Items.{Called};
    ghost use Rattle.intake_lock.specs.Passes.{TurnState};
    ghost use Rattle.intake_lock.specs.Views.{live};

    ghost Value = { TurnState };

    ghost view = { λ t. record {
      lock = t.seat.table_id;
      id = t.seat.id;
      view = t.seat.me.0;
      office = V.office t.keeper;
      items = t.log.view;
    } };

    ghost invariant = { λ t.
        (t.seat.me.1 ≡ (0, None) ∷ [])
        × ((ticket : ℕ) × (t.seat.me.0.stage ≡ Holding ticket))
        × (live t.seat.me.0 ≡ 1)
        × Called t.seat.me.0.office t.log.view (V.office t.keeper)
        × (t.log.perch ≡ t.notes.name) };
}

// Notes a call that the keeper answered. The arguments say which, for the proof alone.
fn note_call<V: Keeper, W: Answered>(
    notes: &Notes<V>,
    log: &mut Mark<Log>,
    _before: &Snapshot<V>,
    _keeper: &V,
    _request: &Request,
    _reading: Option<Instant>,
    _reply: &Reply,
)
    requires place { log.old.perch ≡ notes.now.name }
    requires call { TakesTurn W.before W.request W.reading W.reply W.after }
    ensures place { log.new.perch ≡ log.old.perch }
    ensures noted { Noted W.before W.request W.reading W.reply W.after log.old.view log.new.view }
{
    notes.load::<Note<W>>(log);
}

impl<V: Keeper> Turn<V> {
    /// Takes the turn of an act at this reading of the clock. The request has the verb of an act. It takes memory.
    pub fn act(&mut self, request: &Request, reading: Instant) -> Reply
        requires act { is_act request.now.verb ≡ true }
        ensures call { Noted self.old.office request.now
            (Some reading) result self.new.office self.old.items self.new.items }
        ensures lock { (self.new.lock ≡ self.old.lock) × (self.new.id ≡ self.old.id) }
        ensures view { self.new.view ≡ self.old.view }
    {
        let before = Snapshot::of(&self.keeper);
        let reply = self.keeper.act(request, reading);
        note_call::<V, Brand>(
            &self.notes,
            &mut self.log,
            &before,
            &self.keeper,
            request,
            Some(reading),
            &reply,
        );
        reply
    }

    /// Answers a query, a request whose verb is that of no act. It takes memory.
    pub fn ask(&mut self, request: &Request) -> Reply
        requires query { is_act request.now.verb ≡ false }
        ensures call { Noted self.old.office request.now None result self.new.office self.old.items self.new.items }
        ensures stays { self.new.office ≡ self.old.office }
        ensures lock { (self.new.lock ≡ self.old.lock) × (self.new.id ≡ self.old.id) }
        ensures view { self.new.view ≡ self.old.view }
    {
        let before = Snapshot::of(&self.keeper);
        let reply = self.keeper.ask(request);
        note_call::<V, Brand>(
            &self.notes,
            &mut self.log,
            &before,
            &self.keeper,
            request,
            None,
            &reply,
        );
        reply
    }
}
