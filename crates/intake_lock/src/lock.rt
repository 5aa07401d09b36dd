//! The lock, and how it is entered, left, split, joined and closed.

ghost use Rattle.std.specs.Prelude.{◌≡◌, ℕ, ◌^◌, ◌<◌, ◌%◌, List, [], ◌∷◌, length, Some, None, IfOk, IfErr, IfSome};
ghost use Rattle.std.specs.Prelude.{IfNone};
ghost use Rattle.act_model.specs.Conducts.{Extends};
ghost use Rattle.intake_lock.specs.declared.view.Role.TheVariants.{Root, Branch};
ghost use Rattle.intake_lock.specs.declared.view.Stage.TheVariants.{Waiting, Holding};
ghost use Rattle.intake_lock.specs.Stamps.{StampsOn};
ghost use Rattle.intake_lock.specs.Items.{Called};
ghost use Rattle.intake_lock.specs.Passes.{MaySplit, IsRoot};
ghost use Rattle.intake_lock.specs.Plays.{Gets};
ghost use Rattle.intake_lock.specs.Rule.{word, Closes};
ghost use Rattle.intake_lock.specs.Views.{live, history_seen, first_view, waiting_view, holding_view, published_view};
ghost use Rattle.intake_lock.specs.Views.{idle, stem, branch};
ghost use Rattle.intake_lock.specs.Views.{joint_view};

use crate::keeping::{DRAWN, KEEPER, LENGTH, LockTable, SERVED, Seat, Words};
use crate::pass::Pass;
use crate::plays::{Draw, Fork, Look, Merge, Next, Publish, Tell, Turned};
use crate::turn::{Log, Turn};
use crate::view::View;
use act_model::Keeper;
use atomic_table::{Mark, Refused, RuledPerch, Table};
use std::alloc::Global;
use std::fmt;
use std::fmt::{Debug, Formatter};
use std::hint::spin_loop;
use std::marker::{Brand, Model};
use std::snapshot::Snapshot;
use std::sync::Wait;

// How often a thread looks whether its turn came before it parks.
const LOOKS: u32 = 1_000;

/// A lock round a keeper of the office, which callers in many threads enter one after another.
///
/// Contracts see which lock it is, and the office that the keeper stood for when the lock was made.
#[derive(Drop)]
pub struct TurnLock<V: Keeper> {
    table: LockTable<V>,
}

impl<V: Keeper> Debug for TurnLock<V> {
    fn fmt<W: fmt::Write>(&self, f: &mut Formatter<W>) -> fmt::Result {
        f.write_str("TurnLock")
    }
}

impl<V: Keeper> Model for TurnLock<V> {
    ghost use Rattle.std.specs.Prelude.{◌≡◌};
    ghost use Rattle.intake_lock.specs.Passes.{LockState};

    ghost Value = { LockState };

    ghost view = { λ l. record { id = l.table.shared.table_id; opening = V.office l.table.shared.key.value } };

    ghost invariant = { λ l. (l.table.shared.table_id.words ≡ 3) × (l.table.shared.table_id.slots ≡ 1) };
}

impl<V: Keeper> TurnLock<V> {
    /// A lock round a keeper without an act in doubt, and the root's pass.
    ///
    /// # Errors
    ///
    /// Memory was refused. The keeper comes back.
    pub fn new(alloc: Global, value: V) -> Result<(TurnLock<V>, Pass), V>
        requires { (V.office value).state.doubt ≡ None }
        ensures lock { IfOk result (λ made. made.0.opening ≡ V.office value) }
        ensures pass { IfOk result (λ made. (made.1.lock ≡ made.0.id) × (made.1.view ≡ first_view (V.office value))) }
        ensures back { IfErr result (λ kept. kept ≡ value) }
    {
        let entries = value.entries();
        let about = Snapshot::of(&value);
        let mut slots = Vec::new(alloc);
        if slots.reserve(1).is_err() {
            return Err(value);
        }
        slots.push_reserved(Some(value));
        match Table::new(alloc, &[0, 0, entries], slots, &about) {
            Ok((table, seat)) => {
                let badge = seat.into_badge();
                Ok((TurnLock { table }, Pass { badge }))
            }
            Err(Refused { mut slots }) => match slots.pop() {
                Some(Some(value)) => Err(value),
                _ => unreachable!(),
            },
        }
    }

    /// Enters: waits for the turn of the pass, and takes it with the keeper. The history that the keeper has extends
    /// what the pass has seen.
    pub fn enter<R: Wait>(&self, rt: &R, pass: Pass) -> Turn<V>
        requires { pass.lock ≡ self.now.id }
        ensures lock { (result.lock ≡ pass.lock) × (result.id ≡ pass.id) }
        ensures pass { (ticket : ℕ) × (result.view ≡ holding_view ticket result.office pass.view) }
        ensures office { (result.office.founder ≡ pass.view.office.founder)
            × (result.office.limit ≡ pass.view.office.limit) }
        ensures grows { Extends (history_seen pass.view) result.office.state.settled }
        ensures stamps { StampsOn pass.view.office.stamps result.office.stamps }
        ensures items { result.items ≡ [] }
    {
        act_model::laws::steps_add_one_entry();
        let Pass { badge } = pass;
        let mut seat = badge.into_seat();
        let ticket = self.table.shared.fetch_add::<Draw>(&mut seat, DRAWN, 1);
        await_turn(rt, &self.table.shared, &mut seat, ticket);
        let taken = self.table.shared.exchange(&mut seat, KEEPER, None);
        let Some(keeper) = taken else { unreachable!() };
        let (notes, log) = RuledPerch::new(&seat, 0);
        Turn {
            seat,
            keeper,
            notes,
            log,
        }
    }

    /// Leaves: publishes the calls of the turn, puts the keeper back, and gives the turn on. The pass has then seen the
    /// turn's history, its calls are those of the turn and its own from before, and it made as many entries more as the
    /// history has.
    pub fn leave(&self, turn: Turn<V>) -> Pass
        requires { turn.lock ≡ self.now.id }
        ensures lock { (result.lock ≡ turn.lock) × (result.id ≡ turn.id) }
        ensures pass { result.view ≡ idle (published_view turn.office turn.items turn.view) }
    {
        act_model::laws::steps_add_one_entry();
        let Turn {
            mut seat,
            keeper,
            notes: _notes,
            log,
        } = turn;
        publish::<V, Brand>(&self.table.shared, &mut seat, &log, &keeper);
        drop(self.table.shared.exchange(&mut seat, KEEPER, Some(keeper)));
        let served = self.table.shared.fetch_add::<Next>(&mut seat, SERVED, 1);
        // Whoever draws a ticket after this look finds it served, and needs no waking.
        if self.table.shared.peek(DRAWN) != served.wrapping_add(1) {
            self.table.shared.wake_all(SERVED);
        }
        Pass {
            badge: seat.into_badge(),
        }
    }

    /// Splits a branch off the root, which has fewer than 1,000 branches out. The branch has seen as much, and made no
    /// calls. It takes no memory, and doesn't fail.
    ///
    /// # Errors
    ///
    /// Never, as the root has fewer than 1,000 branches out; the type keeps the pass for that case.
    pub fn split(&self, pass: Pass) -> Result<(Pass, Pass), Pass>
        requires lock { pass.lock ≡ self.now.id }
        requires root { MaySplit pass.view.role }
        ensures stem { IfOk result (λ both.
            (both.0.lock ≡ pass.lock) × (both.0.id ≡ pass.id) × (both.0.view ≡ stem pass.view)) }
        ensures branch { IfOk result (λ both. (both.1.lock ≡ pass.lock) × (both.1.view ≡ branch pass.view)) }
        ensures back { IfErr result (λ same. same ≡ pass) }
    {
        act_model::laws::steps_add_one_entry();
        let Pass { badge } = pass;
        let mut seat = badge.into_seat();
        let other = self.table.shared.split_seat::<Fork>(&mut seat);
        let stem = Pass {
            badge: seat.into_badge(),
        };
        let branch = Pass {
            badge: other.into_badge(),
        };
        Ok((stem, branch))
    }

    /// Joins a branch into the root: the root has then seen the longer history, which the shorter one begins, and has
    /// both one's calls.
    pub fn join(&self, pass: Pass, other: Pass) -> Pass
        requires lock { (pass.lock ≡ self.now.id) × (other.lock ≡ self.now.id) }
        requires root { IsRoot pass.view.role }
        requires branch { other.view.role ≡ Branch }
        ensures lock { (result.lock ≡ pass.lock) × (result.id ≡ pass.id) }
        ensures view { result.view ≡ joint_view pass.view other.view }
        ensures seen { Extends (history_seen pass.view) (history_seen result.view)
            × Extends (history_seen other.view) (history_seen result.view) }
    {
        act_model::laws::steps_add_one_entry();
        let Pass { badge } = pass;
        let Pass { badge: joining } = other;
        let mut seat = badge.into_seat();
        self.table
            .shared
            .join_seat::<Merge>(&mut seat, joining.into_seat());
        self.table.shared.load::<Tell>(&mut seat, DRAWN);
        Pass {
            badge: seat.into_badge(),
        }
    }

    /// Closes the lock, once every branch was joined into the root, and gives the keeper.
    pub fn close(self, pass: Pass) -> V
        requires lock { pass.lock ≡ self.id }
        requires root { pass.view.role ≡ Root 0 }
        ensures { Closes self.opening pass.view (V.office result) }
    {
        let TurnLock { table } = self;
        let Pass { badge } = pass;
        let mut closed = table.close_with(badge.into_seat());
        let taken = closed.take(KEEPER);
        closed.free();
        let Some(value) = taken else { unreachable!() };
        value
    }
}

// Looks at the ticket that is served, and takes the slot where it is the pass's own. None then, and else the ticket
// that is served.
fn look<V: Keeper>(words: &Words<V>, seat: &mut Seat<V>, ticket: u64) -> Option<u64>
    requires seat { (seat.old.table_id ≡ words.now.table_id) × (words.now.table_id.words ≡ 3) × (seat.old.me.1 ≡ []) }
    requires ticket { (t : ℕ) × (seat.old.me.0.stage ≡ Waiting t) × (ticket ≡ word t) }
    requires live { live seat.old.me.0 ≡ 1 }
    ensures seat { (seat.new.table_id ≡ seat.old.table_id) × (seat.new.id ≡ seat.old.id) }
    ensures missed { IfSome result (λ served. seat.new.me ≡ seat.old.me) }
    ensures gets { IfNone result ((t : ℕ) × Gets V.office t seat.old.me seat.new.me) }
{
    act_model::laws::steps_add_one_entry();
    let served = words.load::<Look>(seat, SERVED);
    if served == ticket { None } else { Some(served) }
}

// Looks again and again for some microseconds, about as long as a turn without the disk takes, since it takes longer to
// wake a thread that parks, and all who come later wait for it. None where the ticket came, and else what was served.
fn look_a_while<V: Keeper>(words: &Words<V>, seat: &mut Seat<V>, ticket: u64) -> Option<u64>
    requires seat { (seat.old.table_id ≡ words.now.table_id) × (words.now.table_id.words ≡ 3) × (seat.old.me.1 ≡ []) }
    requires ticket { (t : ℕ) × (seat.old.me.0.stage ≡ Waiting t) × (ticket ≡ word t) }
    requires live { live seat.old.me.0 ≡ 1 }
    ensures seat { (seat.new.table_id ≡ seat.old.table_id) × (seat.new.id ≡ seat.old.id) }
    ensures missed { IfSome result (λ served. seat.new.me ≡ seat.old.me) }
    ensures gets { IfNone result ((t : ℕ) × Gets V.office t seat.old.me seat.new.me) }
{
    for _ in 0..LOOKS {
        let missed = look(words, seat, ticket);
        if missed.is_none() {
            return None;
        }
        spin_loop();
    }
    look(words, seat, ticket)
}

// Waits until the ticket is served, and takes the slot.
fn await_turn<V: Keeper, R: Wait>(rt: &R, words: &Words<V>, seat: &mut Seat<V>, ticket: u64)
    requires seat { (seat.old.table_id ≡ words.now.table_id) × (words.now.table_id.words ≡ 3) × (seat.old.me.1 ≡ []) }
    requires ticket { (t : ℕ) × (seat.old.me.0.stage ≡ Waiting t) × (ticket ≡ word t) }
    requires live { live seat.old.me.0 ≡ 1 }
    ensures seat { (seat.new.table_id ≡ seat.old.table_id) × (seat.new.id ≡ seat.old.id) }
    ensures gets { (t : ℕ) × Gets V.office t seat.old.me seat.new.me }
{
    for _ in rt.forever() {
        let Some(served) = look_a_while(words, seat, ticket) else {
            return;
        };
        words.park(rt, SERVED, (served % (1 << 32)) as u32);
    }
    unreachable!()
}

// Publishes the calls of a turn. The log and the keeper say which, and what office they left.
fn publish<V: Keeper, W: Turned>(words: &Words<V>, seat: &mut Seat<V>, _log: &Mark<Log>, keeper: &V)
    requires seat { (seat.old.table_id ≡ words.now.table_id) × (words.now.table_id.words ≡ 3) }
    requires turn { (t : ℕ) × (seat.old.me.0.stage ≡ Holding t) }
    requires live { live seat.old.me.0 ≡ 1 }
    requires office { W.office ≡ V.office keeper.now }
    requires called { Called seat.old.me.0.office W.items W.office }
    ensures seat { (seat.new.table_id ≡ seat.old.table_id) × (seat.new.id ≡ seat.old.id) }
    ensures told { seat.new.me ≡ (published_view W.office W.items seat.old.me.0, seat.old.me.1) }
{
    act_model::laws::steps_add_one_entry();
    act_model::laws::histories_are_legal();
    words.store::<Publish<W>>(seat, LENGTH, keeper.entries());
}
