//! What each step of the lock tells its thread. The types of this file are for proofs alone.

ghost use Rattle.std.specs.Prelude.{◌≡◌, ℕ, ℤ, List, [], Option};
ghost use Rattle.act_model.specs.declared.keeper.Office.{Office};
ghost use Rattle.act_model.specs.declared.reply.Reply.{Reply};
ghost use Rattle.act_model.specs.declared.request.Request.{Request};
ghost use Rattle.intake_lock.specs.declared.view.Item.{Item};
ghost use Rattle.intake_lock.specs.Plays.{Draws, Looks, Publishes, Leaves, Tells};
ghost use Rattle.intake_lock.specs.Views.{spent_view, stem, branch, joint_view};

use crate::view::View;
use act_model::Keeper;
use atomic_table::{Join, Play, Split};
use std::marker::{Brand, PhantomData};

/// Draws a ticket.
pub struct Draw;

impl<V: Keeper> Play<Option<V>, View> for Draw {
    ghost then = { λ s m found n. Draws m found n };
}

/// Looks at the ticket that is served.
pub struct Look;

impl<V: Keeper> Play<Option<V>, View> for Look {
    ghost then = { λ s m found n. Looks V.office m found n };
}

/// The calls of a turn, and the office that they left.
pub trait Turned {
    /// The office.
    ghost office: { Office };

    /// The calls, the newest first.
    ghost items: { List Item };
}

impl Turned for Brand {
    ghost office = { spent_view.office };

    ghost items = { [] };
}

/// Publishes the calls of a turn.
pub struct Publish<W> {
    marker: PhantomData<W>,
}

impl<V: Keeper, W: Turned> Play<Option<V>, View> for Publish<W> {
    ghost then = { λ s m found n. Publishes W.office W.items m n };
}

/// Gives the turn on.
pub struct Next;

impl<V: Keeper> Play<Option<V>, View> for Next {
    ghost then = { λ s m found n. Leaves m n };
}

/// Tells that the shorter of two histories begins the longer.
pub struct Tell;

impl<V: Keeper> Play<Option<V>, View> for Tell {
    ghost then = { λ s m found n. Tells m n };
}

/// Splits a branch off the root.
pub struct Fork;

impl Split<View> for Fork {
    ghost left = { stem };

    ghost right = { branch };
}

/// Joins a branch into the root.
pub struct Merge;

impl Join<View> for Merge {
    ghost both = { joint_view };

    ghost spent = { spent_view };
}
