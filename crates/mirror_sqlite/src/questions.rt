//! What a mirror is asked, as values: a call that is generic in the question stands once, and not once for each.

ghost use Rattle.std.specs.Prelude.{◌≡◌, false, IfOk};
ghost use Rattle.std.specs.List.{AllByRecursion};
ghost use Rattle.mirror_store.specs.Rows.{IsObjectRow, IsSightRow, AreReplaceable};

use crate::replacing::replace;
use crate::texts::{between, objects};
use mirror_store::{MirrorErr, MirrorRows, ObjectRows, SightRows};
use sqlite::{Alter, Connection};
use std::alloc::Global;

/// Something that an open connection is asked.
pub(crate) trait Question {
    /// What is answered.
    type Answer;

    /// It may be asked.
    ghost may_ask: { Self → Type 0 };

    /// What holds of every answer.
    ghost is_right: { Self.Answer → Type 0 };

    /// Asks it.
    fn ask<S: Alter>(&self, conn: &mut Connection<S>) -> Result<Self::Answer, MirrorErr>
        requires may { may_ask self.now }
        requires mode { conn.old.in_transaction ≡ false }
        ensures right { IfOk result (λ answer. is_right answer) }
        ensures mode { conn.new.in_transaction ≡ false };
}

/// These rows put in the place of all that were there.
#[derive(Clone, Copy)]
pub(crate) struct Replacing<'a> {
    pub rows: &'a MirrorRows,
}

impl<'a> Question for Replacing<'a> {
    type Answer = ();

    ghost may_ask = { λ question. AreReplaceable question.rows.now };

    ghost is_right = { λ _. Unit {0} };

    fn ask<S: Alter>(&self, conn: &mut Connection<S>) -> Result<(), MirrorErr> {
        replace(conn, self.rows)
    }
}

/// The objects, by place.
#[derive(Clone, Copy)]
pub(crate) struct Objects {
    pub alloc: Global,
}

impl Question for Objects {
    type Answer = ObjectRows;

    ghost may_ask = { λ _. Unit {0} };

    ghost is_right = { AllByRecursion IsObjectRow };

    fn ask<S: Alter>(&self, conn: &mut Connection<S>) -> Result<ObjectRows, MirrorErr> {
        objects(self.alloc, conn)
    }
}

/// The observations from the one moment on and before the other, by time, ties by id.
#[derive(Clone, Copy)]
pub(crate) struct Window {
    pub alloc: Global,
    pub from: i64,
    pub to: i64,
}

impl Question for Window {
    type Answer = SightRows;

    ghost may_ask = { λ _. Unit {0} };

    ghost is_right = { AllByRecursion IsSightRow };

    fn ask<S: Alter>(&self, conn: &mut Connection<S>) -> Result<SightRows, MirrorErr> {
        between(self.alloc, conn, self.from, self.to)
    }
}
