//! Passes, the leave to enter the lock.

use crate::view::View;
use atomic_table::Badge;
use std::fmt;
use std::fmt::{Debug, Formatter};
use std::marker::Model;

/// A pass of a lock: the leave to enter, with what its holder knows. It has no bytes.
///
/// A pass that is dropped is lost, and its lock can't be closed any more.
#[derive(Drop)]
pub struct Pass {
    pub(crate) badge: Badge<View>,
}

impl Debug for Pass {
    fn fmt<W: fmt::Write>(&self, f: &mut Formatter<W>) -> fmt::Result {
        f.write_str("Pass")
    }
}

impl Model for Pass {
    ghost use Rattle.std.specs.Prelude.{◌≡◌, [], ◌∷◌};
    ghost use Rattle.intake_lock.specs.declared.view.Stage.TheVariants.{Idle};
    ghost use Rattle.intake_lock.specs.Passes.{PassState, view_in};
    ghost use Rattle.intake_lock.specs.Views.{live};

    ghost Value = { PassState };

    ghost view = { λ p. record { lock = p.badge.table_id; id = p.badge.id; view = view_in p.badge.views } };

    ghost invariant = { λ p.
        (p.badge.views ≡ view_in p.badge.views ∷ [])
        × ((view_in p.badge.views).stage ≡ Idle)
        × (live (view_in p.badge.views) ≡ 1) };
}
