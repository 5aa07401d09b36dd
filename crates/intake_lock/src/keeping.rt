//! The rule of the lock, over what its table holds.

use crate::view::View;
use act_model::Keeper;
use atomic_table::{Seat as TableSeat, Shared, Table, TableRule};
use std::alloc::Global;
use std::snapshot::Snapshot;

/// The rule. The table knows the keeper with which the lock was made.
pub struct Turns;

impl<V: Keeper> TableRule<Option<V>, View, Snapshot<V>> for Turns {
    ghost use Rattle.intake_lock.specs.Rule.{Standing};
    ghost use Rattle.intake_lock.specs.Views.{first_view};

    ghost holds = { λ key. Standing V.office (V.office key.value) };

    ghost first = { λ key. first_view (V.office key.value) };
}

/// The table of a lock.
pub type LockTable<V> = Table<Option<V>, View, Snapshot<V>, Turns, Global>;

/// The table as threads see it.
pub type Words<V> = Shared<Option<V>, View, Snapshot<V>, Turns>;

/// What a thread steps with.
pub type Seat<V> = TableSeat<Option<V>, View>;

/// The word of the tickets drawn.
pub const DRAWN: usize = 0;

/// The word of the ticket served.
pub const SERVED: usize = 1;

/// The word of the history's length.
pub const LENGTH: usize = 2;

/// The slot of the keeper.
pub const KEEPER: usize = 0;
