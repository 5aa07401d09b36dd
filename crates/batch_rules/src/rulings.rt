//! The rulings on all lines of a batch.

ghost use Rattle.std.specs.Prelude.{◌≡◌, length};

use act_model::Ruling;
use item_list::ItemList;
use std::marker::Model;

/// The rulings on the lines of a batch, one on each, in their order, and how many groups have an accepted line. `judge`
/// alone makes them.
#[derive(Debug, Drop)]
pub struct Rulings {
    pub(crate) list: ItemList<Ruling>,
    pub(crate) groups: u32,
}

impl Model for Rulings {
    ghost use Rattle.batch_rules.specs.Rulings.{JudgedLines};

    ghost Value = { JudgedLines };

    ghost view = { λ r. record { list = r.list; groups = r.groups } };
}

impl Rulings {
    /// All rulings, as a slice.
    pub fn as_slice(&self) -> &[Ruling]
        ensures { result.now ≡ self.now.list }
    {
        self.list.as_slice()
    }

    /// How many rulings there are, which is how many lines the batch has.
    pub fn len(&self) -> u64
        ensures { result ≡ length self.now.list }
    {
        self.list.len()
    }

    /// How many groups have an accepted line.
    pub fn groups(&self) -> u32
        ensures { result ≡ self.now.groups }
    {
        self.groups
    }
}
