//! The keys of the roster's callers, in the order of their texts.

ghost use Rattle.std.specs.Prelude.{nat_eq};
ghost use Rattle.std.proofs.Common.{rules};
ghost use Rattle.std.specs.Cmp.{partial_order_from_own_ties};
ghost use Rattle.std.specs.Cmp.Lexicographic.{pointwise, slice_cmp};
ghost use Rattle.std.specs.Cmp.Rules.{comparing};
ghost use Rattle.std.specs.Ordering.{nat_cmp, on, as_partial_cmp};
ghost use Rattle.act_bodies.specs.Keys.{key_text};

use act_model::{Caller, Key};
use std::cmp::Ordering;

/// A key, by whose text it is ordered, and the caller who has it.
#[derive(Clone, Copy, Debug)]
pub struct KnownKey {
    /// The key.
    pub key: Key,
    /// The caller.
    pub caller: Caller,
}

impl PartialEq for KnownKey {
    ghost eq = { on (λ k. key_text k.key) (pointwise nat_eq) };

    ghost laws = { Prim.search (comparing, rules) };

    fn eq(&self, other: &KnownKey) -> bool {
        self.key.is(&other.key)
    }
}

impl Eq for KnownKey {
    ghost laws = { Prim.search (comparing, rules) };
}

impl Ord for KnownKey {
    ghost cmp = { on (λ k. key_text k.key) (slice_cmp nat_cmp) };

    ghost total = { Prim.search (comparing, rules) };

    ghost matches_partial_cmp = { Prim.search (comparing, rules) };

    ghost matches_eq = { Prim.search (comparing, rules) };

    fn cmp(&self, other: &KnownKey) -> Ordering {
        self.key.text().cmp(&other.key.text())
    }
}

impl PartialOrd for KnownKey {
    ghost partial_cmp = { as_partial_cmp (on (λ k. key_text k.key) (slice_cmp nat_cmp)) };

    ghost laws = { partial_order_from_own_ties (Prim.search (comparing, rules)) (Prim.search (comparing, rules)) };

    fn partial_cmp(&self, other: &KnownKey) -> Option<Ordering> {
        Some(self.cmp(other))
    }
}
