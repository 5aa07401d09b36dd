//! Keys of moments: what tells the groups of observations at a time apart.

ghost use Rattle.std.specs.Prelude.{◌≡◌};
ghost use Rattle.std.proofs.Common.{rules};
ghost use Rattle.std.specs.Int.{w64, cast_unsigned};
ghost use Rattle.std.specs.Hash as fed;
ghost use Rattle.std.specs.Cmp.Rules.{hashing};
ghost use Rattle.place_keys.specs.Marks.{mixed};
ghost use Rattle.batch_rules.specs.Places.{moment_key};
ghost use Rattle.batch_rules.specs.Marks.{group_mark};

use crate::keys::{GroupKey, group_key, group_mark};
use obs_record::Sighting;
use place_keys::mixed;
use std::hash::{Hash, Hasher};

/// What tells the moments of groups apart: the group, and the time in nanoseconds.
#[derive(Clone, Copy, PartialEq, Eq)]
pub(crate) struct MomentKey {
    pub(crate) group: GroupKey,
    pub(crate) time: i64,
}

impl Hash for MomentKey {
    ghost hash_input = { λ key. fed.u64 (mixed (cast_unsigned w64 key.time) (group_mark key.group)) };

    ghost respects_eq = { Prim.search (hashing, rules) };

    fn hash<H: Hasher>(&self, state: &mut H) {
        state.write_u64(mixed(self.time.cast_unsigned(), group_mark(&self.group)));
    }
}

/// The key of an observation's group and time.
pub(crate) fn moment_key(s: &Sighting) -> MomentKey
    ensures { result ≡ moment_key s.now }
{
    MomentKey {
        group: group_key(s),
        time: s.time.ns(),
    }
}
