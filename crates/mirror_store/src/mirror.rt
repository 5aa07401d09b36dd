//! Where the rows of a catalogue are kept.

ghost use Rattle.std.specs.Prelude.{◌≡◌, ◌≢◌, ℕ, ◌≤◌, Option, IfOk, OnOk, OnErr};
ghost use Rattle.std.specs.List.{AllByRecursion};
ghost use Rattle.call_log.specs.Counts.{Rises};
ghost use Rattle.mirror_store.specs.declared.rows.MirrorRows.{MirrorRows};
ghost use Rattle.mirror_store.specs.Rows.{IsObjectRow, IsSightRow, AreReplaceable};
ghost use Rattle.mirror_store.specs.Mirrors.{IsReplaced, TellsObjects, TellsBetween};

use crate::rows::{MirrorRows, ObjectRows, SightRows};
use item_list::NoMemory;
use obs_time::Instant;

/// Why a mirror didn't do what it was asked.
#[derive(Clone, Copy, Debug, PartialEq, Eq)]
pub enum MirrorErr {
    /// It failed, and its count of faults rose.
    Failed,
    /// Out of memory.
    NoMemory,
}

/// Two lists of rows, which are replaced together.
pub trait Mirror: Drop {
    /// The two lists, where they are known.
    ghost told: { Self → Option MirrorRows };

    /// How often the mirror has failed.
    ghost faults: { Self → ℕ };

    /// Puts these rows in the place of all that were there: both lists, or after an error neither. It takes memory.
    ///
    /// # Errors
    ///
    /// The mirror failed, or memory was refused.
    fn replace(&mut self, rows: &MirrorRows) -> Result<(), MirrorErr>
        requires { AreReplaceable rows.now }
        ensures replaced { OnOk result (IsReplaced (told self.old) (told self.new) rows.now) }
        ensures kept { OnErr result (told self.new ≡ told self.old) }
        ensures counts { faults self.old ≤ faults self.new }
        ensures cause { result ≡ Err MirrorErr.Failed → Rises (faults self.old) (faults self.new) }
        ensures faultless { result ≢ Err MirrorErr.Failed → faults self.new ≡ faults self.old };

    /// The objects, by place. It takes memory.
    ///
    /// # Errors
    ///
    /// The mirror failed, or memory was refused.
    fn objects(&mut self) -> Result<ObjectRows, MirrorErr>
        ensures objects { IfOk result (λ rows. TellsObjects (told self.old) rows) }
        ensures in_range { IfOk result (λ rows. AllByRecursion IsObjectRow rows) }
        ensures kept { told self.new ≡ told self.old }
        ensures counts { faults self.old ≤ faults self.new }
        ensures cause { result ≡ Err MirrorErr.Failed → Rises (faults self.old) (faults self.new) }
        ensures faultless { result ≢ Err MirrorErr.Failed → faults self.new ≡ faults self.old };

    /// The observations from the one moment on and before the other, by time, those of one moment by id. It takes
    /// memory.
    ///
    /// # Errors
    ///
    /// The mirror failed, or memory was refused.
    fn between(&mut self, from: Instant, to: Instant) -> Result<SightRows, MirrorErr>
        ensures sights { IfOk result (λ rows. TellsBetween (told self.old) from to rows) }
        ensures in_range { IfOk result (λ rows. AllByRecursion IsSightRow rows) }
        ensures kept { told self.new ≡ told self.old }
        ensures counts { faults self.old ≤ faults self.new }
        ensures cause { result ≡ Err MirrorErr.Failed → Rises (faults self.old) (faults self.new) }
        ensures faultless { result ≢ Err MirrorErr.Failed → faults self.new ≡ faults self.old };
}

impl From<NoMemory> for MirrorErr {
    ghost use Rattle.std.specs.Prelude.{◌≡◌};
    ghost use Rattle.mirror_store.specs.declared.mirror.MirrorErr.TheVariants as errors;

    ghost from_gives = { λ _ error. error ≡ errors.NoMemory };

    fn from(_: NoMemory) -> MirrorErr {
        MirrorErr::NoMemory
    }
}
