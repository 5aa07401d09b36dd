//! The moment of an observation.

ghost use Rattle.std.specs.Prelude.{◌≡◌, ◌↔◌, ◌<◌, IsSome, IfSome};
ghost use Rattle.obs_time.specs.Instants.{IsInstantNs, nanos_of_a_day};
ghost use Rattle.obs_time.specs.declared.civil.Civil.{Civil};
ghost use Rattle.obs_time.specs.Dates.{IsCivilOf, IsObservedDay, IsObservedYear, moment};

use crate::civil::NS_PER_DAY;
use std::marker::Model;

/// The first moment of 1800-01-01, in nanoseconds since 1970.
const FIRST_NS: i64 = -5_364_662_400_000_000_000;

/// The last nanosecond of 2199-12-31, in nanoseconds since 1970.
const LAST_NS: i64 = 7_258_118_399_999_999_999;

/// A moment of UTC in the years 1800 to 2199: nanoseconds since 1970-01-01T00:00:00, negative before.
#[derive(Clone, Copy, Debug, PartialEq, Eq, PartialOrd, Ord)]
pub struct Instant {
    ns: i64,
}

impl Model for Instant {
    ghost use Rattle.std.specs.Prelude.{ℤ};
    ghost use Rattle.obs_time.specs.Instants.{IsInstantNs};

    ghost Value = { ℤ };

    ghost view = { λ t. t.ns };

    ghost invariant = { λ t. IsInstantNs t.ns };

    ghost inverse = { λ ns. record { ns = ns } };
}

impl Instant {
    /// The moment this many nanoseconds after 1970-01-01T00:00:00, or None outside the years 1800 to 2199.
    pub fn new(ns: i64) -> Option<Instant>
        ensures some { IsSome result ↔ IsInstantNs ns }
        ensures years { (civil : Civil) → IsCivilOf ns civil → (IsSome result ↔ IsObservedYear civil.year) }
        ensures value { IfSome result (λ t. t ≡ ns) }
    {
        Instant::in_range(ns)
    }

    // The same, without the word on years, which follows from the first clause.
    fn in_range(ns: i64) -> Option<Instant>
        ensures some { IsSome result ↔ IsInstantNs ns }
        ensures value { IfSome result (λ t. t ≡ ns) }
    {
        if FIRST_NS <= ns && ns <= LAST_NS {
            Some(Instant { ns })
        } else {
            None
        }
    }

    /// The nanoseconds from 1970-01-01T00:00:00 to this moment, negative before.
    pub fn ns(self) -> i64
        ensures value { result ≡ self }
        ensures range { IsInstantNs self }
    {
        self.ns
    }

    /// The moment this many nanoseconds after the start of a day.
    pub(crate) fn at(day: i32, ns_of_day: u64) -> Instant
        requires day { IsObservedDay day }
        requires time { ns_of_day < nanos_of_a_day }
        ensures { result ≡ moment day ns_of_day }
    {
        Instant {
            ns: i64::from(day) * NS_PER_DAY + ns_of_day as i64,
        }
    }
}
