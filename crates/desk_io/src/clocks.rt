//! A clock that goes by steps, and the system's clock.

ghost use Rattle.std.specs.Prelude.{◌≡◌, ◌≤ℤ◌, ◌+◌, ℕ, ℤ, pos, IfSome, Some, None};
ghost use Rattle.std.specs.Int.{int_min};
ghost use Rattle.std.specs.Duration.{as_nanos};
ghost use Rattle.desk_io.specs.Ticks.{tick};
ghost use Rattle.obs_time.specs.Instants.{IsInstantNs, last_instant};

use crate::Clock;
use obs_time::Instant;
use std::marker::Model;
use std::rt;
use std::time::Duration;

/// The last nanosecond of 2199-12-31, in nanoseconds since 1970.
const LAST_NS: i64 = 7_258_118_399_999_999_999;

/// A clock whose readings are known: each is a step later than the one before, and no later than the
/// last moment of the year 2199.
#[derive(Debug, Drop)]
pub struct TickClock {
    last: Instant,
    next: Instant,
    step: u64,
}

impl Model for TickClock {
    ghost use Rattle.desk_io.specs.Ticks.{TickState};

    ghost Value = { TickState };

    ghost view = { λ clock. record { last = clock.last; next = clock.next; step = clock.step } };
}

impl TickClock {
    /// A clock with this first reading and this many nanoseconds from each reading to the next.
    pub fn new(first: Instant, step: u64) -> TickClock
        ensures { result ≡ record { last = pos 0; next = first; step = step } }
    {
        TickClock {
            last: start_of_1970(),
            next: first,
            step,
        }
    }
}

// What a clock says of its last reading before the first one.
fn start_of_1970() -> Instant
    ensures { result ≡ pos 0 }
{
    Instant::new(0).unwrap()
}

// A moment lies in the years 1800 to 2199, of which callers then know.
fn in_years(moment: Instant) -> Instant
    ensures same { result ≡ moment }
    ensures years { IsInstantNs result }
{
    let _ns = moment.ns();
    moment
}

// The moment this many nanoseconds later, but no later than the last moment of the year 2199.
fn later(moment: Instant, step: u64) -> Instant
    ensures next { result ≡ tick (record { last = moment; next = moment; step = step }) 1 }
    ensures held { moment ≤ℤ last_instant }
{
    let ns = moment.ns().saturating_add_unsigned(step).min(LAST_NS);
    Instant::new(ns).unwrap()
}

impl Clock for TickClock {
    ghost reading = { λ clock k. Some (tick clock k) };

    ghost last = { λ clock. clock.last };

    fn now(&mut self) -> Instant
        ensures next { result ≡ self.old.next }
        ensures stepped { self.new ≡ record self.old { last = self.old.next; next = tick self.old 1 } }

        ensures told { IfSome (Some (tick self.old 0)) (λ t. result ≡ t) }
        ensures later { (k : ℕ) → Some (tick self.new k) ≡ Some (tick self.old (k + 1)) }
        ensures last { self.new.last ≡ result }
        ensures years { IsInstantNs result }
    {
        let now = in_years(self.next);
        self.last = now;
        self.next = later(now, self.step);
        now
    }

    fn another(&mut self) -> Self
        ensures twin { result ≡ self.old }
        ensures unchanged { self.new ≡ self.old }

        ensures same { (k : ℕ) → Some (tick result k) ≡ Some (tick self.old k) }
        ensures stays { (k : ℕ) → Some (tick self.new k) ≡ Some (tick self.old k) }
        ensures last { result.last ≡ self.old.last }
        ensures kept { self.new.last ≡ self.old.last }
    {
        TickClock {
            last: self.last,
            next: self.next,
            step: self.step,
        }
    }
}

/// The system's clock, held to the years that an `Instant` has. Its readings aren't known.
#[derive(Debug, Drop)]
pub struct SystemClock<R: rt::Clock + Copy> {
    system: R,
    last: Instant,
}

// Of a system's clock a clause sees the last reading.
impl<R: rt::Clock + Copy> Model for SystemClock<R> {
    ghost Value = { ℤ };

    ghost view = { λ clock. clock.last };
}

impl<R: rt::Clock + Copy> SystemClock<R> {
    /// A clock over the system's.
    pub fn new(system: R) -> SystemClock<R>
        ensures first { result ≡ pos 0 }
    {
        SystemClock {
            system,
            last: start_of_1970(),
        }
    }
}

// The moment this long after the start of 1970, but no later than the last moment of the year 2199.
fn moment_after_1970(time: Duration) -> Instant
    ensures { result ≡ int_min (pos (as_nanos time)) last_instant }
{
    let ns = time.as_nanos().min(LAST_NS as u128) as i64;
    Instant::new(ns).unwrap()
}

impl<R: rt::Clock + Copy> Clock for SystemClock<R> {
    ghost reading = { λ _ _. None };

    ghost last = { λ clock. clock };

    /// Where the system's clock can't be read this is the last reading again, and at first the start of 1970.
    fn now(&mut self) -> Instant
        ensures last { self.new ≡ result }
        ensures years { IsInstantNs result }
    {
        if let Ok(time) = self.system.since_1970() {
            self.last = moment_after_1970(time);
        }
        in_years(self.last)
    }

    fn another(&mut self) -> Self
        ensures last { result ≡ self.old }
        ensures kept { self.new ≡ self.old }
    {
        SystemClock {
            system: self.system,
            last: self.last,
        }
    }
}
