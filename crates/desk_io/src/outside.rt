//! What the desk knows of the outside: a source of bytes, a sink for bytes, a clock.
//!
//! What an object holds is known or not: of a file or a socket nothing is known. How often it failed, whether it is
//! open, and what a clock read last is always known.
ghost use Rattle.std.specs.Prelude.{◌≡◌, ℕ, ◌<◌, ◌≤◌, ◌+◌, ℤ, Bool, false, List, [], length, take, IfOk, OnOk, OnErr};
ghost use Rattle.std.specs.Prelude.{IfSome, Option};
ghost use Rattle.std.specs.Io.KnownBytes.{ReadConsumes, WriteAppends, Appends, Keeps};
ghost use Rattle.call_log.specs.Counts.{Rises};
ghost use Rattle.desk_io.specs.Outside.{AppendsPart};
ghost use Rattle.obs_time.specs.Instants.{IsInstantNs};

use obs_time::Instant;
use std::error::Error;
use std::fmt;
use std::fmt::{Display, Formatter};

/// The outside failed in this call. Its count of faults has risen.
#[derive(Clone, Copy, Debug, PartialEq, Eq)]
pub struct Failed;

impl Display for Failed {
    fn fmt<W: fmt::Write>(&self, f: &mut Formatter<W>) -> fmt::Result {
        f.pad("the outside failed")
    }
}

impl Error for Failed {}

/// Where bytes come from.
pub trait Source: Drop {
    /// The bytes that reads will give from here on, where they are known.
    ghost left: { Self → Option (List ℕ) };

    /// How often the source has failed.
    ghost faults: { Self → ℕ };

    /// How many reads can still give bytes.
    ghost reads: { Self → ℕ };

    /// Whether the real thing under it is still there.
    ghost is_open: { Self → Bool };

    /// One read, from the source before it to the source after it: it gave these bytes, and none where it failed.
    ghost gives: { Self → List ℕ → Self → Type 0 };

    /// Reads into the front of the piece and says how many bytes it read: 0 for a piece that isn't
    /// empty is the end of the bytes.
    fn read(&mut self, piece: &mut [u8]) -> Result<usize, Failed>
        ensures bytes { ReadConsumes (left self.old) (left self.new) result piece.new }
        ensures within { IfOk result (λ n. n ≤ length piece.old) }
        ensures gives { IfOk result (λ n. gives self.old (take n piece.new) self.new) }
        ensures gives_none { OnErr result (gives self.old [] self.new) }
        ensures counts { faults self.old ≤ faults self.new }
        ensures faultless { OnOk result (faults self.new ≡ faults self.old) }
        ensures cause { OnErr result (Rises (faults self.old) (faults self.new)) }
        ensures stays { is_open self.new ≡ is_open self.old }
        ensures reads { reads self.new ≤ reads self.old }
        ensures nearer { IfOk result (λ n. 0 < n → reads self.new < reads self.old) };

    /// Gives up the real thing under the source.
    fn end(&mut self)
        ensures bytes { Keeps (left self.old) (left self.new) }
        ensures counts { faults self.new ≡ faults self.old }
        ensures closes { is_open self.new ≡ false }
        ensures reads { reads self.new ≤ reads self.old };
}

/// Where bytes go.
pub trait Sink: Drop {
    /// The bytes that the sink took so far, where they are known.
    ghost taken: { Self → Option (List ℕ) };

    /// How often the sink has failed.
    ghost faults: { Self → ℕ };

    /// Whether the real thing under it is still there.
    ghost is_open: { Self → Bool };

    /// Takes bytes from the front of the piece and says how many: at least one of a piece that isn't empty.
    fn write(&mut self, piece: &[u8]) -> Result<usize, Failed>
        ensures bytes { WriteAppends (taken self.old) (taken self.new) result piece.now }
        ensures within { IfOk result (λ n. n ≤ length piece.now) }
        ensures some { IfOk result (λ n. 0 < length piece.now → 0 < n) }
        ensures counts { faults self.old ≤ faults self.new }
        ensures faultless { OnOk result (faults self.new ≡ faults self.old) }
        ensures cause { OnErr result (Rises (faults self.old) (faults self.new)) }
        ensures stays { is_open self.new ≡ is_open self.old };

    /// Gives up the real thing under the sink.
    fn end(&mut self)
        ensures bytes { Keeps (taken self.old) (taken self.new) }
        ensures counts { faults self.new ≡ faults self.old }
        ensures closes { is_open self.new ≡ false };
}

/// What time it is.
pub trait Clock: Drop {
    /// The k-th reading to come, counted from 0, where it is known.
    ghost reading: { Self → ℕ → Option ℤ };

    /// The last reading, in nanoseconds since 1970, and 0 before the first one.
    ghost last: { Self → ℤ };

    /// Reads the clock. A reading lies in the years 1800 to 2199.
    fn now(&mut self) -> Instant
        ensures told { IfSome (reading self.old 0) (λ t. result ≡ t) }
        ensures later { (k : ℕ) → reading self.new k ≡ reading self.old (k + 1) }
        ensures last { last self.new ≡ result }
        ensures years { IsInstantNs result };

    /// Another clock with the same readings to come and the same last one. This one's stay.
    fn another(&mut self) -> Self
        ensures same { (k : ℕ) → reading result k ≡ reading self.old k }
        ensures stays { (k : ℕ) → reading self.new k ≡ reading self.old k }
        ensures last { last result ≡ last self.old }
        ensures kept { last self.new ≡ last self.old };
}

/// Writes all of the piece, in as many writes as the sink wants. After a failure the sink took a
/// front of the piece and not all of it.
///
/// # Errors
///
/// A write failed.
pub fn write_all<K: Sink>(sink: &mut K, piece: &[u8]) -> Result<(), Failed>
    ensures whole { OnOk result (Appends (K.taken sink.old) (K.taken sink.new) piece.now) }
    ensures part { OnErr result (AppendsPart (K.taken sink.old) (K.taken sink.new) piece.now) }
    ensures counts { K.faults sink.old ≤ K.faults sink.new }
    ensures faultless { OnOk result (K.faults sink.new ≡ K.faults sink.old) }
    ensures cause { OnErr result (Rises (K.faults sink.old) (K.faults sink.new)) }
    ensures stays { K.is_open sink.new ≡ K.is_open sink.old }
{
    let mut rest = piece;
    while !rest.is_empty() {
        let count = sink.write(rest)?;
        let (_, left) = rest.split_at(count);
        rest = left;
    }
    Ok(())
}
