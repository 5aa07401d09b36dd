//! Keys of places.

ghost use Rattle.std.specs.Prelude.{◌≡◌};
ghost use Rattle.std.proofs.Common.{rules};
ghost use Rattle.std.specs.Hash as fed;
ghost use Rattle.std.specs.Cmp.Rules.{hashing};
ghost use Rattle.place_keys.specs.Marks.{place_mark};
ghost use Rattle.place_keys.specs.Places.{key_at, place_key};

use crate::words::{Text, mixed, text_mark};
use angle_fixed::{Dec, Ra};
use obs_record::{Short, Sighting};
use obs_time::Instant;
use std::hash::{Hash, Hasher};

/// A station, a time and a position.
#[derive(Clone, Copy, Debug, PartialEq, Eq)]
pub struct PlaceKey {
    /// How many bytes the code of the station has, 0 to 12.
    pub len: u8,
    /// The code.
    pub bytes: Text,
    /// Nanoseconds since 1970.
    pub time: i64,
    /// The right ascension, in units of 1/9,000,000,000,000 degree.
    pub ra: u64,
    /// The declination, in the same units.
    pub dec: i64,
}

/// A number that a key makes, by which it is hashed. Each part has a factor of its own in it, so that no sum of parts
/// stands for another one.
fn place_mark(key: &PlaceKey) -> u64
    ensures { result ≡ place_mark key.now }
{
    let position = mixed(
        key.ra,
        mixed(key.dec.cast_unsigned(), text_mark(&key.bytes)),
    );
    mixed(key.time.cast_unsigned(), position)
}

impl Hash for PlaceKey {
    ghost hash_input = { λ key. fed.u64 (place_mark key) };

    ghost respects_eq = { Prim.search (hashing, rules) };

    fn hash<H: Hasher>(&self, state: &mut H) {
        state.write_u64(place_mark(self));
    }
}

/// The key of a station, a time and a position.
#[inline]
pub fn key_at(station: &Short, time: Instant, ra: Ra, dec: Dec) -> PlaceKey
    ensures { result ≡ key_at station.now time ra dec }
{
    let bytes = station.bytes;
    PlaceKey {
        len: station.len,
        bytes: Text { bytes },
        time: time.ns(),
        ra: ra.units() as u64,
        dec: dec.units(),
    }
}

/// The key of an observation's station, time and position.
#[inline]
pub fn place_key(s: &Sighting) -> PlaceKey
    ensures { result ≡ place_key s.now }
{
    key_at(&s.station, s.time, s.ra, s.dec)
}
