//! Angles in units of 1/9,000,000,000,000 degree.

ghost use Rattle.std.specs.Prelude.{◌≡◌, ℕ, ℤ, pos, neg_ℤ, ◌<◌, ◌≤◌, ◌≤ℤ◌, ◌↔◌, IsSome, IfSome};
ghost use Rattle.angle_fixed.specs.Angles.{circle, quarter, signed};

use crate::units::{CIRCLE, QUARTER};
use std::marker::Model;

/// A right ascension: 0 to 3,239,999,999,999,999 units of 1/9,000,000,000,000 degree.
#[derive(Clone, Copy, Debug, PartialEq, Eq)]
pub struct Ra {
    units: u64,
}

impl Model for Ra {
    ghost Value = { ℕ };

    ghost view = { λ a. a.units };

    ghost invariant = { λ a. a.units < circle };

    ghost inverse = { λ n. record { units = n } };
}

impl Ra {
    /// The right ascension of these units; `None` exactly where they are below 0 or 24 hours and more.
    pub fn new(units: i64) -> Option<Self>
        ensures within { IsSome result ↔ ((pos 0 ≤ℤ units) × (units ≤ℤ pos 3239999999999999)) }
        ensures value { IfSome result (λ a. pos a ≡ units) }
    {
        if units < 0 || units >= CIRCLE as i64 {
            return None;
        }
        Some(Ra {
            units: units as u64,
        })
    }

    pub(crate) fn of_units(units: u64) -> Self
        requires { units < circle }
        ensures { result ≡ units }
    {
        Ra { units }
    }

    /// The units of 1/9,000,000,000,000 degree.
    pub fn units(self) -> i64
        ensures value { result ≡ pos self }
        ensures within { self ≤ 3239999999999999 }
    {
        self.units as i64
    }
}

/// A declination: -810,000,000,000,000 to 810,000,000,000,000 units of 1/9,000,000,000,000 degree.
#[derive(Clone, Copy, Debug, PartialEq, Eq)]
pub struct Dec {
    units: i64,
}

impl Model for Dec {
    ghost Value = { ℤ };

    ghost view = { λ a. a.units };

    ghost invariant = { λ a. (neg_ℤ (pos quarter) ≤ℤ a.units) × (a.units ≤ℤ pos quarter) };

    ghost inverse = { λ n. record { units = n } };
}

impl Dec {
    /// The declination of these units; `None` exactly where they are over 90 degrees either way.
    pub fn new(units: i64) -> Option<Self>
        ensures within { IsSome result ↔ ((neg_ℤ (pos 810000000000000) ≤ℤ units) × (units ≤ℤ pos 810000000000000)) }
        ensures value { IfSome result (λ a. a ≡ units) }
    {
        if units < -(QUARTER as i64) || units > QUARTER as i64 {
            return None;
        }
        Some(Dec { units })
    }

    pub(crate) fn of_signed(minus: bool, units: u64) -> Self
        requires { units ≤ quarter }
        ensures { result ≡ signed minus units }
    {
        let units = units as i64;
        Dec {
            units: if minus { -units } else { units },
        }
    }

    /// The units of 1/9,000,000,000,000 degree.
    pub fn units(self) -> i64
        ensures value { result ≡ self }
        ensures within { (neg_ℤ (pos 810000000000000) ≤ℤ self) × (self ≤ℤ pos 810000000000000) }
    {
        self.units
    }
}
