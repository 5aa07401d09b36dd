//! What decimals come to in whole units.

ghost use Rattle.std.specs.Prelude.{◌≡◌, ◌-◌, ◌*◌, ◌/◌, ◌^◌, ◌<◌, ◌≤◌};

use crate::digits::power_of_ten;
use crate::reading::Decimals;

/// The units of one in a place behind the point, where one in the last of `most` places is `last` units. It takes no
/// division, over which a processor is slow.
pub fn place_units(place: usize, most: usize, last: u64) -> u64
    requires place { place ≤ most }
    requires most { most ≤ 12 }
    requires fits { last * 10 ^ most < 2 ^ 63 }
    ensures exact { result ≡ last * 10 ^ (most - place) }
    ensures whole { result * 10 ^ place ≡ last * 10 ^ most }
    ensures value { result ≡ last * 10 ^ most / 10 ^ place }
{
    last * power_of_ten(most - place)
}

/// The units of decimals, where one in the last of `most` places is `last` units.
pub fn decimals_units(decimals: Decimals, most: usize, last: u64) -> u64
    requires few { decimals.count ≤ most }
    requires most { most ≤ 12 }
    requires digits { decimals.value < 10 ^ decimals.count }
    requires some { 0 < last }
    requires fits { last * 10 ^ most < 2 ^ 63 }
    ensures exact { result ≡ decimals.value * (last * 10 ^ (most - decimals.count)) }
    ensures value { result ≡ decimals.value * (last * 10 ^ most / 10 ^ decimals.count) }
    ensures below { result < last * 10 ^ most }
{
    decimals.value * place_units(decimals.count, most, last)
}
