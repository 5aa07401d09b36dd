//! What the office has of a designation, and the objects that have comets' names.

ghost use Rattle.std.specs.Prelude.{◌≡◌, List};
ghost use Rattle.comet_model.specs.declared.named.NamedComet.{NamedComet};
ghost use Rattle.comet_model.specs.Comets.{count_in, comet_of};
ghost use Rattle.comet_model.specs.Refusals.{half_in, named_in};

use crate::naming::Naming;
use crate::reply::CometRefusal;
use comet_names::Comet;
use packed_names::{Designation, HalfMonth};

/// What the office has of a designation.
#[derive(Clone, Copy, Debug, PartialEq, Eq)]
pub enum Found {
    /// The office didn't give it.
    NotGiven,
    /// The office took it over from elsewhere: no observation of this office discovered the object.
    NoDiscovery,
    /// The observation by which the object was discovered is of this half-month.
    Discovered(HalfMonth),
}

/// An object that has the name of a comet.
#[derive(Clone, Copy, Debug, PartialEq, Eq)]
pub struct NamedComet {
    /// The designation that the name was given beside.
    pub object: Designation,
    /// The name.
    pub comet: Comet,
}

/// How many comets a half-month may have.
const MOST_COMETS: u32 = 99;

/// The half-month in which the object of a designation was discovered, of which the office has this.
///
/// # Errors
///
/// `UnknownThing` where the office didn't give the designation, and `NoDiscovery` where it took it over from elsewhere.
pub fn half_in(object: Designation, found: Found) -> Result<HalfMonth, CometRefusal>
    ensures { result ≡ half_in object found }
{
    match found {
        Found::NotGiven => Err(CometRefusal::UnknownThing(object)),
        Found::NoDiscovery => Err(CometRefusal::NoDiscovery(object)),
        Found::Discovered(half) => Ok(half),
    }
}

/// The name that an object gets that was discovered in this half-month, which has this many comets. The name that its
/// designation has already is None where it has none.
///
/// # Errors
///
/// `AlreadyComet` where the designation has a name, and `HalfMonthFull` where the half-month has 99 comets.
pub fn named_in(
    naming: Naming,
    half: HalfMonth,
    already: Option<Comet>,
    count: u64,
) -> Result<NamedComet, CometRefusal>
    ensures { (past : List NamedComet) → already ≡ comet_of naming.object past → count ≡ count_in half past →
        result ≡ named_in naming half past }
{
    if let Some(comet) = already {
        return Err(CometRefusal::AlreadyComet(comet));
    }
    if count >= u64::from(MOST_COMETS) {
        return Err(CometRefusal::HalfMonthFull {
            half,
            limit: MOST_COMETS,
        });
    }
    let comet = Comet {
        kind: naming.kind,
        half,
        number: count as u8 + 1,
    };
    Ok(NamedComet {
        object: naming.object,
        comet,
    })
}
