//! What is asked of tracklets, designations and numbers.

ghost use Rattle.std.specs.Prelude.{◌≡◌, is_some};
ghost use Rattle.std.specs.Ordering.{eq_by_cmp};
ghost use Rattle.packed_names.specs.Order.{designation_cmp};
ghost use Rattle.identify_core.specs.Acts.{principal, is_principal_of};
ghost use Rattle.numbering_core.specs.Numbers.{named};
ghost use Rattle.tracklet_file.specs.Numbering.{numbered};
ghost use Rattle.tracklet_file.specs.Tracklets.{home_of};
ghost use Rattle.act_model.specs.Holdings.{holdings};
ghost use Rattle.act_model.specs.Designations.{links_of, is_given, is_principal, stands};
ghost use Rattle.act_model.specs.Doing.{is_numbered};
ghost use Rattle.act_model.specs.Knowing.{stands_for};
ghost use Rattle.act_model.specs.Numbers.{numbers_of};
ghost use Rattle.act_model.specs.Shelves.{place_at_home, place_of, track_head};

use crate::ledger::Ledger;
use act_model::{Place, TrackHead};
use packed_names::{Designation, Name, Number};

/// Whether two designations are the same.
pub(crate) fn is_same(one: Designation, other: Designation) -> bool
    ensures { result ≡ eq_by_cmp designation_cmp one other }
{
    one == other
}

/// Whether there is a tracklet with this number.
pub(crate) fn is_there<L: Ledger>(office: &L, t: u64) -> bool
    ensures { result ≡ is_some (numbered (holdings (L.deeds office.now)).tracklets t) }
{
    office.file().name(t).is_some()
}

/// The designation that a tracklet was given to. None for an isolated tracklet, and for one that isn't there.
pub(crate) fn home<L: Ledger>(office: &L, t: u64) -> Option<Designation>
    ensures { result ≡ home_of (holdings (L.deeds office.now)).tracklets t }
{
    if office.file().name(t).is_some() {
        office.file().home(t)
    } else {
        None
    }
}

/// The principal designation of a designation's object. None for one that the office didn't give.
pub fn principal_of<L: Ledger>(office: &L, d: Designation) -> Option<Designation>
    ensures { result ≡ principal (links_of (L.deeds office.now)) d }
{
    office.links().principal(d)
}

/// Whether the office gave the designation.
pub(crate) fn is_given<L: Ledger>(office: &L, d: Designation) -> bool
    ensures { result ≡ is_given (links_of (L.deeds office.now)) d }
{
    principal_of(office, d).is_some()
}

/// Whether the principal is the designation.
fn is_principal_of(d: Designation, principal: Option<Designation>) -> bool
    ensures { result ≡ is_principal_of d principal }
{
    match principal {
        Some(principal) => is_same(principal, d),
        None => false,
    }
}

/// Whether the designation is its own principal.
pub(crate) fn is_principal<L: Ledger>(office: &L, d: Designation) -> bool
    ensures { result ≡ is_principal (links_of (L.deeds office.now)) d }
{
    is_principal_of(d, principal_of(office, d))
}

/// Whether the designation has a number.
pub(crate) fn is_numbered<L: Ledger>(office: &L, d: Designation) -> bool
    ensures { result ≡ is_numbered (numbers_of (L.deeds office.now)) d }
{
    office.register().number_of(d).is_some()
}

/// The designation that a number was given to. None for a number that this office didn't give.
pub fn number_named<L: Ledger>(office: &L, number: Number) -> Option<Designation>
    ensures { result ≡ named (numbers_of (L.deeds office.now)) number.0 }
{
    office.register().named(number)
}

/// The designation that a number or a designation stands for: a designation for itself, where the office gave it, a
/// number for the designation that it was given to. None for any other.
pub fn stands_for<L: Ledger>(office: &L, name: Name) -> Option<Designation>
    ensures { result ≡ stands_for (links_of (L.deeds office.now)) (numbers_of (L.deeds office.now)) name }
{
    match name {
        Name::Number(number) => number_named(office, number),
        Name::Designation(d) => match principal_of(office, d) {
            Some(_) => Some(d),
            None => None,
        },
    }
}

/// What is known of a tracklet beside its observations. None exactly for a tracklet that isn't there.
pub fn track_head<L: Ledger>(office: &L, t: u64) -> Option<TrackHead>
    ensures { result ≡ track_head (holdings (L.deeds office.now)).tracklets t }
{
    match (office.file().name(t), office.file().station(t)) {
        (Some(name), Some(station)) => Some(TrackHead {
            name,
            station,
            home: home(office, t),
        }),
        _ => None,
    }
}

/// The place of a live observation whose tracklet has this home.
fn place_at_home<L: Ledger>(office: &L, home: Option<Designation>) -> Place
    ensures { result ≡ place_at_home (links_of (L.deeds office.now)) home }
{
    match home {
        Some(home) => Place::Object(principal_of(office, home).unwrap_or(home)),
        None => Place::Isolated,
    }
}

/// Where an observation stands. None exactly for an observation that isn't there.
pub fn place<L: Ledger>(office: &L, k: u64) -> Option<Place>
    ensures { result ≡ place_of (holdings (L.deeds office.now)) (links_of (L.deeds office.now)) k }
{
    match office.file().track_of(k) {
        Some(t) => Some(if office.file().is_live(k) {
            place_at_home(office, home(office, t))
        } else {
            Place::Retracted
        }),
        None => None,
    }
}
