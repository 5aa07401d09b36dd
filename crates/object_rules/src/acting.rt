//! What the acts on tracklets and objects do, or the first refusals that they meet.

ghost use Rattle.std.specs.Prelude.{◌≡◌, ◌≤ℤ◌, ◌-ℤ◌, pos, int_lt, if◌then◌else◌, map, true, Some, None, Ok, Err, IfOk, IfSome};
ghost use Rattle.act_model.specs.Rows.{first_row, unless, IsDue};
ghost use Rattle.act_model.specs.Holdings.{holdings};
ghost use Rattle.act_model.specs.Designations.{row_acts_of, links_of};
ghost use Rattle.act_model.specs.Numbers.{numbers_of};
ghost use Rattle.act_model.specs.Doing.{tracklet_row, identify_rows, designates, designates_seen, attributes, releases};
ghost use Rattle.act_model.specs.Doing.{identifies, separates, judges, opens, half_a_day};
ghost use Rattle.object_rules.specs.Noting.{is_of_objects};
ghost use Rattle.object_rules.specs.Seeing.{AreOfYears};

use crate::asking::{home, is_given, is_numbered, is_principal, is_same, is_there};
use crate::discovering::{earliest, half_of, latest};
use crate::ledger::Ledger;
use crate::observed::is_track_live;
use crate::seeing::free_seen;
use act_model::{Deed, Ids, Part, Refusal, Seen, Thing};
use obs_time::Instant;
use packed_names::{Designation, HalfMonth, limit};
use std::alloc::Global;

/// Half a day, in nanoseconds.
const HALF_A_DAY: i64 = 43_200_000_000_000;

/// The first of these tracklets that isn't there.
fn unknown_tracklet<L: Ledger>(office: &L, tracklets: &[u64]) -> Option<Refusal>
    ensures { result ≡ first_row (map (tracklet_row (holdings (L.deeds office.now)).tracklets) tracklets.now) }
{
    for t in tracklets {
        if !is_there(office, *t) {
            return Some(Refusal::UnknownThing(Thing::Tracklet(*t)));
        }
    }
    None
}

/// How many nanoseconds it is from one moment to another, where that is less than 12 hours.
fn night_between(from: Instant, to: Instant) -> Option<i64>
    requires { from ≤ℤ to }
    ensures { result ≡ if int_lt (to -ℤ from) (pos half_a_day) then Some (to -ℤ from) else None }
{
    if to.ns() < from.ns() + HALF_A_DAY {
        Some(to.ns() - from.ns())
    } else {
        None
    }
}

/// The object that these tracklets become, where these are their live observations.
fn designates_seen<L: Ledger>(office: &L, tracklets: Ids, seen: &[Seen]) -> Result<Deed, Refusal>
    requires years { AreOfYears seen.now }
    ensures due { result ≡ designates_seen (row_acts_of (L.deeds office.now)) tracklets seen.now }
    ensures kind { IfOk result (λ deed. is_of_objects deed ≡ true) }
{
    let Some((first, more)) = seen.split_first() else {
        return Err(Refusal::Unread(Part::Body));
    };
    let discovery = earliest(first, more);
    let last = latest(first, more);
    if let Some(time) = night_between(discovery.time, last.time) {
        return Err(Refusal::OneNight(time));
    }
    let half = half_of(discovery.time);
    match office.rows().next(half) {
        Some(given) => Ok(Deed::Designated {
            tracklets,
            given,
            discovery: discovery.number,
        }),
        None => Err(Refusal::HalfMonthFull {
            half,
            limit: limit(half),
        }),
    }
}

/// Tracklets become an object, and get the next designation of the half-month in which its earliest live observation
/// was made.
///
/// # Errors
///
/// The first refusal that holds: a tracklet isn't there; then, tracklet by tracklet, it is in an object, or has no live
/// observation; the observations span less than 12 hours; the half-month has no designation left. `NoMemory` where
/// memory was refused.
pub fn designates<L: Ledger>(office: &L, alloc: Global, tracklets: Ids) -> Result<Deed, Refusal>
    ensures due { IsDue
        (designates (holdings (L.deeds office.now)) (row_acts_of (L.deeds office.now)) tracklets) result }
    ensures unknown { IfSome (first_row (map (tracklet_row (holdings (L.deeds office.now)).tracklets) tracklets))
        (λ refusal. result ≡ Err refusal) }
    ensures kind { IfOk result (λ deed. is_of_objects deed ≡ true) }
{
    if let Some(refusal) = unknown_tracklet(office, tracklets.as_slice()) {
        return Err(refusal);
    }
    match free_seen(office, alloc, tracklets.as_slice()) {
        Ok(seen) => designates_seen(office, tracklets, seen.as_slice()),
        Err(refusal) => Err(refusal),
    }
}

/// A tracklet comes into an object.
///
/// # Errors
///
/// The first refusal that holds: the tracklet, or the designation, isn't there; the tracklet is in an object, or has no
/// live observation.
#[tactic(auto, using(crate::proofs::SeenLemmas::nothing_seen))]
pub fn attributes<L: Ledger>(office: &L, t: u64, to: Designation) -> Result<Deed, Refusal>
    ensures due { result ≡ attributes (holdings (L.deeds office.now)) (links_of (L.deeds office.now)) t to }
    ensures kind { IfOk result (λ deed. is_of_objects deed ≡ true) }
{
    if !is_there(office, t) {
        return Err(Refusal::UnknownThing(Thing::Tracklet(t)));
    }
    if !is_given(office, to) {
        return Err(Refusal::UnknownThing(Thing::Designation(to)));
    }
    if home(office, t).is_some() {
        return Err(Refusal::NotIsolated(t));
    }
    if !is_track_live(office.file(), t) {
        return Err(Refusal::Empty(t));
    }
    Ok(Deed::Attributed { tracklet: t, to })
}

/// A tracklet comes out of its object.
///
/// # Errors
///
/// The first refusal that holds: the tracklet isn't there; it is in no object.
pub fn releases<L: Ledger>(office: &L, t: u64) -> Result<Deed, Refusal>
    ensures due { result ≡ releases (holdings (L.deeds office.now)) t }
    ensures kind { IfOk result (λ deed. is_of_objects deed ≡ true) }
{
    if !is_there(office, t) {
        return Err(Refusal::UnknownThing(Thing::Tracklet(t)));
    }
    if home(office, t).is_none() {
        return Err(Refusal::NotHomed(t));
    }
    Ok(Deed::Released(t))
}

/// The refusal of an identification.
fn identify_refusal<L: Ledger>(office: &L, p: Designation, s: Designation) -> Option<Refusal>
    ensures { result ≡ first_row (identify_rows (links_of (L.deeds office.now)) (numbers_of (L.deeds office.now)) p s) }
{
    if !is_given(office, p) {
        return Some(Refusal::UnknownThing(Thing::Designation(p)));
    }
    if !is_given(office, s) {
        return Some(Refusal::UnknownThing(Thing::Designation(s)));
    }
    if !is_principal(office, p) {
        return Some(Refusal::NotPrincipal(p));
    }
    if !is_principal(office, s) {
        return Some(Refusal::NotPrincipal(s));
    }
    if is_same(p, s) {
        return Some(Refusal::SameObject);
    }
    if is_numbered(office, s) {
        return Some(if is_numbered(office, p) {
            Refusal::BothNumbered
        } else {
            Refusal::NumberedSecondary
        });
    }
    None
}

/// Two objects become one, which is known by the principal designation.
///
/// # Errors
///
/// The first refusal that holds: a designation isn't there; one isn't its own principal; both are the same; both have
/// numbers; the secondary alone has one.
pub fn identifies<L: Ledger>(office: &L, p: Designation, s: Designation) -> Result<Deed, Refusal>
    ensures due { result ≡ identifies (links_of (L.deeds office.now)) (numbers_of (L.deeds office.now)) p s }
    ensures kind { IfOk result (λ deed. is_of_objects deed ≡ true) }
{
    match identify_refusal(office, p, s) {
        Some(refusal) => Err(refusal),
        None => Ok(Deed::Identified {
            principal: p,
            secondary: s,
        }),
    }
}

/// A secondary designation becomes an object of its own again.
///
/// # Errors
///
/// The first refusal that holds: the designation isn't there; it is its own principal.
pub fn separates<L: Ledger>(office: &L, s: Designation) -> Result<Deed, Refusal>
    ensures due { result ≡ separates (links_of (L.deeds office.now)) s }
    ensures kind { IfOk result (λ deed. is_of_objects deed ≡ true) }
{
    if !is_given(office, s) {
        return Err(Refusal::UnknownThing(Thing::Designation(s)));
    }
    if is_principal(office, s) {
        return Err(Refusal::NotSecondary(s));
    }
    Ok(Deed::Separated(s))
}

/// A verdict is entered on an object.
///
/// # Errors
///
/// The first refusal that holds: the designation isn't there; it isn't its own principal.
pub fn judges<L: Ledger>(
    office: &L,
    d: Designation,
    u: u8,
    oppositions: u8,
) -> Result<Deed, Refusal>
    ensures due { result ≡ judges (links_of (L.deeds office.now)) d u oppositions }
    ensures kind { IfOk result (λ deed. is_of_objects deed ≡ true) }
{
    if !is_given(office, d) {
        return Err(Refusal::UnknownThing(Thing::Designation(d)));
    }
    if !is_principal(office, d) {
        return Err(Refusal::NotPrincipal(d));
    }
    Ok(Deed::Judged {
        principal: d,
        u,
        oppositions,
    })
}

/// A half-month is taken over, in which this many designations were given elsewhere. Those with these orders become
/// objects of this office.
///
/// # Errors
///
/// `HalfMonthBegun` where the half-month was taken over before, or a designation was given in it.
pub fn opens<L: Ledger>(
    office: &L,
    half: HalfMonth,
    given: u32,
    carried: Ids,
) -> Result<Deed, Refusal>
    ensures due { result ≡ opens (row_acts_of (L.deeds office.now)) half given carried }
    ensures kind { IfOk result (λ deed. is_of_objects deed ≡ true) }
{
    if office.rows().begun(half) {
        return Err(Refusal::HalfMonthBegun(half));
    }
    Ok(Deed::Opened {
        half,
        given,
        carried,
    })
}
