//! What a deed changes in the file, the rows, the links and the register.

ghost use Rattle.std.specs.Prelude.{◌≡◌, ◌+◌, ◌≤◌, ◌++◌, List, length, reverse};
ghost use Rattle.ordered_list.specs.Contents.{UsesOne};
ghost use Rattle.identify_core.specs.Acts.{LinkAct, principal};
ghost use Rattle.identify_core.specs.Principals.{StandFor as LinksStandFor, principal_of};
ghost use Rattle.numbering_core.specs.Numbers.{IsUnbroken};
ghost use Rattle.numbering_core.specs.Verdicts.{VerdictAct, StandFor as VerdictsStandFor, verdict_of};
ghost use Rattle.tracklet_file.specs.Tracklets.{IsTracklet};
ghost use Rattle.act_model.specs.Designations.{with_row_act, with_link, with_all_given, with_orders};
ghost use Rattle.act_model.specs.Holdings.{with_homes};
ghost use Rattle.act_model.specs.Numbers.{with_numbers};
ghost use Rattle.act_model.specs.Fitting.{AreTracklets};
ghost use Rattle.act_model.specs.Verdicts.{voided_verdicts, judged_by};
ghost use Rattle.object_rules.specs.Noting.{RowsDeed, LinksDeed, TouchesDeed, NumbersDeed, HomesDeed};
ghost use Rattle.object_rules.specs.Noting.{AreWithin, AreUnlinked, linked_by, registered_by, returned_by, homed_by};
ghost use Rattle.object_rules.specs.Noting.{held_in, object_in, object_of_seen_in, with_deed_homes};

use act_model::{Deed, with_order};
use designate_core::Rows;
use identify_core::Links;
use numbering_core::{Numbering, Register};
use packed_names::{Designation, HalfMonth};
use tracklet_file::TrackletFile;

/// Gives the designation of a deed that gives one, and opens the half-month of one that takes it over. It takes no
/// memory.
pub fn note_rows(rows: &mut Rows, deed: &Deed)
    requires fits { RowsDeed rows.old.acts deed.now }
    requires room { 1 ≤ rows.old.spare }
    ensures acts { rows.new.acts ≡ with_row_act deed.now rows.old.acts }
    ensures spare { UsesOne rows.old.spare rows.new.spare }
{
    match deed {
        Deed::Designated {
            given,
            discovery,
            ..
        } => {
            rows.take(given.half, *discovery);
        }
        Deed::Opened { half, given, .. } => rows.open(*half, *given),
        _ => {}
    }
}

/// How many links a deed adds.
pub fn linked_by(deed: &Deed) -> u64
    ensures { result ≡ linked_by deed.now }
{
    match deed {
        Deed::Designated { .. } => 1,
        Deed::Opened { carried, .. } => carried.len(),
        _ => 0,
    }
}

/// Adds the designations of a half-month that have these orders, one after the other.
fn link_orders(links: &mut Links, half: HalfMonth, given: u32, orders: &[u64])
    requires within { AreWithin given orders.now }
    requires new { AreUnlinked links.old.links (with_orders half orders.now) }
    requires room { length orders.now ≤ links.old.spare }
    ensures links { (acts : List LinkAct) → LinksStandFor links.old.links acts →
        LinksStandFor links.new.links (with_all_given (with_orders half orders.now) acts) }
    ensures spare { links.old.spare ≤ links.new.spare + length orders.now }
    ensures no_more { links.new.spare ≤ links.old.spare }
{
    for order in orders {
        links.add(Designation::Provisional(with_order(half, *order)));
    }
}

/// Adds, joins and parts designations as a deed says. It takes no memory.
pub fn link(links: &mut Links, deed: &Deed)
    requires fits { LinksDeed links.old.links deed.now }
    requires room { linked_by deed.now ≤ links.old.spare }
    ensures links { (acts : List LinkAct) →
        LinksStandFor links.old.links acts → LinksStandFor links.new.links (with_link deed.now acts) }
    ensures spare { links.old.spare ≤ links.new.spare + linked_by deed.now }
    ensures no_more { links.new.spare ≤ links.old.spare }
{
    match deed {
        Deed::Designated { given, .. } => links.add(Designation::Provisional(*given)),
        Deed::Identified {
            principal,
            secondary,
        } => links.join(*principal, *secondary),
        Deed::Separated(s) => links.part(*s),
        Deed::Opened {
            half,
            given,
            carried,
        } => link_orders(links, *half, *given, carried.as_slice()),
        _ => {}
    }
}

/// How many entries of the register a deed may add.
pub fn registered_by(deed: &Deed) -> u64
    ensures { result ≡ registered_by deed.now }
{
    match deed {
        Deed::Judged { .. } => 1,
        Deed::Numbered(pairs) => pairs.len(),
        _ => 0,
    }
}

/// Gives numbers to designations, one after the other.
fn give(register: &mut Register, pairs: &[Numbering])
    requires fits { IsUnbroken (reverse pairs.now ++ register.old.numbered) }
    requires room { length pairs.now ≤ register.old.spare }
    ensures numbered { register.new.numbered ≡ reverse pairs.now ++ register.old.numbered }
    ensures verdicts { register.new.verdicts ≡ register.old.verdicts }
    ensures spare { register.old.spare ≤ register.new.spare + length pairs.now }
    ensures no_more { register.new.spare ≤ register.old.spare + length pairs.now }
{
    for pair in pairs {
        register.take(pair.designation, pair.number);
    }
}

/// Voids the verdict on an object.
fn void(register: &mut Register, object: Option<Designation>)
    ensures verdicts { (acts : List VerdictAct) →
        VerdictsStandFor register.old.verdicts acts
        → VerdictsStandFor register.new.verdicts (voided_verdicts object ++ acts) }
    ensures numbered { register.new.numbered ≡ register.old.numbered }
    ensures spare { register.old.spare ≤ register.new.spare }
    ensures no_more { register.new.spare ≤ register.old.spare + 1 }
{
    if let Some(p) = object {
        register.void(p);
    }
}

/// Gives tracklets a home, one after the other.
#[tactic(auto, using(crate::proofs::HomeLemmas::stay_there))]
fn home_all(file: &mut TrackletFile, tracklets: &[u64], home: Option<Designation>)
    requires there { AreTracklets file.old.tracklets tracklets.now }
    ensures homes { file.new.tracklets ≡ with_homes file.old.tracklets tracklets.now home }
    ensures observations { file.new.observations ≡ file.old.observations }
    ensures observation_room { file.new.observation_room ≡ file.old.observation_room }
    ensures tracklet_room { file.old.tracklet_room ≤ file.new.tracklet_room }
    ensures no_more { file.new.tracklet_room ≤ file.old.tracklet_room + length tracklets.now }
{
    for t in tracklets {
        file.set_home(*t, home);
    }
}

/// Gives the tracklets of a deed their home, or takes it from them. It takes no memory.
pub fn home_tracklets(file: &mut TrackletFile, deed: &Deed)
    requires there { HomesDeed file.old.tracklets deed.now }
    ensures homes { file.new.tracklets ≡ with_deed_homes file.old.tracklets deed.now }
    ensures observations { file.new.observations ≡ file.old.observations }
    ensures observation_room { file.new.observation_room ≡ file.old.observation_room }
    ensures tracklet_room { file.old.tracklet_room ≤ file.new.tracklet_room }
    ensures no_more { file.new.tracklet_room ≤ file.old.tracklet_room + homed_by deed.now }
{
    match deed {
        Deed::Designated {
            tracklets,
            given,
            ..
        } => {
            let home = Designation::Provisional(*given);
            home_all(file, tracklets.as_slice(), Some(home));
        }
        Deed::Attributed { tracklet, to } => file.set_home(*tracklet, Some(*to)),
        Deed::Released(t) => file.set_home(*t, None),
        _ => {}
    }
}

/// The principal of the object that a tracklet is in.
fn object_in(file: &TrackletFile, links: &Links, t: u64) -> Option<Designation>
    requires { IsTracklet file.now.tracklets t }
    ensures { result ≡ object_in file.now links.now.links t }
{
    match file.home(t) {
        Some(home) => links.principal(home),
        None => None,
    }
}

/// The principal of the object that an observation's tracklet is in.
fn object_of_seen(file: &TrackletFile, links: &Links, k: u64) -> Option<Designation>
    ensures { result ≡ object_of_seen_in file.now links.now.links k }
{
    match file.track_of(k) {
        Some(t) => object_in(file, links, t),
        None => None,
    }
}

/// Sets and voids verdicts as a deed says, and gives its numbers, where the file and the links are those before it. It
/// takes no memory.
pub fn note_verdicts(register: &mut Register, file: &TrackletFile, links: &Links, deed: &Deed)
    requires touches { TouchesDeed file.now.tracklets deed.now }
    requires numbers { NumbersDeed register.old.numbered deed.now }
    requires room { registered_by deed.now ≤ register.old.spare }
    ensures verdicts { (acts : List VerdictAct) (linked : List LinkAct) →
        LinksStandFor links.now.links linked → VerdictsStandFor register.old.verdicts acts →
        VerdictsStandFor register.new.verdicts (judged_by (held_in file.now) linked deed.now ++ acts) }
    ensures numbered { register.new.numbered ≡ with_numbers deed.now register.old.numbered }
    ensures spare { register.old.spare ≤ register.new.spare + registered_by deed.now }
    ensures no_more { register.new.spare ≤ register.old.spare + returned_by deed.now }
{
    match deed {
        Deed::Judged {
            principal,
            u,
            oppositions,
        } => register.set(*principal, *u, *oppositions),
        Deed::Numbered(pairs) => give(register, pairs.as_slice()),
        Deed::Identified {
            principal,
            secondary,
        } => {
            register.void(*secondary);
            register.void(*principal);
        }
        Deed::Attributed { to, .. } => void(register, links.principal(*to)),
        Deed::Separated(s) => void(register, links.principal(*s)),
        Deed::Released(t) => void(register, object_in(file, links, *t)),
        Deed::Retracted(k) => void(register, object_of_seen(file, links, *k)),
        _ => {}
    }
}
