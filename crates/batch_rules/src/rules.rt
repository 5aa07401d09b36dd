//! The rules that a line may break by itself, and beside earlier lines.

ghost use Rattle.std.specs.Prelude.{◌≡◌, List, ◌∷◌, [], not};
ghost use Rattle.obs_record.specs.declared.rule.RuleCode.TheVariants.{B4, B5};
ghost use Rattle.obs_record.specs.declared.sighting.Sighting.{Sighting as Sighting};
ghost use Rattle.obs_time.specs.Dates.{day_of};
ghost use Rattle.obs_time.specs.Calendar.{year_of};
ghost use Rattle.act_model.specs.Known.{KnownOffice};
ghost use Rattle.act_model.specs.Rows.{first_row};
ghost use Rattle.act_model.specs.BatchRules.{is_in_years, is_ungiven, names_ungiven, stands_already, stands_elsewhere};
ghost use Rattle.act_model.specs.BatchRules.{object_of, are_two, is_of_two_objects, line_rules};
ghost use Rattle.batch_rules.specs.Live.{is_live_at};
ghost use Rattle.batch_rules.specs.PlaceTests.{rule_beside};

use crate::found_rows::Rows;
use crate::names::{designation_of, is_same, number_of};
use act_model::Known;
use obs_record::{RuleCode, Sighting};
use obs_time::{Instant, civil_of};
use packed_names::{Designation, Name};
use station_tables::{Kind, Serving};

// The year of a moment.
fn year_of(time: Instant) -> u16
    ensures { result ≡ year_of (day_of time) }
{
    civil_of(time).year
}

// Whether its year is one that designations have.
fn is_in_years(s: &Sighting) -> bool
    ensures { result ≡ is_in_years s.now }
{
    let year = year_of(s.time);
    year >= 1925 && year <= 2099
}

// Whether a line names what the office didn't give.
fn is_ungiven<V: Known>(known: &V, name: Option<Name>) -> bool
    ensures { result ≡ is_ungiven (V.office known.now) name }
{
    match name {
        None => false,
        Some(name) => known.stands_for(name).is_none(),
    }
}

// The principal designation of the object that a name stands for.
fn object_of<V: Known>(known: &V, name: Option<Name>) -> Option<Designation>
    ensures { result ≡ object_of (V.office known.now) name }
{
    match name {
        None => None,
        Some(name) => match known.stands_for(name) {
            None => None,
            Some(designation) => known.principal(designation),
        },
    }
}

// Whether there are both, and they differ.
fn are_two(one: Option<Designation>, other: Option<Designation>) -> bool
    ensures { result ≡ are_two one other }
{
    match (one, other) {
        (Some(one), Some(other)) => !is_same(one, other),
        _ => false,
    }
}

fn names_ungiven<V: Known>(known: &V, s: &Sighting) -> bool
    ensures { result ≡ names_ungiven (V.office known.now) s.now }
{
    is_ungiven(known, number_of(s)) || is_ungiven(known, designation_of(s))
}

// The rule that an observation breaks beside a live one, or beside the earlier ones of its batch: by whether a live one
// has its place, and the rule that it breaks beside the earlier ones.
fn broken_beside(is_live: bool, beside: Option<RuleCode>) -> Option<RuleCode>
    ensures { (office : KnownOffice) (earlier : List Sighting) (s : Sighting) →
        is_live ≡ is_live_at office s → beside ≡ rule_beside earlier s →
        result ≡ first_row ((stands_already office earlier s, B4) ∷ (stands_elsewhere earlier s, B5) ∷ []) }
{
    if is_live {
        return Some(RuleCode::B4);
    }
    beside
}

fn is_of_two_objects<V: Known>(known: &V, s: &Sighting) -> bool
    ensures { result ≡ is_of_two_objects (V.office known.now) s.now }
{
    are_two(
        object_of(known, number_of(s)),
        object_of(known, designation_of(s)),
    )
}

/// The first rule that an observation breaks by itself, or beside the earlier ones of its batch: by whether a live one
/// has its place, and the rule that it breaks beside the earlier ones.
#[tactic(auto, using(crate::proofs::Beside::beside_none))]
pub(crate) fn line_fault<V: Known>(
    rows: &mut Rows,
    known: &V,
    moment: Instant,
    beside: Option<RuleCode>,
    is_live: bool,
    s: &Sighting,
) -> Option<RuleCode>
    requires { is_live ≡ is_live_at (V.office known.now) s.now }
    ensures rule { (earlier : List Sighting) → beside ≡ rule_beside earlier s.now →
        result ≡ first_row (line_rules (V.office known.now) rows.old moment earlier s.now) }
    ensures same { rows.new ≡ rows.old }
{
    match rows.station_serving(s) {
        Serving::Unknown => return Some(RuleCode::T1),
        Serving::Outside => return Some(RuleCode::T2),
        Serving::Serving => {}
    }
    if !rows.have(Kind::Catalogue, s.catalogue) {
        return Some(RuleCode::T3);
    }
    if !rows.have(Kind::Band, s.band) {
        return Some(RuleCode::T4);
    }
    if !rows.have(Kind::Mode, s.mode) {
        return Some(RuleCode::T5);
    }
    if moment.ns() < s.time.ns() {
        return Some(RuleCode::B1);
    }
    if !is_in_years(s) {
        return Some(RuleCode::B2);
    }
    if names_ungiven(known, s) {
        return Some(RuleCode::B3);
    }
    if let Some(rule) = broken_beside(is_live, beside) {
        return Some(rule);
    }
    if is_of_two_objects(known, s) {
        return Some(RuleCode::B9);
    }
    None
}
