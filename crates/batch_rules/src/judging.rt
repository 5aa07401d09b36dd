//! The rulings on the lines of a batch.

ghost use Rattle.std.specs.Prelude.{◌≡◌, ◌<◌, ◌+◌, ◌^◌, ◌∷◌, [], List, All, Ok, is_none, map, length, IfOk, OnOk};
ghost use Rattle.std.specs.Prelude.{if◌then◌else◌};
ghost use Rattle.std.specs.List.{position_or_len};
ghost use Rattle.indexmap.specs.IndexSet.{insert_key};
ghost use Rattle.obs_record.specs.declared.line.Line.{Line as Line};
ghost use Rattle.batch_rules.specs.declared.keys.GroupKey.{GroupKey as Key};
ghost use Rattle.batch_rules.specs.KeyTests.{same_key};
ghost use Rattle.batch_rules.specs.Earlier.{line_of, reading_of};
ghost use Rattle.batch_rules.specs.Groups.{group_key, fault_by};
ghost use Rattle.batch_rules.specs.Points.{found_at, point_of};
ghost use Rattle.batch_rules.specs.Numbers.{keys_after, ruling_by};
ghost use Rattle.batch_rules.specs.Numbered.{IsNumbered, IsNext, points_in};
ghost use Rattle.act_model.specs.BatchRules.{batch_rulings, groups_of, passed_in};

use crate::checking::{Checked, checked_lines};
use crate::groups::{Groups, fault_by, summaries};
use crate::numbering::Numbering;
use crate::rulings::Rulings;
use act_model::{Known, Ruling};
use item_list::{ItemList, NoMemory};
use obs_record::{Lines, RuleCode, Sighting};
use obs_time::Instant;
use station_tables::Tables;
use std::alloc::Global;

// The rule that an observation breaks with its group, and the group's number where it breaks none; by the observation's
// place among those that passed.
fn ruled(
    groups: &Groups,
    numbering: &mut Numbering,
    place: usize,
    s: &Sighting,
) -> Result<(Option<RuleCode>, u32), NoMemory>
    requires next { IsNext groups.now place (Ok s.now) }
    requires many { length numbering.old.numbers ≡ length groups.now.keys }
    ensures small { IfOk result (λ ruled. place < 2 ^ 63) }
    ensures fault { IfOk result (λ ruled. ruled.0 ≡ fault_by (found_at groups.now (group_key s.now)) s.now) }
    ensures number { IfOk result (λ ruled. (firsts : List Key) → IsNumbered groups.now.keys firsts numbering.old →
        ruled.1 ≡ (if is_none ruled.0 then position_or_len (same_key (group_key s.now)) firsts else 0)) }
    ensures numbered { IfOk result (λ ruled. (firsts : List Key) → IsNumbered groups.now.keys firsts numbering.old →
        IsNumbered groups.now.keys
        (if is_none ruled.0 then insert_key same_key firsts (group_key s.now) else firsts) numbering.new) }
{
    let group = groups.group_of(place);
    match fault_by(groups.told_of(group), s) {
        None => Ok((None, numbering.number(group)?)),
        Some(rule) => Ok((Some(rule), 0)),
    }
}

// The ruling on a line, which stands whatever lines come after it. An observation is the next one of those that passed.
fn ruling(
    groups: &Groups,
    numbering: &mut Numbering,
    next: &mut usize,
    line: &Checked,
) -> Result<Ruling, NoMemory>
    requires next { IsNext groups.now next.old (reading_of line.now.read) }
    requires many { length numbering.old.numbers ≡ length groups.now.keys }
    ensures numbered { OnOk result ((firsts : List Key) → IsNumbered groups.now.keys firsts numbering.old →
        IsNumbered groups.now.keys (keys_after (found_at groups.now) firsts (line_of line.now ∷ [])) numbering.new) }
    ensures ruling { IfOk result (λ ruling. (firsts : List Key) → IsNumbered groups.now.keys firsts numbering.old →
        (later : List Line) → ruling ≡ ruling_by (found_at groups.now)
        (keys_after (found_at groups.now) firsts (line_of line.now ∷ later)) (line_of line.now)) }
    ensures next { OnOk result (next.new ≡ next.old + points_in (reading_of line.now.read)) }
{
    let (fault, group) = match line.read {
        Ok(s) => {
            let ruled = ruled(groups, numbering, *next, s)?;
            *next += 1;
            ruled
        }
        Err(rule) => (Some(rule), 0),
    };
    Ok(Ruling {
        line: line.number,
        fault,
        group,
    })
}

// The rulings on all lines, by what is said about their groups.
fn rulings(alloc: Global, groups: &Groups, checked: &[Checked]) -> Result<Rulings, NoMemory>
    requires points { groups.now.points ≡ map (point_of groups.now.keys) (passed_in (map line_of checked.now)) }
    requires within { All (λ p. p.group < length groups.now.keys) groups.now.points }
    ensures list { IfOk result (λ judged. judged.list ≡ map (ruling_by (found_at groups.now)
        (keys_after (found_at groups.now) [] (map line_of checked.now)))
        (map line_of checked.now)) }
    ensures groups { IfOk result (λ judged.
        judged.groups ≡ length (keys_after (found_at groups.now) [] (map line_of checked.now))) }
{
    let mut numbering = Numbering::of_none(alloc, groups.len())?;
    let mut next = 0;
    let mut list = ItemList::with_capacity(alloc, checked.len())?;
    for line in checked {
        list.push(ruling(groups, &mut numbering, &mut next, line)?)?;
    }
    let groups = numbering.count();
    Ok(Rulings { list, groups })
}

/// The rulings on the lines of a batch that comes at this moment, by the office's tables and what the office knows: the
/// first rule that each line breaks, and the group of each that breaks none.
///
/// # Errors
///
/// Memory was refused.
pub fn judge<V: Known>(
    alloc: Global,
    tables: &Tables,
    known: &V,
    moment: Instant,
    batch: &Lines,
) -> Result<Rulings, NoMemory>
    ensures rulings { IfOk result (λ judged.
        judged.list ≡ batch_rulings (V.office known.now) tables.now moment batch.now) }
    ensures groups { IfOk result (λ judged.
        judged.groups ≡ groups_of (V.office known.now) tables.now moment batch.now) }
{
    let (checked, passed) = checked_lines(alloc, tables, known, moment, batch.as_slice())?;
    let summed = summaries(alloc, passed)?;
    rulings(alloc, &summed, checked.as_slice())
}
