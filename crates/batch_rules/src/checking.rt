//! Each line by itself, and beside the earlier ones.

ghost use Rattle.std.specs.Prelude.{◌≡◌, [], map, IfOk};
ghost use Rattle.act_model.specs.BatchRules.{checked_reading, with_passed, checked_lines, passed_in};
ghost use Rattle.batch_rules.specs.Earlier.{pointed_sightings, reading_of, line_of};
ghost use Rattle.tracklet_file.specs.Observations.{is_live_reading, is_live_line};

use crate::earlier::Earlier;
use crate::found_rows::Rows;
use crate::rules::line_fault;
use act_model::Known;
use item_list::NoMemory;
use obs_record::{Line, RuleCode, Sighting};
use obs_time::Instant;
use station_tables::Tables;
use std::alloc::Global;

/// A line with its observation, or with the first rule that it breaks. No observation is copied.
#[derive(Clone, Copy)]
pub(crate) struct Checked<'a> {
    pub(crate) number: u32,
    pub(crate) read: Result<&'a Sighting, RuleCode>,
}

// A line's observation, which is added to the earlier ones of the lines after it, or the rule that the line breaks by
// itself or beside the earlier ones; by whether a live observation has the place of the line's.
#[tactic(auto, unfolding(act_model::specs::BatchRules::checked_reading))]
fn checked_reading<'a, V: Known>(
    rows: &mut Rows,
    known: &V,
    moment: Instant,
    earlier: &mut Earlier<'a>,
    is_live: bool,
    read: &'a Result<Sighting, RuleCode>,
) -> Result<Result<&'a Sighting, RuleCode>, NoMemory>
    requires { is_live ≡ is_live_reading (V.office known.now).has_live read.now }
    ensures read { IfOk result (λ checked. reading_of checked
        ≡ checked_reading (V.office known.now) rows.old moment earlier.old read.now) }
    ensures earlier { IfOk result (λ checked. earlier.new ≡ with_passed (reading_of checked) earlier.old) }
    ensures rows { rows.new ≡ rows.old }
{
    let s = match read {
        Ok(s) => s,
        Err(rule) => return Ok(Err(*rule)),
    };
    let beside = earlier.beside(s)?;
    match line_fault(rows, known, moment, beside, is_live, s) {
        None => {
            earlier.push(s)?;
            Ok(Ok(s))
        }
        Some(rule) => Ok(Err(rule)),
    }
}

// Whether a live observation has the place of each line's observation. All are asked for at once, before all else: what
// one needs of the memory then comes while others are asked for.
fn live_lines<V: Known>(alloc: Global, known: &V, lines: &[Line]) -> Result<Vec<bool>, NoMemory>
    ensures { IfOk result (λ live. live.items ≡ map (is_live_line (V.office known.now).has_live) lines.now) }
{
    let mut live = Vec::with_capacity(alloc, lines.len())?;
    known.have_live(lines, &mut live);
    Ok(live)
}

/// Each line with its observation, or with the first rule that it breaks by itself or beside the earlier ones; and the
/// observations that the lines then have, in their order.
pub(crate) fn checked_lines<'a, V: Known>(
    alloc: Global,
    tables: &Tables,
    known: &V,
    moment: Instant,
    lines: &'a [Line],
) -> Result<(Vec<Checked<'a>>, Vec<&'a Sighting>), NoMemory>
    ensures lines { IfOk result (λ checked.
        map line_of checked.0.items ≡ checked_lines (V.office known.now) tables.now moment [] lines.now) }
    ensures passed { IfOk result (λ checked.
        pointed_sightings checked.1.items ≡ passed_in (map line_of checked.0.items)) }
{
    let live = live_lines(alloc, known, lines)?;
    let mut rows = Rows::new(tables);
    let mut earlier = Earlier::with_capacity(alloc, lines.len())?;
    let mut checked = Vec::with_capacity(alloc, lines.len())?;
    for (place, line) in lines.iter().enumerate() {
        let read = checked_reading(
            &mut rows,
            known,
            moment,
            &mut earlier,
            live[place],
            &line.read,
        )?;
        checked.push(Checked {
            number: line.number,
            read,
        })?;
    }
    Ok((checked, earlier.passed()))
}
