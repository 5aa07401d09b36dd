//! The lines of a batch, taken in by the rulings on them.

ghost use Rattle.std.specs.Prelude.{◌≡◌, ◌+◌, ◌<◌, ◌≤◌, ◌^◌, length, IfOk};
ghost use Rattle.act_model.specs.Taken.{first_home, track_of_group, found_in, taken_line, tracks_with};
ghost use Rattle.act_model.specs.Taken.{placed_by, taken_by, taken_lines};
ghost use Rattle.desk_core.specs.Office.{IsTracked, AreTracked};

use act_model::{Known, Placing, Ruling, TakenLines, name_of};
use item_list::{ItemList, NoMemory};
use obs_record::{Line, Lines, RuleCode, Sighting, TrackName};
use packed_names::{Designation, Name};
use std::alloc::Global;

/// The designation in which a tracklet of this name starts.
fn first_home<V: Known>(known: &V, name: TrackName) -> Option<Designation>
    ensures { result ≡ first_home (V.office known.now) name }
{
    match name {
        TrackName::Number(number) => known.stands_for(Name::Number(number)),
        TrackName::Designation(designation) => known.stands_for(Name::Designation(designation)),
        TrackName::Sub(_) => None,
    }
}

/// What is found of a line that was read so, with this fault: where its observation is filed, or the first rule that it
/// breaks.
fn found_in<V: Known>(
    known: &V,
    track: u64,
    read: &Result<Sighting, RuleCode>,
    fault: Option<RuleCode>,
) -> Result<Placing, RuleCode>
    ensures { placed_by read.now result ≡ found_in (V.office known.now) track read.now fault }
{
    if let Some(rule) = fault {
        return Err(rule);
    }
    match read {
        Ok(sighting) => Ok(Placing {
            track,
            home: first_home(known, name_of(sighting)),
        }),
        Err(rule) => Err(*rule),
    }
}

/// What is found of a line by the ruling on it, where there were `before` tracklets before the batch and there are
/// `now` by this line.
fn taken_line<V: Known>(
    known: &V,
    before: u64,
    now: u64,
    line: &Line,
    ruling: &Ruling,
) -> Result<Placing, RuleCode>
    requires before { before + 2 ^ 32 < 2 ^ 64 }
    requires now { now + 1 < 2 ^ 64 }
    ensures taken { taken_by line.now result ≡ taken_line (V.office known.now) before now line.now ruling.now }
    ensures tracked { IsTracked now (placed_by line.now.read result) }
{
    let begun = before + u64::from(ruling.group) + 1;
    let track = if begun <= now { begun } else { now + 1 };
    found_in(known, track, &line.read, ruling.fault)
}

/// How many tracklets there are after a line that was read so, of which this was found.
fn tracks_with(
    now: u64,
    read: &Result<Sighting, RuleCode>,
    found: &Result<Placing, RuleCode>,
) -> u64
    requires { IsTracked now (placed_by read.now found.now) }
    ensures tracks { result ≡ tracks_with now (placed_by read.now found.now) }
    ensures more { result ≤ now + 1 }
{
    match (read, found) {
        (Ok(_), Ok(placing)) => now.max(placing.track),
        _ => now,
    }
}

/// The lines of a batch with the rulings on them, line by line, where the office had this many tracklets before it.
///
/// # Errors
///
/// Memory was refused.
pub fn taken_lines<V: Known>(
    alloc: Global,
    known: &V,
    tracks: u64,
    lines: Lines,
    rulings: &[Ruling],
) -> Result<TakenLines, NoMemory>
    requires { tracks + length lines + 2 ^ 32 < 2 ^ 64 }
    ensures taken { IfOk result (λ taken.
        taken ≡ taken_lines (V.office known.now) tracks tracks lines rulings.now) }
    ensures tracked { IfOk result (AreTracked tracks) }
{
    act_model::laws::nothing_found();
    let count = lines.as_slice().len().min(rulings.len());
    let mut list = ItemList::with_capacity(alloc, count)?;
    let mut now = tracks;
    for place in 0..count {
        let line = &lines.as_slice()[place];
        let found = taken_line(known, tracks, now, line, &rulings[place]);
        now = tracks_with(now, &line.read, &found);
        list.push(found)?;
    }
    Ok(TakenLines::new(lines, list))
}
