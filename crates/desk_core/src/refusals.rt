//! The refusals of an act, in the groups of the office's table.

ghost use Rattle.std.specs.Prelude.{◌≡◌, ◌<◌, length, reverse, Ok, None, IfOk};
ghost use Rattle.act_model.specs.Taken.{accepted_in};
ghost use Rattle.act_model.specs.declared.roster.TheConstants.{CALLERS};
ghost use Rattle.act_model.specs.Rows.{first_row, unless};
ghost use Rattle.act_model.specs.Doing.{enrol_rows, row_rows, batch_rows, retract_rows};

use crate::letting_go::let_go_deed;
use crate::roster::Roster;
use act_model::{CALLERS, Deed, Key, Refusal, TakenLines, Thing, faults_in};
use item_list::NoMemory;
use std::alloc::Global;
use tracklet_file::TrackletFile;

/// What is done, unless it is refused.
///
/// # Errors
///
/// The refusal, where there is one.
pub fn unless(refusal: Option<Refusal>, deed: Deed) -> Result<Deed, Refusal>
    ensures { result ≡ unless refusal (Ok deed) }
{
    match refusal {
        Some(refusal) => {
            let_go_deed(deed);
            Err(refusal)
        }
        None => Ok(deed),
    }
}

/// The refusal of an enrolment with this key. The founding officer's key is never tested, since no
/// enrolment can name it.
pub fn enrol_refusal(roster: &Roster, key: &Key) -> Option<Refusal>
    requires { length roster.now.items < CALLERS }
    ensures { result ≡ first_row (enrol_rows (reverse roster.now.items) key.now) }
{
    if roster.enrolled_as(key).is_some() {
        return Some(Refusal::AlreadyThere);
    }
    if roster.as_slice().len() as u64 + 1 >= CALLERS {
        return Some(Refusal::RosterFull);
    }
    None
}

/// The refusal of a row that is there already.
pub fn row_refusal(is_there: bool) -> Option<Refusal>
    ensures { result ≡ first_row (row_rows is_there) }
{
    if is_there {
        Some(Refusal::AlreadyThere)
    } else {
        None
    }
}

/// The refusal of a batch without a line that is accepted.
///
/// # Errors
///
/// Memory was refused for the faults.
pub fn batch_refusal(alloc: Global, lines: &TakenLines) -> Result<Option<Refusal>, NoMemory>
    ensures row { IfOk result (λ refusal. refusal ≡ first_row (batch_rows lines.now)) }
    ensures accepted { 0 < accepted_in lines.now → result ≡ Ok None }
{
    if lines.accepted() > 0 {
        return Ok(None);
    }
    let faults = faults_in(alloc, lines)?;
    Ok(Some(Refusal::NoLine(faults)))
}

/// The refusal of a retraction.
pub fn retract_refusal(file: &TrackletFile, k: u64) -> Option<Refusal>
    ensures { result ≡ first_row (retract_rows file.now.observations k) }
{
    if file.entry_of(k).is_none() {
        return Some(Refusal::UnknownThing(Thing::Observation(k)));
    }
    if !file.is_live(k) {
        return Some(Refusal::AlreadyRetracted(k));
    }
    None
}
