//! Batches that are judged for an office in memory.

ghost use Rattle.std.specs.Prelude.{◌≡◌};
ghost use Rattle.tracklet_file.specs.Observations.{is_live_line};
ghost use Rattle.batch_rules.specs.Memory.{order_of_2024, memory_office};

use act_model::Known;
use angle_fixed::{Dec, Ra};
use batch_rules::*;
use item_list::ItemList;
use obs_record::{Coded, Line, Lines, RuleCode, Shape, Short, Sighting};
use obs_time::Instant;
use packed_names::{Designation, HalfMonth, Name, Number, Provisional};
use station_tables::Tables;
use std::alloc::Global;

// Days since 1970-01-01 of 1900-01-01 and 2199-12-31.
const FROM: i32 = -25_567;

const TO: i32 = 84_005;

/// 2024 E with this order.
fn designation(order: u32) -> Designation
    ensures { result ≡ order_of_2024 order }
{
    Designation::Provisional(Provisional {
        half: HalfMonth {
            year: 2024,
            index: 4,
        },
        order,
    })
}

/// The time of the office's live observation, in nanoseconds since 1970-01-01.
pub const LIVE: i64 = 1_600_000_000_000_000_000;

/// An office that gave 2024 EA and 2024 EB, each the principal designation of its object, and number 1 to 2024 EA. It
/// has one live observation, and asks for its time alone.
struct Office;

// Whether the office's live observation has the time of a line's observation.
fn is_live_line(line: &Line) -> bool
    ensures { result ≡ is_live_line memory_office.has_live line.now }
{
    match &line.read {
        Ok(s) => s.time.ns() == LIVE,
        Err(_) => false,
    }
}

impl Known for Office {
    ghost office = { λ o. memory_office };

    fn has_live(&self, _station: Short, time: Instant, _ra: Ra, _dec: Dec) -> bool {
        time.ns() == LIVE
    }

    fn have_live(&self, lines: &[Line], live: &mut Vec<bool>) {
        for line in lines {
            live.push_reserved(is_live_line(line));
        }
    }

    fn stands_for(&self, name: Name) -> Option<Designation> {
        match name {
            Name::Number(number) if number.0 == 1 => Some(designation(1)),
            Name::Number(_) => None,
            Name::Designation(Designation::Provisional(p)) if p.order <= 2 => {
                Some(Designation::Provisional(p))
            }
            Name::Designation(_) => None,
        }
    }

    fn principal(&self, d: Designation) -> Option<Designation> {
        Some(d)
    }
}

/// Who is observed: the observer's own names, designations of 2024 E by their orders, and numbers with designations.
#[derive(Clone, Copy)]
pub enum Who {
    Sub(u8),
    Order(u32),
    Both(u32, u32),
}

// The observation; None where there is no such moment or place.
fn seen(who: Who, station: &[u8], time: i64, dec: i64) -> Option<Sighting> {
    let (perm, prov, sub) = match who {
        Who::Sub(byte) => (None, None, Some(Short::new(&[byte]))),
        Who::Order(order) => (None, Some(designation(order)), None),
        Who::Both(number, order) => (Some(Number(number)), Some(designation(order)), None),
    };
    let time = Instant::new(time)?;
    let ra = Ra::new(5)?;
    let dec = Dec::new(dec)?;
    Some(Sighting {
        perm,
        prov,
        sub,
        station: Short::new(station),
        time,
        ra,
        dec,
        mag: None,
        band: Coded::Nothing,
        mode: Coded::Nothing,
        catalogue: Coded::Nothing,
        note1: b' ',
        shape: Shape::Psv { mag: 0 },
    })
}

/// A line of a batch: who, where, when, at which declination, and the rule that it breaks.
pub type Row = (Who, &'static [u8], i64, i64, Option<RuleCode>);

// Adds a line to a batch; false where that can't be.
fn add(lines: &mut Lines, row: &Row) -> bool {
    let (who, station, time, dec, _fault) = *row;
    match seen(who, station, time, dec) {
        Some(s) => {
            let line = Line {
                number: 1,
                read: Ok(s),
            };
            lines.push(line).is_ok()
        }
        None => false,
    }
}

// The batch of these lines.
fn lines(alloc: Global, rows: &[Row]) -> Option<Lines> {
    let mut lines = ItemList::new(alloc);
    for row in rows {
        if !add(&mut lines, row) {
            return None;
        }
    }
    Some(lines)
}

// Enters a station that serves on all days; false where it has days already or memory was refused.
fn enter(tables: &mut Tables, code: [u8; 3]) -> bool {
    if tables.overlaps(code, FROM, TO) {
        return false;
    }
    match tables.with_station(code, FROM, TO) {
        Ok(more) => {
            *tables = more;
            true
        }
        Err(_) => false,
    }
}

/// Tables with two stations, 703 and W84; None where memory was refused.
pub fn tables(alloc: Global) -> Option<Tables> {
    let mut tables = Tables::new(alloc).ok()?;
    let done = enter(&mut tables, *b"703") && enter(&mut tables, *b"W84");
    done.then_some(tables)
}

// The rulings on a batch that comes at this moment.
fn ruled(alloc: Global, tables: &Tables, moment: Instant, batch: &Lines) -> Option<Rulings> {
    judge(alloc, tables, &Office, moment, batch).ok()
}

/// The rulings on the lines of a batch that comes at this moment to the office; None where memory was refused.
pub fn rulings_on(
    alloc: Global,
    tables: &Tables,
    moment: Instant,
    rows: &[Row],
) -> Option<Rulings> {
    match lines(alloc, rows) {
        Some(batch) => ruled(alloc, tables, moment, &batch),
        None => None,
    }
}
