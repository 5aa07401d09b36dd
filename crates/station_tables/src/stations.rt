//! The station rows, in the order in which they were entered, and by their code.

ghost use Rattle.std.specs.Prelude.{◌≡◌, ◌&&◌, ◌==◌, true, false, [], ◌∷◌, ◌++◌, map, filter, take, IfOk, IfSome};
ghost use Rattle.std.specs.Prelude.{IfNone};
ghost use Rattle.std.specs.List.{list_any};
ghost use Rattle.station_tables.specs.Stations.{holds_day, shares_day, serving_by, serving_of, overlaps};
ghost use Rattle.station_tables.specs.Indexed.{station_row, has_code, shares_days};

use crate::keys::StationCode;
use crate::serving::Serving;
use indexmap::IndexMap;
use item_list::NoMemory;
use obs_record::Short;
use std::alloc::Global;
use std::marker::Model;

/// For how many rows the memory is taken at first.
const FIRST_ROOM: usize = 16;

/// A station's row: the first and the last day on which the code serves.
#[derive(Clone, Copy, Debug)]
pub(crate) struct Row {
    pub(crate) code: [u8; 3],
    pub(crate) from: i32,
    pub(crate) to: i32,
}

/// The rows of one code, in the order in which they were entered.
#[derive(Debug, Drop)]
pub(crate) struct CodeRows {
    rows: Vec<Row>,
}

impl Model for CodeRows {
    ghost use Rattle.std.specs.Prelude.{List};
    ghost use Rattle.station_tables.specs.declared.stations.Row.{Row};

    ghost Value = { List Row };

    ghost view = { λ list. list.rows.items };
}

impl Clone for CodeRows {
    ghost use Rattle.std.specs.Prelude.{◌≡◌};

    ghost is_clone = { λ list copy. copy ≡ list };

    fn clone(&self) -> Result<CodeRows, NoMemory> {
        Ok(CodeRows {
            rows: self.rows.clone()?,
        })
    }
}

/// The station rows.
#[derive(Debug, Drop)]
pub(crate) struct StationRows {
    rows: Vec<Row>,
    by_code: IndexMap<StationCode, CodeRows>,
}

impl Model for StationRows {
    ghost use Rattle.std.specs.Prelude.{List};
    ghost use Rattle.station_tables.specs.declared.stations.Row.{Row};
    ghost use Rattle.station_tables.specs.Indexed.{IsByCode};

    ghost Value = { List Row };

    ghost view = { λ s. s.rows.items };

    ghost invariant = { λ s. IsByCode s.by_code.entries s.rows.items };
}

/// The code that a text is, where it has 3 bytes.
fn code_in(text: Short) -> Option<StationCode>
    ensures some { IfSome result (λ key. (text.len ≡ 3) × (key.code ≡ take 3 text.bytes)) }
    ensures none { IfNone result ((text.len == 3) ≡ false) }
{
    if text.len != 3 {
        return None;
    }
    let bytes = text.bytes;
    Some(StationCode {
        code: [bytes[0], bytes[1], bytes[2]],
    })
}

fn any_holds(rows: &[Row], date: i32) -> bool
    ensures { result ≡ list_any (λ row. holds_day date (station_row row)) rows.now }
{
    rows.iter().any(|row| row.from <= date && date <= row.to)
}

fn any_shares(rows: &[Row], from: i32, to: i32) -> bool
    ensures { result ≡ list_any (shares_days from to) rows.now }
{
    rows.iter().any(|row| row.from <= to && from <= row.to)
}

/// How rows of one code stand on a day.
fn serving_by(rows: &[Row], date: i32) -> Serving
    ensures { result ≡ serving_by (map station_row rows.now) date }
{
    if rows.is_empty() {
        Serving::Unknown
    } else if any_holds(rows, date) {
        Serving::Serving
    } else {
        Serving::Outside
    }
}

impl StationRows {
    /// No rows.
    pub(crate) fn new(alloc: Global) -> Result<StationRows, NoMemory>
        ensures { IfOk result (λ rows. rows ≡ []) }
    {
        Ok(StationRows {
            rows: Vec::with_capacity(alloc, FIRST_ROOM)?,
            by_code: IndexMap::with_capacity(alloc, FIRST_ROOM)?,
        })
    }

    /// A copy of the rows.
    pub(crate) fn copied(&self) -> Result<StationRows, NoMemory>
        ensures { IfOk result (λ copy. copy ≡ self.now) }
    {
        Ok(StationRows {
            rows: self.rows.clone()?,
            by_code: self.by_code.clone()?,
        })
    }

    // The rows of a code, in their order.
    fn of_code(&self, code: StationCode) -> &[Row]
        ensures { result.now ≡ filter (has_code code.code) self.now }
    {
        match self.by_code.get(&code) {
            Some(list) => list.rows.as_slice(),
            None => &[],
        }
    }

    /// A copy of the rows with one more at the end.
    pub(crate) fn with_row(&self, row: Row) -> Result<StationRows, NoMemory>
        ensures { IfOk result (λ longer. longer ≡ self.now ++ row ∷ []) }
    {
        let code = row.code;
        let key = StationCode { code };
        let mut of_code = Vec::from_slice(*self.rows.allocator(), self.of_code(key))?;
        of_code.push(row)?;
        let mut longer = self.copied()?;
        longer.rows.push(row)?;
        longer.by_code.insert(key, CodeRows { rows: of_code })?;
        Ok(longer)
    }

    /// How a station code stands on a day.
    pub(crate) fn serving(&self, code: Short, date: i32) -> Serving
        ensures { result ≡ serving_of (map station_row self.now) code date }
    {
        match code_in(code) {
            Some(key) => serving_by(self.of_code(key), date),
            None => Serving::Unknown,
        }
    }

    /// Whether a row of the code has a day in common with these days.
    pub(crate) fn overlaps(&self, code: [u8; 3], from: i32, to: i32) -> bool
        ensures { result ≡ overlaps (map station_row self.now) code from to }
    {
        any_shares(self.of_code(StationCode { code }), from, to)
    }
}
