//! A data line, cut into its fields.

ghost use Rattle.std.specs.Prelude.{◌≡◌, ℕ, ◌<◌, ◌≤◌, length, slice_get, unwrap_or, [], All};
ghost use Rattle.ades_psv.specs.Cells.{cells, cell_in};
ghost use Rattle.ades_psv.specs.Fields.{AreCells, seen, fields_of};

use crate::cells::{count_cells, first_cell};
use crate::columns::Columns;

/// A data line, and what stands in its fields that are read, without the blanks round it; nothing stands in a field
/// that is missing.
#[derive(Clone, Copy)]
pub(crate) struct Fields<'a> {
    /// The whole line.
    pub(crate) line: &'a [u8],
    pub(crate) perm: &'a [u8],
    pub(crate) prov: &'a [u8],
    pub(crate) sub: &'a [u8],
    pub(crate) mode: &'a [u8],
    pub(crate) station: &'a [u8],
    pub(crate) time: &'a [u8],
    pub(crate) ra: &'a [u8],
    pub(crate) dec: &'a [u8],
    pub(crate) catalogue: &'a [u8],
    pub(crate) mag: &'a [u8],
    pub(crate) band: &'a [u8],
    /// How many fields the line has.
    pub(crate) count: usize,
    /// How many columns its header has.
    pub(crate) columns: usize,
}

/// How many cells at the front of a line are kept as it is cut. Lines have fewer as a rule; the others of a longer line
/// are looked for where they are wanted.
const KEPT: usize = 16;

/// A line that was cut.
#[derive(Drop)]
struct CutLine<'a> {
    line: &'a [u8],
    /// Its first cells, as many as are kept; what stands behind the last of a shorter line is empty.
    first: [&'a [u8]; KEPT],
    /// How many cells it has.
    count: usize,
}

/// Cuts a line into its cells, where none is kept yet.
fn cut_cells(cut: &mut CutLine)
    requires { All (λ cell. cell.now ≡ []) cut.old.first }
    ensures line { cut.new.line ≡ cut.old.line }
    ensures cells { AreCells cut.old.line.now cut.new }
{
    let mut rest = cut.line;
    'cells: for place in 0..KEPT {
        let (cell, behind) = first_cell(rest);
        cut.first[place] = cell;
        let Some(behind) = behind else {
            cut.count = place + 1;
            return;
        };
        rest = behind;
    }
    cut.count = KEPT + count_cells(rest);
}

/// The cell in this place of a line, counted from 0; nothing where the line has fewer.
#[inline(never)]
fn cell_at<'a>(place: usize, line: &'a [u8]) -> &'a [u8]
    ensures { result.now ≡ unwrap_or (slice_get (cells line.now) place) [] }
{
    let mut rest = line;
    'cells: for _passed in 0..place {
        let Some(behind) = first_cell(rest).1 else {
            return &[];
        };
        rest = behind;
    }
    first_cell(rest).0
}

/// The cell in a column; nothing where the line has fewer cells, or where there is no such column.
#[inline(always)]
fn cell_in<'a>(column: Option<usize>, cut: &CutLine<'a>) -> &'a [u8]
    requires { AreCells cut.now.line.now cut.now }
    ensures { result.now ≡ cell_in column (cells cut.now.line.now) }
{
    match column {
        None => &[],
        Some(place) if place < KEPT => cut.first[place],
        Some(place) => cell_at(place, cut.line),
    }
}

/// The fields of a line below these columns.
#[tactic(auto, unfolding(crate::specs::Fields::fields_of))]
pub(crate) fn cut_fields<'a>(columns: &Columns, line: &'a [u8]) -> Fields<'a>
    ensures { seen result ≡ fields_of columns.now line.now }
{
    let mut cut = CutLine {
        line,
        first: [&[]; KEPT],
        count: 0,
    };
    cut_cells(&mut cut);
    Fields {
        line,
        perm: cell_in(columns.perm, &cut),
        prov: cell_in(columns.prov, &cut),
        sub: cell_in(columns.sub, &cut),
        mode: cell_in(columns.mode, &cut),
        station: cell_in(columns.station, &cut),
        time: cell_in(columns.time, &cut),
        ra: cell_in(columns.ra, &cut),
        dec: cell_in(columns.dec, &cut),
        catalogue: cell_in(columns.catalogue, &cut),
        mag: cell_in(columns.mag, &cut),
        band: cell_in(columns.band, &cut),
        count: cut.count,
        columns: columns.count,
    }
}
