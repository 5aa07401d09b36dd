//! The columns that a column header names.

ghost use Rattle.std.specs.Prelude.{◌≡◌, ◌||◌, ℕ, List, ◌∷◌, IfOk};
ghost use Rattle.ades_psv.specs.Cells.{cells};
ghost use Rattle.ades_psv.specs.Columns.{has_column, has_twice, is_seen, repeats, columns_named};
ghost use Rattle.ades_psv.specs.Columns.{columns_of};

use crate::cells::{count_cells, first_cell, place_of};
use item_list::NoMemory;
use obs_record::HeaderFault;
use std::alloc::Global;
use std::collections::BTreeSet;

/// Where the columns that are read stand, counted from 0.
#[derive(Clone, Copy, Debug)]
pub(crate) struct Columns {
    pub(crate) perm: Option<usize>,
    pub(crate) prov: Option<usize>,
    pub(crate) sub: Option<usize>,
    pub(crate) mode: Option<usize>,
    pub(crate) station: Option<usize>,
    pub(crate) time: Option<usize>,
    pub(crate) ra: Option<usize>,
    pub(crate) dec: Option<usize>,
    pub(crate) catalogue: Option<usize>,
    pub(crate) mag: Option<usize>,
    pub(crate) band: Option<usize>,
    /// How many columns there are, those that aren't read among them.
    pub(crate) count: usize,
}

/// Where the columns stand that a column header names.
#[tactic(auto, unfolding(crate::specs::Columns::columns_named))]
fn columns_named(line: &[u8]) -> Columns
    ensures { result ≡ columns_named (cells line.now) }
{
    Columns {
        perm: place_of(b"permID", line),
        prov: place_of(b"provID", line),
        sub: place_of(b"trkSub", line),
        mode: place_of(b"mode", line),
        station: place_of(b"stn", line),
        time: place_of(b"obsTime", line),
        ra: place_of(b"ra", line),
        dec: place_of(b"dec", line),
        catalogue: place_of(b"astCat", line),
        mag: place_of(b"mag", line),
        band: place_of(b"band", line),
        count: count_cells(line),
    }
}

/// Whether the name isn't empty and was seen; if not, it is seen from then on. Takes memory.
#[tactic(auto, using(crate::proofs::NameSets::note_name), unfolding(crate::specs::Columns::repeats))]
fn is_again<'a>(seen: &mut BTreeSet<&'a [u8]>, name: &'a [u8]) -> Result<bool, NoMemory>
    ensures { IfOk result (λ again. (names : List (List ℕ)) → repeats (is_seen seen.old) (name.now ∷ names)
        ≡ again || repeats (is_seen seen.new) names) }
{
    if name.is_empty() {
        return Ok(false);
    }
    let added = seen.insert(name)?;
    Ok(!added)
}

/// Whether a name that isn't empty stands twice in a column header.
fn has_twice(alloc: Global, line: &[u8]) -> Result<bool, NoMemory>
    ensures { IfOk result (λ twice. twice ≡ has_twice (cells line.now)) }
{
    let mut seen = BTreeSet::new(alloc);
    let mut rest = line;
    'names: loop {
        let (name, behind) = first_cell(rest);
        if is_again(&mut seen, name)? {
            return Ok(true);
        }
        let Some(behind) = behind else {
            return Ok(false);
        };
        rest = behind;
    }
}

/// Whether a column has this name.
#[tactic(auto, using(crate::proofs::CellLaws::found_in_any))]
fn has_column(name: &[u8], line: &[u8]) -> bool
    ensures { result ≡ has_column name.now (cells line.now) }
{
    place_of(name, line).is_some()
}

/// The columns of a column header, or the first of H3, H4 and H5 that it breaks: it lacks the right ascension or the
/// declination, it has a position of the observer, or a column stands twice. Takes memory for the names.
#[tactic(auto, unfolding(crate::specs::Columns::columns_of))]
pub(crate) fn columns_of(
    alloc: Global,
    line: &[u8],
) -> Result<Result<Columns, HeaderFault>, NoMemory>
    ensures { IfOk result (λ columns. columns ≡ columns_of line.now) }
{
    let columns = columns_named(line);
    if columns.ra.is_none() || columns.dec.is_none() {
        return Ok(Err(HeaderFault::H3));
    }
    if has_column(b"pos1", line) {
        return Ok(Err(HeaderFault::H4));
    }
    if has_twice(alloc, line)? {
        return Ok(Err(HeaderFault::H5));
    }
    Ok(Ok(columns))
}
