//! The observations of lines, field by field, also below a second header.

use super::calls::said;
use ades_psv::PsvFault;
use obs_record::{Coded, Lines, Shape, Short, Sighting};
use std::alloc::Global;

/// A batch of four lines in two tracklets.
pub(super) const BATCH: &[u8] = b"# version=2017
# observatory
! mpcCode 703
trkSub|mode|stn|obsTime|ra|dec|astCat|mag|band
AAA1|CCD|703|2024-03-15T23:59:59.999Z|150.0|-5.5|Gaia3|20.25|V
AAA1|CCD|703|2024-03-16T00:30:00Z|150.01|-5.5|Gaia3|20.3|V
AAA2|CCD|703|2024-03-16T12:00:00Z|150.2|-5.5|Gaia3
AAA2|CCD|703|2024-03-16T12:30:00Z|150.21|-5.5|Gaia3
";

/// The word of a field.
fn word(text: &[u8]) -> Coded {
    Coded::Word(Short::new(text))
}

/// The observation in a place of what is said.
fn sighting_in(said: &Result<Lines, PsvFault>, place: u64) -> Option<Sighting> {
    match said {
        Ok(lines) => lines.get(place)?.read.ok(),
        Err(_) => None,
    }
}

/// The observation in a place of a batch.
pub(super) fn sighting_at(alloc: Global, body: &[u8], place: u64) -> Option<Sighting> {
    sighting_in(&said(alloc, body), place)
}

/// The observation in the first line of that batch: 2024-03-15T23:59:59.999Z, 150 and -5.5 degrees of 9,000,000,000,000
/// units.
pub(super) fn is_first(s: &Sighting) -> bool {
    s.time.ns() == 1_710_547_199_999_000_000
        && s.ra.units() == 1_350_000_000_000_000
        && s.dec.units() == -49_500_000_000_000
}

/// Whether an observation has the temporary designation of that line and no other name.
fn has_first_name(s: &Sighting) -> bool {
    s.perm == None && s.prov == None && s.sub == Some(Short::new(b"AAA1"))
}

/// Whether it has the magnitude of that line, of two decimals.
fn has_first_magnitude(s: &Sighting) -> bool {
    s.mag == Some(20_250_000) && s.shape == Shape::Psv { mag: 2 }
}

/// Whether it has the words of that line.
fn has_first_words(s: &Sighting) -> bool {
    s.band == word(b"V") && s.mode == word(b"CCD") && s.catalogue == word(b"Gaia3")
}

/// Whether it is of the station of that line and has no note.
fn has_first_station(s: &Sighting) -> bool {
    s.station == Short::new(b"703") && s.note1 == b' '
}

/// Whether the first line of that batch has its moment and its position, its name, its magnitude, its words, and its
/// station.
fn first_fields(alloc: Global) -> Option<[bool; 5]> {
    let s = sighting_at(alloc, BATCH, 0)?;
    Some([
        is_first(&s),
        has_first_name(&s),
        has_first_magnitude(&s),
        has_first_words(&s),
        has_first_station(&s),
    ])
}

/// Whether an observation has neither a magnitude nor a band.
fn has_no_magnitude(s: &Sighting) -> bool {
    s.mag == None && s.band == Coded::Nothing && s.shape == Shape::Psv { mag: 0 }
}

/// Whether the third line of that batch has neither.
fn third_fields(alloc: Global) -> Option<bool> {
    let s = sighting_at(alloc, BATCH, 2)?;
    Some(has_no_magnitude(&s))
}

#[test]
fn reads_the_fields(rt: HostRuntime) {
    let first = first_fields(rt.alloc());
    assert_eq!(rt; first, Some([true; 5]));
    let third = third_fields(rt.alloc());
    assert_eq!(rt; third, Some(true));
}
