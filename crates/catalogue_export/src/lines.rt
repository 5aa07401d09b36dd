//! The lines of observations in the catalogue.

ghost use Rattle.std.specs.Prelude.{◌≡◌, ◌≤◌, ◌+◌, ◌++◌, length, All, IfOk, IfSome, Some};
ghost use Rattle.arrayvec.specs.ArrayVec.{array_vec_len};
ghost use Rattle.packed_names.specs.Ranges.{IsNumber};
ghost use Rattle.obs_record.specs.Filed.{IsTrackName};
ghost use Rattle.obs_record.specs.Sighting.{IsPrintable};
ghost use Rattle.tracklet_file.specs.Observations.{sighting_of};
ghost use Rattle.act_model.specs.Catalogue.{is_discovery, object_front, object_line};
ghost use Rattle.act_model.specs.CatalogueLines.{letter_for, letters_for, in_seven, own_name, written_line};
ghost use Rattle.act_model.specs.Deeds.{deeds};
ghost use Rattle.act_model.specs.Holdings.{holdings};
ghost use Rattle.act_model.specs.OfficeTables.{tables_of};
ghost use Rattle.act_model.specs.Texts.{packed_designation};
ghost use Rattle.catalogue_export.specs.Pieces.{track_line_of};

use act_model::Shelf;
use act_model::laws::{letters_are_printed, names_are_names, observations_are_filed};
use arrayvec::ArrayVec;
use ascii_text::writing::put_blanks;
use col80_format::{Front, Letters, write_line};
use item_list::{Bytes, NoMemory};
use obs_record::{Coded, Sighting, TrackName};
use packed_names::{Designation, Name, is_name, pack};
use station_tables::Kind;
use std::alloc::Global;

/// How many bytes a line has, with its line feed.
const LINE_BYTES: usize = 81;

/// The letter of a column: the one that the observation came with, or that of its word; a blank where there is none.
fn letter_for<V: Shelf>(shelf: &V, kind: Kind, coded: Coded) -> u8
    ensures { result ≡ letter_for (tables_of (deeds (V.history shelf.now))).codes kind coded }
{
    match coded {
        Coded::Nothing => b' ',
        Coded::Letter(byte) => byte,
        Coded::Word(word) => shelf.letter(kind, word).unwrap_or(b' '),
    }
}

/// The letters of an observation's line.
fn letters_for<V: Shelf>(shelf: &V, s: &Sighting) -> Letters
    ensures { result ≡ letters_for (tables_of (deeds (V.history shelf.now))).codes s.now }
{
    Letters {
        mode: letter_for(shelf, Kind::Mode, s.mode),
        band: letter_for(shelf, Kind::Band, s.band),
        catalogue: letter_for(shelf, Kind::Catalogue, s.catalogue),
    }
}

/// Writes a text as it is.
fn put(out: &mut ArrayVec<u8, 7>, text: &[u8])
    requires { array_vec_len out.old + length text.now ≤ 7 }
    ensures text { out.new.items ≡ out.old.items ++ text.now }
    ensures len { array_vec_len out.new ≡ array_vec_len out.old + length text.now }
{
    out.try_extend_from_slice(text).unwrap();
}

/// The first seven characters of a text, filled with blanks.
fn in_seven(text: &[u8]) -> [u8; 7]
    ensures { result ≡ in_seven text.now }
{
    let kept = text.len().min(7);
    let mut columns = ArrayVec::<u8, 7>::new();
    put(&mut columns, &text[..kept]);
    put_blanks(&mut columns, 7 - kept);
    columns.into_inner().unwrap()
}

/// The packed form of a designation, in seven columns.
fn packed_columns(p: Designation) -> [u8; 7]
    ensures text { result ≡ in_seven (packed_designation p) }
    ensures printed { All IsPrintable result }
{
    let name = Name::Designation(p);
    if is_name(name) {
        in_seven(pack(name).as_slice())
    } else {
        in_seven(b"")
    }
}

/// The name that observers gave a tracklet, in seven columns. Blanks for one that came under a number or a designation.
fn own_columns(name: TrackName) -> [u8; 7]
    requires { IsTrackName name }
    ensures text { result ≡ in_seven (own_name name) }
    ensures printed { All IsPrintable result }
{
    match name {
        TrackName::Sub(short) => in_seven(&short.bytes[..usize::from(short.len)]),
        TrackName::Number(_) => in_seven(b""),
        TrackName::Designation(_) => in_seven(b""),
    }
}

/// Whether the object with this principal was discovered by this observation. A designation that was carried has no
/// discovery.
fn is_discovery<V: Shelf>(shelf: &V, p: Designation, k: u64) -> bool
    ensures { result ≡ is_discovery (deeds (V.history shelf.now)) p k }
{
    shelf.discovery(p) == Some(k)
}

/// Columns 1 to 13 of the line of an observation of an object.
fn object_front<V: Shelf>(shelf: &V, p: Designation, k: u64) -> Front
    ensures front { result ≡ object_front (deeds (V.history shelf.now)) p k }
    ensures number { IfSome result.number (λ n. IsNumber n.0) }
    ensures printed { All IsPrintable result.name }
{
    names_are_names();
    Front {
        number: shelf.number_of(p),
        name: packed_columns(p),
        star: is_discovery(shelf, p, k),
    }
}

/// The line of an observation after these columns. Nothing for an observation that isn't there.
fn line_behind<V: Shelf>(alloc: Global, shelf: &V, front: Front, k: u64) -> Result<Bytes, NoMemory>
    requires number { IfSome front.number (λ n. IsNumber n.0) }
    requires name { All IsPrintable front.name }
    ensures { IfOk result (λ text. text ≡ written_line (tables_of (deeds (V.history shelf.now))).codes front
        (sighting_of (holdings (deeds (V.history shelf.now))).observations k)) }
{
    observations_are_filed();
    letters_are_printed();
    let Some(s) = shelf.sighting(k) else {
        return Ok(Bytes::new(alloc));
    };
    let line = write_line(s, front, letters_for(shelf, s));
    let mut out = Bytes::with_capacity(alloc, LINE_BYTES)?;
    out.extend_from_slice(&line)?;
    out.push(b'\n')?;
    Ok(out)
}

/// The line of an observation of the object with this principal.
pub(crate) fn object_line<V: Shelf>(
    alloc: Global,
    shelf: &V,
    p: Designation,
    k: u64,
) -> Result<Bytes, NoMemory>
    ensures { IfOk result (λ text. text ≡ object_line (deeds (V.history shelf.now)) p k) }
{
    line_behind(alloc, shelf, object_front(shelf, p, k), k)
}

/// The line of an observation of an isolated tracklet.
pub(crate) fn track_line<V: Shelf>(
    alloc: Global,
    shelf: &V,
    t: u64,
    k: u64,
) -> Result<Bytes, NoMemory>
    ensures { IfOk result (λ text. text ≡ track_line_of (deeds (V.history shelf.now)) t k) }
{
    names_are_names();
    let Some(head) = shelf.track(t) else {
        return Ok(Bytes::new(alloc));
    };
    let front = Front {
        number: None,
        name: own_columns(head.name),
        star: false,
    };
    line_behind(alloc, shelf, front, k)
}
