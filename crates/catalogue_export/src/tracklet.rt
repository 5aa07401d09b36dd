//! The text of a tracklet.

ghost use Rattle.std.specs.Prelude.{◌≡◌, ◌++◌, codes, decimal, flat_map, IfOk, OnOk};
ghost use Rattle.tracklet_file.specs.Observations.{observations_of};
ghost use Rattle.act_model.specs.Deeds.{deeds};
ghost use Rattle.act_model.specs.Designations.{links_of};
ghost use Rattle.act_model.specs.Holdings.{holdings};
ghost use Rattle.act_model.specs.QueryTexts.{track_line, home_line, state_text, position_text};
ghost use Rattle.act_model.specs.QueryTexts.{observation_line, tracklet_text};
ghost use Rattle.act_model.specs.Texts.{line_of};

use crate::reading::is_live;
use crate::writing::{push_named, push_numbered, push_short, push_track_name};
use act_model::{Shelf, TrackHead};
use angle_fixed::{write_dec_degrees, write_ra_degrees};
use ascii_text::blanks::trimmed;
use item_list::{Bytes, NoMemory};
use obs_record::Sighting;
use obs_time::write_iso;
use packed_names::Designation;
use std::alloc::Global;

fn push_track_line(out: &mut Bytes, t: u64, head: &TrackHead) -> Result<(), NoMemory>
    ensures { OnOk result (out.new ≡ out.old ++ track_line t head.now) }
{
    push_numbered(out, b"track ", t)?;
    out.extend_from_slice(b" station ")?;
    push_short(out, head.station)?;
    out.extend_from_slice(b" name ")?;
    push_track_name(out, head.name)?;
    out.push(b'\n')
}

fn push_home_line<V: Shelf>(
    shelf: &V,
    out: &mut Bytes,
    home: Option<Designation>,
) -> Result<(), NoMemory>
    ensures { OnOk result (out.new ≡ out.old ++ home_line (links_of (deeds (V.history shelf.now))) home) }
{
    let Some(home) = home else {
        return out.extend_from_slice(b"home isolated\n");
    };
    push_named(out, b"home ", home)?;
    push_named(out, b" principal ", shelf.principal(home).unwrap_or(home))?;
    out.push(b'\n')
}

/// Writes whether an observation is live.
fn push_state(out: &mut Bytes, is_live: bool) -> Result<(), NoMemory>
    ensures { OnOk result (out.new ≡ out.old ++ state_text is_live) }
{
    if is_live {
        out.extend_from_slice(b" live ")
    } else {
        out.extend_from_slice(b" retracted ")
    }
}

/// Writes the moment, right ascension and declination of an observation.
fn push_position(out: &mut Bytes, s: &Sighting) -> Result<(), NoMemory>
    ensures { OnOk result (out.new ≡ out.old ++ position_text s.now) }
{
    out.extend_from_slice(&write_iso(s.time))?;
    out.push(b' ')?;
    out.extend_from_slice(trimmed(&write_ra_degrees(s.ra)))?;
    out.push(b' ')?;
    out.extend_from_slice(&write_dec_degrees(s.dec))
}

/// Writes the line of an observation with this number, which is live or isn't.
fn push_seen_line(out: &mut Bytes, k: u64, is_live: bool, s: &Sighting) -> Result<(), NoMemory>
    ensures { OnOk result (out.new
        ≡ out.old ++ line_of (codes "obs " ++ decimal k ++ state_text is_live ++ position_text s.now)) }
{
    push_numbered(out, b"obs ", k)?;
    push_state(out, is_live)?;
    push_position(out, s)?;
    out.push(b'\n')
}

fn push_observation_line<V: Shelf>(shelf: &V, out: &mut Bytes, k: u64) -> Result<(), NoMemory>
    ensures { OnOk result
        (out.new ≡ out.old ++ observation_line (holdings (deeds (V.history shelf.now))).observations k) }
{
    match shelf.sighting(k) {
        Some(s) => push_seen_line(out, k, is_live(shelf, k), s),
        None => Ok(()),
    }
}

fn push_observation_lines<V: Shelf>(
    shelf: &V,
    out: &mut Bytes,
    items: &[u64],
) -> Result<(), NoMemory>
    ensures { OnOk result
        (out.new ≡ out.old
        ++ flat_map (observation_line (holdings (deeds (V.history shelf.now))).observations) items.now) }
{
    for k in items {
        push_observation_line(shelf, out, *k)?;
    }
    Ok(())
}

/// Writes the observations of a tracklet, by number.
fn push_observations<V: Shelf>(shelf: &V, out: &mut Bytes, t: u64) -> Result<(), NoMemory>
    ensures { OnOk result
        (out.new ≡ out.old ++ flat_map (observation_line (holdings (deeds (V.history shelf.now))).observations)
        (observations_of (holdings (deeds (V.history shelf.now))).observations t)) }
{
    let items = shelf.items(t)?;
    push_observation_lines(shelf, out, items.as_slice())
}

fn push_tracklet<V: Shelf>(
    shelf: &V,
    out: &mut Bytes,
    t: u64,
    head: &TrackHead,
) -> Result<(), NoMemory>
    ensures { OnOk result (out.new ≡ out.old ++ tracklet_text (holdings (deeds (V.history shelf.now)))
        (links_of (deeds (V.history shelf.now))) t head.now) }
{
    push_track_line(out, t, head)?;
    push_home_line(shelf, out, head.home)?;
    push_observations(shelf, out, t)
}

/// The text of the tracklet with this number and this head: its name, its home, and its observations by number.
pub(crate) fn tracklet_text<V: Shelf>(
    alloc: Global,
    shelf: &V,
    t: u64,
    head: &TrackHead,
) -> Result<Bytes, NoMemory>
    ensures { IfOk result (λ text. text ≡ tracklet_text (holdings (deeds (V.history shelf.now)))
        (links_of (deeds (V.history shelf.now))) t head.now) }
{
    let mut out = Bytes::new(alloc);
    push_tracklet(shelf, &mut out, t, head)?;
    Ok(out)
}
