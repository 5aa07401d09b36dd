//! The catalogue written into a sink, or joined to one text.

ghost use Rattle.std.specs.Prelude.{◌≡◌, ◌≢◌, ◌≤◌, ◌-◌, ◌^◌, ◌++◌, length, min, Err, IfOk, OnOk, OnErr};
ghost use Rattle.std.specs.Io.KnownBytes.{Appends};
ghost use Rattle.call_log.specs.Counts.{Rises};
ghost use Rattle.desk_io.specs.Outside.{AppendsPart};
ghost use Rattle.act_model.specs.Catalogue.{catalogue};
ghost use Rattle.catalogue_export.specs.Exports.{AppendsFront};
ghost use Rattle.catalogue_export.specs.PageTexts.{to_come};

use crate::pages::{PAGE_BYTES, Pages};
use act_model::Shelf;
use desk_io::{Sink, write_all};
use item_list::{Bytes, NoMemory};
use std::alloc::Global;
use std::error::Error;
use std::fmt;
use std::fmt::{Display, Formatter};

/// Why a catalogue wasn't written whole. A front of it was.
#[derive(Clone, Copy, Debug, PartialEq, Eq)]
pub enum ExportFault {
    /// The sink failed.
    WriteFault,
    /// Memory was refused.
    NoMemory,
}

impl Display for ExportFault {
    fn fmt<W: fmt::Write>(&self, f: &mut Formatter<W>) -> fmt::Result {
        f.pad(match self {
            ExportFault::WriteFault => "the sink failed",
            ExportFault::NoMemory => "out of memory",
        })
    }
}

impl Error for ExportFault {}

/// Joins the pages that are still to come to a text.
fn push_pages<V: Shelf>(
    alloc: Global,
    shelf: &V,
    pages: &mut Pages,
    text: &mut Bytes,
) -> Result<(), NoMemory>
    ensures { OnOk result (text.new ≡ text.old ++ to_come (V.history shelf.now) pages.old) }
{
    let mut page = [0; PAGE_BYTES];
    'pages: loop {
        let count = pages.next(alloc, shelf, &mut page)?;
        if count == 0 {
            return Ok(());
        }
        text.extend_from_slice(&page[..count])?;
    }
}

/// The catalogue of an office, as one text.
pub(crate) fn catalogue_text<V: Shelf>(alloc: Global, shelf: &V) -> Result<Bytes, NoMemory>
    ensures { IfOk result (λ text. text ≡ catalogue (V.history shelf.now)) }
{
    let mut text = Bytes::new(alloc);
    let mut pages = Pages::new(alloc);
    push_pages(alloc, shelf, &mut pages, &mut text)?;
    Ok(text)
}

/// Writes the pages that are still to come, and says how many bytes they have (2^64 - 1 where they have more).
fn write_pages<V: Shelf, K: Sink>(
    alloc: Global,
    shelf: &V,
    pages: &mut Pages,
    sink: &mut K,
) -> Result<u64, ExportFault>
    ensures whole { OnOk result
        (Appends (K.taken sink.old) (K.taken sink.new) (to_come (V.history shelf.now) pages.old)) }
    ensures amount { IfOk result (λ n. n ≡ min (length (to_come (V.history shelf.now) pages.old)) (2 ^ 64 - 1)) }
    ensures cut { result ≡ Err ExportFault.WriteFault →
        AppendsPart (K.taken sink.old) (K.taken sink.new) (to_come (V.history shelf.now) pages.old) }
    ensures part { OnErr result
        (AppendsFront (K.taken sink.old) (K.taken sink.new) (to_come (V.history shelf.now) pages.old)) }
    ensures counts { K.faults sink.old ≤ K.faults sink.new }
    ensures cause { result ≡ Err ExportFault.WriteFault → Rises (K.faults sink.old) (K.faults sink.new) }
    ensures faultless { result ≢ Err ExportFault.WriteFault → K.faults sink.new ≡ K.faults sink.old }
    ensures stays { K.is_open sink.new ≡ K.is_open sink.old }
{
    let mut page = [0; PAGE_BYTES];
    let mut written: u64 = 0;
    'pages: loop {
        let count = match pages.next(alloc, shelf, &mut page) {
            Ok(count) => count,
            Err(_) => return Err(ExportFault::NoMemory),
        };
        if count == 0 {
            return Ok(written);
        }
        if write_all(sink, &page[..count]).is_err() {
            return Err(ExportFault::WriteFault);
        }
        written = written.saturating_add(count as u64);
    }
}

/// Writes the catalogue of an office page by page, and says how many bytes it has (2^64 - 1 where it has more).
///
/// # Errors
///
/// The sink failed, and took a front of the catalogue and not all of it; or memory was refused, and it took a front.
pub fn export<V: Shelf, K: Sink>(alloc: Global, shelf: &V, sink: &mut K) -> Result<u64, ExportFault>
    ensures whole { OnOk result (Appends (K.taken sink.old) (K.taken sink.new) (catalogue (V.history shelf.now))) }
    ensures amount { IfOk result (λ n. n ≡ min (length (catalogue (V.history shelf.now))) (2 ^ 64 - 1)) }
    ensures cut { result ≡ Err ExportFault.WriteFault →
        AppendsPart (K.taken sink.old) (K.taken sink.new) (catalogue (V.history shelf.now)) }
    ensures part { OnErr result (AppendsFront (K.taken sink.old) (K.taken sink.new) (catalogue (V.history shelf.now))) }
    ensures counts { K.faults sink.old ≤ K.faults sink.new }
    ensures cause { result ≡ Err ExportFault.WriteFault → Rises (K.faults sink.old) (K.faults sink.new) }
    ensures faultless { result ≢ Err ExportFault.WriteFault → K.faults sink.new ≡ K.faults sink.old }
    ensures stays { K.is_open sink.new ≡ K.is_open sink.old }
{
    let mut pages = Pages::new(alloc);
    write_pages(alloc, shelf, &mut pages, sink)
}
