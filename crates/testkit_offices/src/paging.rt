//! The catalogue of an office, by its pages and written out.

use act_model::Shelf;
use catalogue_export::{PAGE_BYTES, Pages, export};
use desk_io::MemSink;
use std::alloc::Global;

/// A catalogue by its pages.
#[derive(Drop)]
pub struct Paged {
    /// How many bytes each page had, up to the first one without any.
    pub counts: Vec<usize>,
    /// The bytes of all pages.
    pub bytes: Vec<u8>,
}

/// The next page at the end of the others, and how many bytes it had; None where memory was refused, here and below.
fn push_page<V: Shelf>(
    alloc: Global,
    shelf: &V,
    pages: &mut Pages,
    paged: &mut Paged,
) -> Option<usize> {
    let mut page = [0; PAGE_BYTES];
    let count = pages.next(alloc, shelf, &mut page).ok()?;
    paged.counts.push(count).ok()?;
    paged
        .bytes
        .extend_from_slice(page.get(..count).unwrap_or(&[]))
        .ok()?;
    Some(count)
}

/// The pages up to the first one without bytes, but at most so many.
pub(crate) fn pages_of<V: Shelf>(alloc: Global, shelf: &V, most: u64) -> Option<Paged> {
    let mut pages = Pages::new(alloc);
    let mut paged = Paged {
        counts: Vec::new(alloc),
        bytes: Vec::new(alloc),
    };
    for _ in 0..most {
        if push_page(alloc, shelf, &mut pages, &mut paged)? == 0 {
            return Some(paged);
        }
    }
    Some(paged)
}

/// What is written into a sink that has room for so many bytes, and how many are said to be.
pub(crate) fn exported<V: Shelf>(alloc: Global, shelf: &V, room: usize) -> Option<(u64, Vec<u8>)> {
    let mut sink = MemSink::new(alloc, room, &[]).ok()?;
    let count = export(alloc, shelf, &mut sink).ok()?;
    let mut bytes = Vec::new(alloc);
    bytes.extend_from_slice(sink.bytes()).ok()?;
    Some((count, bytes))
}
