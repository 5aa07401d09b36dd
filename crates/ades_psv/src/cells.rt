//! The cells of a line, which bars separate.

ghost use Rattle.std.specs.Prelude.{◌≡◌, ◌==◌, ◌+◌, ◌<◌, ◌≤◌, [], ◌∷◌, ◌++◌, All, false, length, IfSome, IfNone};
ghost use Rattle.std.specs.Prelude.{ℕ, count_by, not, take, slice_index};
ghost use Rattle.std.specs.List.{prefix_len};
ghost use Rattle.std.specs.Option.{option_map_or};
ghost use Rattle.ascii_text.specs.Bytes.{vertical_bar};
ghost use Rattle.ades_psv.specs.Cells.{cells};
ghost use Rattle.ades_psv.specs.Columns.{place_of};

use ascii_text::blanks::trimmed;
use std::simd::prelude::*;

/// How many bytes are looked at in one step. Most cells are shorter, so that one step finds their end.
const STEP: usize = 16;

/// How many of the first bytes of a text come before the first bar among them: all where there is none.
#[inline(always)]
fn before_bar(text: &[u8]) -> usize
    requires { 16 ≤ length text.now }
    ensures { result ≡ prefix_len (λ byte. not (byte == vertical_bar)) (take 16 text.now) }
{
    let bars = u8x16::from_slice(text)
        .simd_eq(u8x16::splat(b'|'))
        .to_bitmask();
    if bars == 0 {
        STEP
    } else {
        bars.trailing_zeros() as usize
    }
}

/// How many of the first bytes of a text are no bars; a bar follows where these aren't all that are looked at.
#[inline(always)]
fn clear_front(text: &[u8]) -> usize
    requires { 16 ≤ length text.now }
    ensures within { result ≤ 16 }
    ensures clear { (k : ℕ) → k < result → (slice_index text.now k == vertical_bar) ≡ false }
    ensures bar { result < 16 → slice_index text.now result ≡ vertical_bar }
{
    before_bar(text)
}

/// The place of the first bar, where none stands among this many bytes at the front.
#[inline(always)]
fn bar_behind(clear: usize, text: &[u8]) -> Option<usize>
    requires within { clear ≤ length text.now }
    requires clear { (k : ℕ) → k < clear → (slice_index text.now k == vertical_bar) ≡ false }
    ensures within { IfSome result (λ place. place < length text.now) }
    ensures bar { IfSome result (λ place. slice_index text.now place ≡ vertical_bar) }
    ensures first { IfSome result (λ place. (k : ℕ) → k < place → (slice_index text.now k == vertical_bar) ≡ false) }
    ensures none { IfNone result (All (λ b. (b == vertical_bar) ≡ false) text.now) }
{
    'bytes: for place in clear..text.len() {
        if text[place] == b'|' {
            return Some(place);
        }
    }
    None
}

/// The place of the first bar. Cells are short: one step and a plain loop find their end sooner than a search that is
/// made for long texts.
#[inline(always)]
fn bar_in(text: &[u8]) -> Option<usize>
    ensures within { IfSome result (λ place. place < length text.now) }
    ensures bar { IfSome result (λ place. slice_index text.now place ≡ vertical_bar) }
    ensures first { IfSome result (λ place. (k : ℕ) → k < place → (slice_index text.now k == vertical_bar) ≡ false) }
    ensures none { IfNone result (All (λ b. (b == vertical_bar) ≡ false) text.now) }
{
    if text.len() < STEP {
        return bar_behind(0, text);
    }
    let place = clear_front(text);
    if place < STEP {
        return Some(place);
    }
    bar_behind(STEP, text)
}

/// What stands before the first bar of a text, and what stands after it; the whole text where there is none.
fn cut_at_bar(text: &[u8]) -> (&[u8], Option<&[u8]>)
    ensures parts { IfSome result.1 (λ behind. text.now ≡ result.0.now ++ 124 ∷ behind.now) }
    ensures whole { IfNone result.1 (result.0.now ≡ text.now) }
    ensures first { All (λ b. (b == vertical_bar) ≡ false) result.0.now }
{
    match bar_in(text) {
        None => (text, None),
        Some(place) => {
            let (front, rest) = text.split_at(place);
            let (_, behind) = rest.split_at(1);
            (front, Some(behind))
        }
    }
}

/// The first cell of a line, and the line after its bar, if a bar stands there.
pub(crate) fn first_cell(line: &[u8]) -> (&[u8], Option<&[u8]>)
    ensures exact { cells line.now ≡ result.0.now ∷ option_map_or (λ behind. cells behind.now) result.1 [] }
    ensures shorter { IfSome result.1 (λ behind. length behind.now < length line.now) }
{
    let (piece, behind) = cut_at_bar(line);
    (trimmed(piece), behind)
}

/// How many bars a line has.
fn count_bars(line: &[u8]) -> usize
    ensures exact { result ≡ count_by (λ byte. byte == vertical_bar) line.now }
    ensures within { result ≤ length line.now }
{
    line.iter().filter(|byte| **byte == b'|').count()
}

/// How many cells a line has.
#[tactic(auto, using(crate::proofs::CellLaws::length_cells))]
pub(crate) fn count_cells(line: &[u8]) -> usize
    ensures exact { result ≡ length (cells line.now) }
    ensures few { result ≤ length line.now + 1 }
{
    count_bars(line) + 1
}

/// The place of the first cell with this text, counted from 0.
pub(crate) fn place_of(text: &[u8], line: &[u8]) -> Option<usize>
    ensures { result ≡ place_of text.now (cells line.now) }
{
    let mut rest = line;
    let mut place = 0;
    'cells: loop {
        let (cell, behind) = first_cell(rest);
        if cell == text {
            return Some(place);
        }
        let Some(behind) = behind else {
            return None;
        };
        rest = behind;
        place += 1;
    }
}
