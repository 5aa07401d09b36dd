//! A text that comes in pieces, of which only the unfinished last line is kept.

ghost use Rattle.std.specs.Prelude.{◌≡◌, ◌≤◌, ℕ, List, [], ◌++◌, length, IfSome, IfNone};
ghost use Rattle.text_lines.specs.Pieces.{complete_lines, unfinished};

use crate::cutting::cut;

/// The front of a piece up to its first line feed, that included, which ends the line that isn't finished; and what
/// stands after it. None where no line feed stands in the piece: all of it then belongs to the line.
pub fn line_end(piece: &[u8]) -> Option<(&[u8], &[u8])>
    ensures parts { IfSome result (λ x. piece.now ≡ x.0.now ++ x.1.now) }
    // Whatever stands before it, nothing is left unfinished.
    ensures ended { IfSome result (λ x. (text : List ℕ) → unfinished (text ++ x.0.now) ≡ []) }
    // Whatever stands before it, no line is ended.
    ensures no_line { IfNone result ((text : List ℕ) → complete_lines (text ++ piece.now) ≡ complete_lines text) }
    ensures goes_on { IfNone result ((text : List ℕ) → unfinished (text ++ piece.now) ≡ unfinished text ++ piece.now) }
{
    let (front, after) = cut(b'\n', piece);
    match after {
        None => None,
        Some(_) => Some(piece.split_at(front.len() + 1)),
    }
}
