//! The lines of a text, one after another from its front.

ghost use Rattle.std.specs.Prelude.{◌≡◌, ◌<◌, [], ◌∷◌, length, IfSome, IfNone};
ghost use Rattle.std.specs.Str.Lines.{lines, strip_carriage_return};
ghost use Rattle.text_lines.specs.Pieces.{complete_lines, unfinished};

use crate::cutting::cut;

/// The line without the carriage return at its end.
fn without_return(line: &[u8]) -> &[u8]
    ensures { result.now ≡ strip_carriage_return line.now }
{
    match line {
        [front @ .., b'\r'] => front,
        _ => line,
    }
}

/// The first line of a text that isn't empty, without its line end, and the text after it.
pub fn next_line(text: &[u8]) -> (&[u8], &[u8])
    requires { 0 < length text.now }
    ensures first { lines text.now ≡ result.0.now ∷ lines result.1.now }
    ensures shorter { length result.1.now < length text.now }
{
    let (line, after) = cut(b'\n', text);
    match after {
        None => (line, &[]),
        Some(after) => (without_return(line), after),
    }
}

/// The first line of a text that a line feed ends, without its line end, and the text after it; none where no line feed
/// stands in the text.
pub fn next_complete(text: &[u8]) -> Option<(&[u8], &[u8])>
    ensures line { IfSome result (λ x. complete_lines text.now ≡ x.0.now ∷ complete_lines x.1.now) }
    ensures rest { IfSome result (λ x. unfinished text.now ≡ unfinished x.1.now) }
    ensures shorter { IfSome result (λ x. length x.1.now < length text.now) }
    ensures no_line { IfNone result (complete_lines text.now ≡ []) }
    ensures all_left { IfNone result (unfinished text.now ≡ text.now) }
{
    let (line, after) = cut(b'\n', text);
    match after {
        None => None,
        Some(after) => Some((without_return(line), after)),
    }
}
