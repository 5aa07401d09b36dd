//! What holds of the lines of all texts. Each function does nothing: its contract is the law.

ghost use Rattle.text_lines.specs.Laws.{LineLaws};

/// The lines of a text that grows at its end, and of a text in pieces.
pub fn lines()
    ensures { LineLaws }
{}
