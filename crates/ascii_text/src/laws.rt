//! What holds of the texts themselves, whoever reads or writes them. Each function does nothing: its contract is the
//! law.

ghost use Rattle.ascii_text.specs.Laws.{TextLaws};

/// What is written is read, and what is read is written so: digits, decimals, numbers, blanks.
pub fn texts()
    ensures { TextLaws }
{}
