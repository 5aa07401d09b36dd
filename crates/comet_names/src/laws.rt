//! Laws of comets. The contract of each function is the law, for all comets and texts.

ghost use Rattle.std.specs.Prelude.{◌≡◌, ℕ, List};
ghost use Rattle.comet_names.specs.declared.comet.Comet.{Comet};
ghost use Rattle.comet_names.specs.Packed.{IsCometPackedAs};
ghost use Rattle.comet_names.specs.Printed.{IsCometPrintedAs};
ghost use Rattle.comet_names.specs.Laws.{CometLaws};

/// Two comets never share a packed form, and a comet never has two.
pub fn packed_one_to_one()
    ensures one_comet { (one other : Comet) (text : List ℕ) → IsCometPackedAs one text → IsCometPackedAs other text
        → one ≡ other }
    ensures one_text { (comet : Comet) (one other : List ℕ) → IsCometPackedAs comet one → IsCometPackedAs comet other
        → one ≡ other }
{
    ascii_text::laws::texts();
}

/// Two comets never share a printed form, and a comet never has two.
pub fn printed_one_to_one()
    ensures one_comet { (one other : Comet) (text : List ℕ) → IsCometPrintedAs one text → IsCometPrintedAs other text
        → one ≡ other }
    ensures one_text { (comet : Comet) (one other : List ℕ) → IsCometPrintedAs comet one → IsCometPrintedAs comet other
        → one ≡ other }
{
    ascii_text::laws::texts();
}

/// A text is answered with a comet exactly where it is the comet's packed form, or its printed form.
pub fn comets()
    ensures { CometLaws }
{
    ascii_text::laws::texts();
}
