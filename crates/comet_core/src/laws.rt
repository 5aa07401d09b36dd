//! Laws of registers, each the contract of a function that does nothing.

ghost use Rattle.std.specs.Prelude.{List, ◌∷◌};
ghost use Rattle.act_model.specs.declared.entry.Entry.{Entry};
ghost use Rattle.act_model.specs.Conducts.{Extends};
ghost use Rattle.act_model.specs.Deeds.{deeds};
ghost use Rattle.comet_model.specs.Legal.{IsLegal};
ghost use Rattle.comet_core.specs.Register.{RegisterValue, IsOver, Ready, IsReadyAt};

/// A register of an office stays one of it as the office's history grows, and an act that was worked out at the
/// register stays as it was worked out.
pub fn longer()
    ensures over { (register : RegisterValue) (earlier later : List Entry) → Extends earlier later →
        IsOver (deeds earlier) register → IsOver (deeds later) register }
    ensures ready { (register : RegisterValue) (ready : Ready) (earlier later : List Entry) → Extends earlier later →
        IsOver (deeds earlier) register →
        IsLegal register.founder (deeds earlier) (ready.entry ∷ register.entries) →
        IsReadyAt (deeds earlier) register.entries register.comets ready →
        IsReadyAt (deeds later) register.entries register.comets ready }
{
    comet_model::laws::longer();
}
