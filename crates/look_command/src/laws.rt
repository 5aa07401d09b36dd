//! Laws of the lines. The contract of each function is the law.

ghost use Rattle.std.specs.Prelude.{◌≡◌, ℕ};
ghost use Rattle.packed_names.specs.declared.label.Label.{Label};
ghost use Rattle.obs_record.specs.declared.sighting.Sighting.{Sighting};
ghost use Rattle.act_model.specs.QueryTexts.{position_text};
ghost use Rattle.mirror_store.specs.Mirrored.{sight_row};
ghost use Rattle.look_command.specs.Looks.{row_position};

/// Moment and angles of an office's observation are spelled as in the answer to the query `tracklet`.
pub fn positions_are_those_of_queries()
    ensures { (k : ℕ) (object : Label) (s : Sighting) → row_position (sight_row k object s) ≡ position_text s }
{}
