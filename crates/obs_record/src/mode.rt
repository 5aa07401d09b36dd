//! The letters of modes.

ghost use Rattle.std.specs.Prelude.{◌≡◌, ◌==◌};
ghost use Rattle.std.specs.List.{list_any};
ghost use Rattle.obs_record.specs.Modes.{refused_modes};

/// Whether an observation with this letter for its mode, column 15 of a line of 80 columns, is of a kind that this
/// office doesn't take: records of roving observers, of radar and of satellites have V, v, R, r, S and s there.
pub fn is_refused_mode(letter: u8) -> bool
    ensures { result ≡ list_any (λ mode. mode == letter) refused_modes }
{
    matches!(letter, b'V' | b'v' | b'R' | b'r' | b'S' | b's')
}
