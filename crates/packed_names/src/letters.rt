//! The letters from A on without I, which count half-months and orders.

ghost use Rattle.std.specs.Prelude.{◌≡◌, ◌<◌, ◌≤◌, IfSome, option_map};
ghost use Rattle.packed_names.specs.Letters.{letter_of, index_of, letter_at};

/// The letter of an index.
pub(crate) fn letter_of(index: u8) -> u8
    requires { index < 25 }
    ensures { result ≡ letter_of index }
{
    if index < 8 {
        b'A' + index
    } else {
        b'B' + index
    }
}

/// The index of a letter; `None` for I, and for what is no capital letter.
#[tactic(auto, unfolding(crate::specs::Letters::index_of))]
fn index_of(letter: u8) -> Option<u8>
    ensures { result ≡ index_of letter }
{
    match letter {
        b'A'..=b'H' => Some(letter - b'A'),
        b'J'..=b'Z' => Some(letter - b'B'),
        _ => None,
    }
}

/// The index of the letter at the front among the first `count`, and the text after it.
#[tactic(auto, unfolding(crate::specs::Letters::letter_at))]
pub(crate) fn letter_at(count: u8, text: &[u8]) -> Option<(u8, &[u8])>
    ensures value { option_map (λ x. (x.0, x.1.now)) result ≡ letter_at count text.now }
    ensures below { IfSome result (λ x. x.0 < count) }
{
    match text {
        [letter, rest @ ..] => {
            let index = index_of(*letter)?;
            if index < count {
                Some((index, rest))
            } else {
                None
            }
        }
        [] => None,
    }
}
