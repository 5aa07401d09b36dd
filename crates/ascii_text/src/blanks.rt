//! Blanks, the bytes 32. No other byte counts as white space.

ghost use Rattle.std.specs.Prelude.{◌≡◌, ◌≤◌, [], ◌∷◌, ◌++◌, length, IfSome, IfNone};
ghost use Rattle.ascii_text.specs.Blanks.{are_blanks, trimmed, trimmed_front, trimmed_end, IsTrimmed};

use crate::reading::behind;

/// Whether each byte is a blank.
#[tactic(auto, unfolding(crate::specs::Blanks::are_blanks))]
pub fn are_blanks(text: &[u8]) -> bool
    ensures { result ≡ are_blanks text.now }
{
    text.iter().all(|byte| *byte == b' ')
}

#[tactic(auto, using(crate::proofs::BlankTexts::trimmed_front_goes_on, crate::proofs::BlankTexts::trimmed_front_ends))]
fn trimmed_front(text: &[u8]) -> &[u8]
    ensures exact { result.now ≡ trimmed_front text.now }
    ensures within { length result.now ≤ length text.now }
{
    let mut rest = text;
    while let Some(after) = behind(b' ', rest) {
        rest = after;
    }
    rest
}

// The text before the blank at its end; `None` where no blank stands there.
#[tactic(auto, using(crate::proofs::BlankTexts::trimmed_end_kept, crate::proofs::BlankTexts::trimmed_end_empty))]
fn before_blank(text: &[u8]) -> Option<&[u8]>
    ensures some { IfSome result (λ before. text.now ≡ before.now ++ 32 ∷ []) }
    ensures none { IfNone result (trimmed_end text.now ≡ text.now) }
{
    match text {
        [] => None,
        [before @ .., last] => { if *last == b' ' { Some(before) } else { None } }
    }
}

fn trimmed_end(text: &[u8]) -> &[u8]
    ensures exact { result.now ≡ trimmed_end text.now }
    ensures within { length result.now ≤ length text.now }
{
    let mut rest = text;
    while let Some(before) = before_blank(rest) {
        rest = before;
    }
    rest
}

/// The text without the blanks at both its ends.
#[tactic(auto, using(crate::proofs::BlankTexts::trimmed_is), unfolding(crate::specs::Blanks::trimmed))]
pub fn trimmed(text: &[u8]) -> &[u8]
    ensures exact { result.now ≡ trimmed text.now }
    ensures between { IsTrimmed text.now result.now }
    ensures within { length result.now ≤ length text.now }
{
    trimmed_end(trimmed_front(text))
}
