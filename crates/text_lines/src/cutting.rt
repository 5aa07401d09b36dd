//! Texts that are cut at a byte.

ghost use Rattle.std.specs.Prelude.{◌≡◌, ◌==◌, ◌<◌, [], ◌∷◌, ◌++◌, length, All, IfSome, IfNone, false};

use memchr::memchr;

/// What stands before the first byte of this kind, and what stands after it; the whole text where there is none.
pub fn cut(byte: u8, text: &[u8]) -> (&[u8], Option<&[u8]>)
    ensures parts { IfSome result.1 (λ after. text.now ≡ result.0.now ++ byte ∷ after.now) }
    ensures whole { IfNone result.1 (result.0.now ≡ text.now) }
    ensures first { All (λ b. (b == byte) ≡ false) result.0.now }
{
    match memchr(byte, text) {
        None => (text, None),
        Some(place) => {
            let (front, rest) = text.split_at(place);
            let (_, after) = rest.split_at(1);
            (front, Some(after))
        }
    }
}
