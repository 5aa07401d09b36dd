//! Printable characters, those of the bytes 32 to 126.

ghost use Rattle.std.specs.Prelude.{◌≡◌};
ghost use Rattle.std.specs.List.{list_all};
ghost use Rattle.ascii_text.specs.Bytes.{is_printable, is_visible};

/// Whether the byte is a printable character other than a blank.
pub fn is_visible(byte: u8) -> bool
    ensures { result ≡ is_visible byte }
{
    33 <= byte && byte <= 126
}

/// Whether each byte is a printable character, a blank included. The loop stops nowhere, so that it can take many bytes
/// at a time.
pub fn are_printable(text: &[u8]) -> bool
    ensures { result ≡ list_all is_printable text.now }
{
    let mut are = true;
    'bytes: for byte in text {
        are &= (32 <= *byte) & (*byte <= 126);
    }
    are
}

/// Whether each byte is a printable character other than a blank.
pub fn are_visible(text: &[u8]) -> bool
    ensures { result ≡ list_all is_visible text.now }
{
    text.iter().all(|byte| is_visible(*byte))
}
