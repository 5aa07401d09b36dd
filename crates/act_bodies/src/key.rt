//! The keys by which callers are known.

ghost use Rattle.std.specs.Prelude.{◌≡◌};
ghost use Rattle.act_bodies.specs.Keys.{key_of, key_text, same_key};

/// The key by which a caller is known to the office: a text of at most 34 bytes. Keys on the
/// office's roster are shorter, so a longer text is nobody's key.
#[derive(Clone, Copy, Debug)]
pub struct Key {
    /// How many bytes the text has, 0 to 34.
    pub len: u8,
    /// The text, with zeros after it.
    pub bytes: [u8; 34],
}

impl Key {
    /// The key of a text, or of its first 34 bytes where it is longer.
    pub fn new(text: &[u8]) -> Key
        ensures { result ≡ key_of text.now }
    {
        let len = text.len().min(34);
        let mut bytes = [0; 34];
        bytes[..len].copy_from_slice(&text[..len]);
        Key {
            len: len as u8,
            bytes,
        }
    }

    /// The text of the key, of at most 34 bytes.
    pub fn text(&self) -> &[u8]
        ensures { result.now ≡ key_text self.now }
    {
        let len = usize::from(self.len).min(self.bytes.len());
        &self.bytes[..len]
    }

    /// Whether two keys are one: they have the same text.
    pub fn is(&self, other: &Key) -> bool
        ensures { result ≡ same_key self.now other.now }
    {
        self.text() == other.text()
    }
}
