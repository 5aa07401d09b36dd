//! Short texts, kept where they stand.

ghost use Rattle.std.specs.Prelude.{◌≡◌, min, length};
ghost use Rattle.obs_record.specs.Short.{IsShort, kept_short};

/// A text of at most 12 bytes. The bytes from `len` on are 0.
#[derive(Clone, Copy, Debug, PartialEq, Eq)]
pub struct Short {
    /// How many bytes the text has, 0 to 12.
    pub len: u8,
    /// The text, and zeros after it.
    pub bytes: [u8; 12],
}

impl Short {
    /// The text, or its first 12 bytes where it is longer.
    #[inline]
    pub fn new(text: &[u8]) -> Short
        ensures text { result ≡ kept_short text.now }
        ensures short { IsShort result }
    {
        // Where the length is a constant, the bytes are moved in a step or two: words of fields are so short as a rule.
        match text.len().min(12) {
            1 => Short::of_front(1, text),
            3 => Short::of_front(3, text),
            4 => Short::of_front(4, text),
            5 => Short::of_front(5, text),
            6 => Short::of_front(6, text),
            7 => Short::of_front(7, text),
            8 => Short::of_front(8, text),
            len => Short::of_front(len, text),
        }
    }

    /// The bytes of the text that are kept, which are this many.
    #[inline(always)]
    fn of_front(len: usize, text: &[u8]) -> Short
        requires { len ≡ min (length text.now) 12 }
        ensures text { result ≡ kept_short text.now }
        ensures short { IsShort result }
    {
        let mut bytes = [0; 12];
        bytes[..len].copy_from_slice(&text[..len]);
        Short {
            len: len as u8,
            bytes,
        }
    }
}
