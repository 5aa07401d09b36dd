//! Short texts that take no memory of their own.

ghost use Rattle.std.specs.Prelude.{◌≡◌, ◌≤◌, List, ℕ, length};

/// The printed text of a comet, of 9 or 10 bytes.
#[derive(Clone, Copy, Debug, PartialEq, Eq)]
pub struct Label9 {
    /// How many bytes the text has.
    pub len: u8,
    /// The text, and after it bytes that are 0.
    pub bytes: [u8; 10],
}

impl Label9 {
    ghost use Rattle.comet_names.specs.Labels.{IsLabel9Of};

    /// The label of a text.
    pub(crate) fn of(text: &[u8]) -> Label9
        requires { length text.now ≤ 10 }
        ensures { IsLabel9Of text.now result }
    {
        let mut bytes = [0; 10];
        let (front, _) = bytes.split_at_mut(text.len());
        front.copy_from_slice(text);
        Label9 {
            len: text.len() as u8,
            bytes,
        }
    }

    /// The text of the label.
    pub fn as_slice(&self) -> &[u8]
        requires { self.now.len ≤ 10 }
        ensures { (text : List ℕ) → IsLabel9Of text self.now → result.now ≡ text }
    {
        &self.bytes[..self.len as usize]
    }
}
