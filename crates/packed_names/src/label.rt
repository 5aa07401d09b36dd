//! Short texts that take no memory of their own.

ghost use Rattle.std.specs.Prelude.{◌≡◌, ◌≤◌, List, ℕ, length};

/// The text of a name, of at most 13 bytes.
#[derive(Clone, Copy, Debug, PartialEq, Eq)]
pub struct Label {
    /// How many bytes the text has.
    pub len: u8,
    /// The text, and after it bytes that are 0.
    pub bytes: [u8; 13],
}

impl Label {
    ghost use Rattle.packed_names.specs.Labels.{IsLabelOf};

    /// The label of a text.
    pub(crate) fn of(text: &[u8]) -> Label
        requires { length text.now ≤ 13 }
        ensures { IsLabelOf text.now result }
    {
        let mut bytes = [0; 13];
        let (front, _) = bytes.split_at_mut(text.len());
        front.copy_from_slice(text);
        Label {
            len: text.len() as u8,
            bytes,
        }
    }

    /// The text of the label.
    pub fn as_slice(&self) -> &[u8]
        requires { self.now.len ≤ 13 }
        ensures { (text : List ℕ) → IsLabelOf text self.now → result.now ≡ text }
    {
        &self.bytes[..self.len as usize]
    }
}
