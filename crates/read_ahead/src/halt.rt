//! Why no further message was read.

/// Why no further message of a source was read.
#[derive(Clone, Copy, Debug, PartialEq, Eq)]
pub enum Halt {
    /// The source ended, and no byte of a further message had come.
    End,
    /// What comes next is no message: its bytes break the rules of one, or the source ended inside it.
    Bad,
    /// The source failed before a message had come.
    Failed,
}
