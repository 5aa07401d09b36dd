//! What letters and words stand for.

/// What a letter of the 80-column format, or a word of ADES, names.
#[derive(Clone, Copy, Debug, PartialEq, Eq, Hash)]
pub enum Kind {
    /// The star catalogue that the positions were reduced with.
    Catalogue,
    /// The band in which the magnitude was measured.
    Band,
    /// How the observation was made.
    Mode,
}
