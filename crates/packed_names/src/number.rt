//! The numbers of numbered minor planets.

/// The greatest number of a minor planet: the last one that has a packed form.
pub const GREATEST_NUMBER: u32 = 15_396_335;

/// The first number that is packed as `~` and four digits of base 62.
pub(crate) const FIRST_LARGE: u32 = 620_000;

/// The number of a minor planet whose orbit is known well, 1 to [`GREATEST_NUMBER`].
#[derive(Clone, Copy, Debug, PartialEq, Eq, PartialOrd, Ord)]
pub struct Number(pub u32);
