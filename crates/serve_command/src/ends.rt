//! How links ended.

ghost use Rattle.std.specs.Prelude.{◌≡◌, [], length, reverse};

use http_connection::Left;
use std::alloc::Global;

/// A link that was attended and ended.
#[derive(Debug, Drop)]
pub struct LinkEnd<I, O> {
    /// Why it was left.
    pub left: Left,
    /// Its source.
    pub source: I,
    /// Its sink.
    pub sink: O,
}

/// No ends.
pub(crate) fn no_ends<I, O>(alloc: Global) -> Vec<LinkEnd<I, O>>
    ensures { result.items ≡ [] }
{
    Vec::new(alloc)
}

/// Turns ends round, of which the first one stands last.
pub(crate) fn turned_round<I, O>(mut ends: Vec<LinkEnd<I, O>>) -> Vec<LinkEnd<I, O>>
    ensures { result.items ≡ reverse ends.items }
{
    ends.reverse();
    ends
}

/// How many links there were.
pub(crate) fn count_of<I, O>(ends: &Vec<LinkEnd<I, O>>) -> u64
    ensures { result ≡ length ends.now.items }
{
    ends.len() as u64
}
