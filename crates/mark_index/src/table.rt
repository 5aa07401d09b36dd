//! The table of the slots that marks lead to.

ghost use Rattle.std.specs.Prelude.{◌≡◌, ◌≢◌, ℕ, ◌<◌, ◌↔◌, IsTrue};
ghost use Rattle.mark_index.specs.Slots.{slot_of, tag_of, HasTag};

/// A slot of the table: the number of its newest entry, counted from 1, 0 where there is none; and a set of tags, with
/// that of each mark that ever came to it. A mark's tag is one of 32, its topmost five bits.
///
/// A search asks the tags first, and then goes on from the head: they stand side by side, so that one miss of the
/// cache brings both.
#[derive(Clone, Copy, Debug)]
pub(crate) struct Slot {
    pub(crate) head: u32,
    pub(crate) tags: u32,
}

/// The slot of a mark, of this many.
#[inline(always)]
#[tactic(auto, unfolding(crate::specs::Slots::slot_of))]
pub(crate) fn slot_of(mark: u32, slots: usize) -> usize
    requires { 0 < slots }
    ensures slot { result ≡ slot_of slots mark }
    ensures within { result < slots }
{
    mark as usize & (slots - 1)
}

/// A set of tags with that of a mark.
#[inline(always)]
pub(crate) fn with_tag(tags: u32, mark: u32) -> u32
    ensures own { HasTag result mark }
    ensures others { (other : ℕ) → HasTag tags other → HasTag result other }
    ensures no_more { (other : ℕ) → tag_of other ≢ tag_of mark → HasTag result other → HasTag tags other }
{
    tags | 1 << (mark >> 27)
}

/// Whether a set of tags has that of a mark.
#[inline(always)]
pub(crate) fn has_tag(tags: u32, mark: u32) -> bool
    ensures { IsTrue result ↔ HasTag tags mark }
{
    (tags >> (mark >> 27)) & 1 == 1
}
