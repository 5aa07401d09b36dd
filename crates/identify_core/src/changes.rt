//! Changes of links that are in order, and of their index. No change takes memory.

ghost use Rattle.std.specs.Prelude.{◌≡◌, ◌≢◌, ◌+◌, ◌<◌, ◌∷◌, count_by, Some, None, length, vec_len, vec_capacity};
ghost use Rattle.std.specs.List.{insert, remove};
ghost use Rattle.std.specs.List.Sorted.{IsPermutation};
ghost use Rattle.packed_names.specs.declared.name.Designation.{Designation};
ghost use Rattle.ordered_list.specs.Orders.{IsStrictlySorted};
ghost use Rattle.identify_core.specs.Acts.LinkAct.{Joined};
ghost use Rattle.identify_core.specs.Principals.{principal_of, ChangedBy};
ghost use Rattle.identify_core.specs.Keeping.{has_principal, link_cmp, AreKept, IsGiven};

use crate::entry::PrincipalEntry;
use crate::link::Link;
use crate::searches::{first_of, place_of, place_without};
use ordered_list::OrderedList;
use packed_names::Designation;

/// Puts the link of a member that has none in its place. There is room for it.
pub fn put(links: &mut Vec<Link>, link: Link)
    requires sorted { IsStrictlySorted link_cmp links.old.items }
    requires absent { principal_of links.old.items link.member ≡ None }
    requires room { vec_len links.old < vec_capacity links.old }
    ensures sorted { IsStrictlySorted link_cmp links.new.items }
    ensures more { IsPermutation (link ∷ links.old.items) links.new.items }
    ensures length { vec_len links.new ≡ vec_len links.old + 1 }
    ensures capacity { vec_capacity links.new ≡ vec_capacity links.old }
{
    let place = place_of(links.as_slice(), link);
    if links.insert(place, link).is_err() {
        unreachable!("there is room")
    }
}

/// Puts a link in place of the one at `from`, at the place `to` among the others. Only the links between the two places
/// are moved.
fn move_to(links: &mut [Link], from: usize, to: usize, link: Link)
    requires from { from < length links.old }
    requires to { to < length links.old }
    ensures moved { links.new ≡ insert (remove links.old from) to link }
    ensures length { length links.new ≡ length links.old }
{
    if from < to {
        links[from..to + 1].rotate_left(1);
    } else {
        links[to..from + 1].rotate_right(1);
    }
    links[to] = link;
}

/// Gives the member of a link another principal.
pub fn give(
    links: &mut Vec<Link>,
    entries: &mut OrderedList<PrincipalEntry>,
    link: Link,
    p: Designation,
)
    requires kept { AreKept ⟦<PrincipalEntry as Ord>⟧.cmp links.old.items entries.old.items }
    requires there { principal_of links.old.items link.member ≡ Some link.principal }
    ensures kept { AreKept ⟦<PrincipalEntry as Ord>⟧.cmp links.new.items entries.new.items }
    ensures principals { IsGiven link.member p links.old.items links.new.items }
    ensures fewer { (s : Designation) → link.principal ≡ s → p ≢ s
        → count_by (has_principal s) links.new.items < count_by (has_principal s) links.old.items }
    ensures length { vec_len links.new ≡ vec_len links.old }
    ensures capacity { vec_capacity links.new ≡ vec_capacity links.old }
    ensures room { entries.new.room ≡ entries.old.room }
{
    let moved = Link {
        principal: p,
        member: link.member,
    };
    let from = place_of(links.as_slice(), link);
    let to = place_without(links.as_slice(), from, moved);
    move_to(links.as_mut_slice(), from, to, moved);
    entries.insert(PrincipalEntry {
        designation: link.member,
        principal: p,
    });
}

/// Gives each member of the principal `s` the principal `p`.
pub fn give_all(
    links: &mut Vec<Link>,
    entries: &mut OrderedList<PrincipalEntry>,
    p: Designation,
    s: Designation,
)
    requires kept { AreKept ⟦<PrincipalEntry as Ord>⟧.cmp links.old.items entries.old.items }
    requires two { p ≢ s }
    ensures kept { AreKept ⟦<PrincipalEntry as Ord>⟧.cmp links.new.items entries.new.items }
    ensures principals { ChangedBy (Joined p s) links.old.items links.new.items }
    ensures length { vec_len links.new ≡ vec_len links.old }
    ensures capacity { vec_capacity links.new ≡ vec_capacity links.old }
    ensures room { entries.new.room ≡ entries.old.room }
{
    'members: while let Some(link) = first_of(links.as_slice(), s) {
        give(links, entries, link, p);
    }
}
