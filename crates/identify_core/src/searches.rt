//! Searches by halving: among links that are in order, and in the index of designations.

ghost use Rattle.std.specs.Prelude.{◌≡◌, ◌≢◌, ◌<◌, ◌≤◌, length, Some, IfSome, IfNone};
ghost use Rattle.std.specs.List.{prefix_len, remove};
ghost use Rattle.std.specs.Ordering.{eq_by_cmp, is_lt};
ghost use Rattle.packed_names.specs.declared.name.Designation.{Designation};
ghost use Rattle.packed_names.specs.Order.{designation_cmp};
ghost use Rattle.ordered_list.specs.Orders.{IsStrictlySorted, found};
ghost use Rattle.identify_core.specs.Principals.{principal_of};
ghost use Rattle.identify_core.specs.Keeping.{has_principal, is_below, link_cmp, place_in, run_of, EachOnce};
ghost use Rattle.identify_core.specs.Keeping.{entry_key, principal_by};

use crate::entry::PrincipalEntry;
use crate::link::Link;
use ordered_list::OrderedList;
use packed_names::Designation;

/// Whether two designations are the same.
pub fn is_same(one: Designation, other: Designation) -> bool
    ensures { result ≡ eq_by_cmp designation_cmp one other }
{
    one == other
}

/// The principal of a designation, by the index.
pub fn principal_of(entries: &OrderedList<PrincipalEntry>, d: Designation) -> Option<Designation>
    ensures { result ≡ principal_by (found ⟦<PrincipalEntry as Ord>⟧.cmp (entry_key d) entries.now.items) }
{
    let key = PrincipalEntry {
        designation: d,
        principal: d,
    };
    entries.find(&key).map(|entry| entry.principal)
}

/// Whether a designation comes before another one.
fn precedes(one: Designation, other: Designation) -> bool
    ensures { result ≡ is_lt (designation_cmp one other) }
{
    one.cmp(&other).is_lt()
}

/// Whether a link comes before another one.
fn is_before(one: Link, other: Link) -> bool
    ensures { result ≡ is_lt (link_cmp one other) }
{
    one.cmp(&other).is_lt()
}

/// The place of a link: how many come before it.
pub fn place_of(links: &[Link], link: Link) -> usize
    requires { IsStrictlySorted link_cmp links.now }
    ensures count { result ≡ place_in link links.now }
    ensures within { result ≤ length links.now }
{
    links.partition_point(|other| is_before(*other, link))
}

/// The place of a link among the others, once the one at a place is taken out.
pub fn place_without(links: &[Link], from: usize, link: Link) -> usize
    requires sorted { IsStrictlySorted link_cmp links.now }
    requires from { from < length links.now }
    ensures count { result ≡ place_in link (remove links.now from) }
    ensures within { result < length links.now }
{
    let place = place_of(links, link);
    if from < place { place - 1 } else { place }
}

/// How many links stand before those of a principal.
fn count_before(links: &[Link], p: Designation) -> usize
    requires { IsStrictlySorted link_cmp links.now }
    ensures count { result ≡ prefix_len (is_below p) links.now }
    ensures within { result ≤ length links.now }
{
    links.partition_point(|link| precedes(link.principal, p))
}

/// How many links of a principal stand at the front.
fn count_front(links: &[Link], p: Designation) -> usize
    ensures count { result ≡ prefix_len (has_principal p) links.now }
    ensures within { result ≤ length links.now }
{
    links.iter().take_while(|link| link.principal == p).count()
}

/// The links of a principal, which stand one after the other.
pub fn run_of(links: &[Link], p: Designation) -> &[Link]
    requires { IsStrictlySorted link_cmp links.now }
    ensures { result.now ≡ run_of p links.now }
{
    let (_, rest) = links.split_at(count_before(links, p));
    let (run, _) = rest.split_at(count_front(rest, p));
    run
}

/// The first link of a principal.
pub fn first_of(links: &[Link], p: Designation) -> Option<Link>
    requires sorted { IsStrictlySorted link_cmp links.now }
    requires once { EachOnce links.now }
    ensures principal { IfSome result (λ link. link.principal ≡ p) }
    ensures there { IfSome result (λ link. principal_of links.now link.member ≡ Some link.principal) }
    ensures none { IfNone result ((d : Designation) → principal_of links.now d ≢ Some p) }
{
    run_of(links, p).first().copied()
}
