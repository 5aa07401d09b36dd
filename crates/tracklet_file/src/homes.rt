//! The index of homes.

ghost use Rattle.std.specs.Prelude.{◌≡◌, ◌+◌, ◌<◌, ◌≤◌, ◌^◌, ◌&&◌, ◌||◌, not, IsSome, is_some, IsNone, is_none};
ghost use Rattle.std.specs.Prelude.{IfSome, IfOk, OnErr, if◌then◌else◌};
ghost use Rattle.ordered_list.specs.Orders.{found};
ghost use Rattle.tracklet_file.specs.Homes.{home_entry, is_entry, number_at};

use item_list::NoMemory;
use ordered_list::OrderedList;
use packed_names::Designation;
use std::alloc::AllocError;

/// A tracklet that was given to a designation, by the designation and then by its number.
///
/// Isolated tracklets have no entries. Nothing asks for them, and to give one to a designation would take its entry out
/// of the middle of very many.
#[derive(Clone, Copy, Debug, PartialEq, Eq, PartialOrd, Ord)]
pub struct HomeEntry {
    /// The designation that the tracklet was given to.
    pub home: Designation,
    /// The number of the tracklet.
    pub track: u64,
}

/// For how many more entries the index needs room: for this many more tracklets, and for each one that is isolated now
/// and may get a home without memory.
///
/// # Errors
///
/// They are 2^32 or more, which no index takes at once.
pub(crate) fn room_for(isolated: u64, tracks: u32) -> Result<u32, NoMemory>
    requires { isolated + 2 ^ 32 < 2 ^ 64 }
    ensures all { IfOk result (λ room. room ≡ isolated + tracks) }
    ensures too_many { OnErr result (2 ^ 32 ≤ isolated + tracks) }
{
    u32::try_from(isolated + tracks as u64).map_err(|_| AllocError)
}

/// Puts a tracklet into the index, where it has a home. It takes no memory.
pub(crate) fn enter(homes: &mut OrderedList<HomeEntry>, track: u64, home: Option<Designation>)
    requires { IsSome home → 0 < homes.old.room }
    ensures finds { (key : _) → is_some (found ⟦<HomeEntry as Ord>⟧.cmp key homes.new.items)
        ≡ (is_entry ⟦<HomeEntry as Ord>⟧.cmp key home track
        || is_some (found ⟦<HomeEntry as Ord>⟧.cmp key homes.old.items)) }
    ensures room { homes.old.room + (if is_none home then 1 else 0) ≤ homes.new.room + 1 }
    ensures no_more { homes.new.room ≤ homes.old.room }
{
    if let Some(home) = home {
        homes.insert(HomeEntry { home, track });
    }
}

/// Takes a tracklet out of the index, where it stands with its home. That leaves room for one more entry.
fn leave(homes: &mut OrderedList<HomeEntry>, track: u64, was: Option<Designation>)
    requires { IfSome was (λ d. IsSome (found ⟦<HomeEntry as Ord>⟧.cmp (home_entry d track) homes.old.items)) }
    ensures finds { (key : _) → is_some (found ⟦<HomeEntry as Ord>⟧.cmp key homes.new.items)
        ≡ (not (is_entry ⟦<HomeEntry as Ord>⟧.cmp key was track)
        && is_some (found ⟦<HomeEntry as Ord>⟧.cmp key homes.old.items)) }
    ensures room { homes.new.room + (if is_none was then 1 else 0) ≡ homes.old.room + 1 }
{
    if let Some(home) = was {
        let _ = homes.remove(&HomeEntry { home, track });
    }
}

/// Gives a tracklet another home in the index, where it stands with the home that it had. It takes no memory.
pub(crate) fn rehome(
    homes: &mut OrderedList<HomeEntry>,
    track: u64,
    was: Option<Designation>,
    home: Option<Designation>,
)
    requires there { IfSome was
        (λ d. IsSome (found ⟦<HomeEntry as Ord>⟧.cmp (home_entry d track) homes.old.items)) }
    requires room { IsNone was → 0 < homes.old.room }
    ensures finds { (key : _) → is_some (found ⟦<HomeEntry as Ord>⟧.cmp key homes.new.items)
        ≡ (is_entry ⟦<HomeEntry as Ord>⟧.cmp key home track
        || (not (is_entry ⟦<HomeEntry as Ord>⟧.cmp key was track)
        && is_some (found ⟦<HomeEntry as Ord>⟧.cmp key homes.old.items))) }
    ensures room { homes.old.room + (if is_none home then 1 else 0) ≤ homes.new.room + (if is_none was then 1 else 0) }
    ensures no_more { homes.new.room + (if is_none was then 1 else 0) ≤ homes.old.room + 1 }
{
    leave(homes, track, was);
    enter(homes, track, home);
}

/// The tracklet's number, where the entry is one of the designation.
pub(crate) fn number_at(d: Designation, entry: Option<HomeEntry>) -> Option<u64>
    ensures { result ≡ number_at d entry }
{
    match entry {
        Some(entry) if entry.home == d => Some(entry.track),
        _ => None,
    }
}
