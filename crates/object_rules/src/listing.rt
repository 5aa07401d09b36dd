//! Lists of what an office has: the observations of a tracklet, the principal designations, and an object's
//! designations and live observations.

ghost use Rattle.std.specs.Prelude.{◌≡◌, ◌++◌, ◌∷◌, [], IfOk, OnOk, map};
ghost use Rattle.identify_core.specs.Acts.{members};
ghost use Rattle.identify_core.specs.Principals.{own_members};
ghost use Rattle.tracklet_file.specs.Observations.{observations_of};
ghost use Rattle.act_model.specs.Holdings.{holdings};
ghost use Rattle.act_model.specs.Designations.{links_of, principals};

use crate::chains::{first_in, next_in};
use crate::ledger::Ledger;
use act_model::Ids;
use identify_core::Link;
use item_list::{ItemList, NoMemory};
use packed_names::Designation;
use std::alloc::Global;
use tracklet_file::TrackletFile;

/// The numbers of a tracklet's observations in the file, in order, retracted ones included.
fn observations_of(alloc: Global, file: &TrackletFile, t: u64) -> Result<Ids, NoMemory>
    ensures { IfOk result (λ ids. ids ≡ observations_of file.now.observations t) }
{
    let mut ids = Ids::new(alloc);
    let mut next = first_in(file, t);
    while let Some(k) = next {
        ids.push(k)?;
        next = next_in(file, t, k);
    }
    Ok(ids)
}

/// The numbers of a tracklet's observations, in order, retracted ones included. Empty for a tracklet that isn't there.
///
/// # Errors
///
/// Memory was refused.
pub fn items<L: Ledger>(office: &L, alloc: Global, t: u64) -> Result<Ids, NoMemory>
    ensures { IfOk result (λ ids. ids ≡ observations_of (holdings (L.deeds office.now)).observations t) }
{
    observations_of(alloc, office.file(), t)
}

/// Adds the link's member, where it is its own principal.
fn push_own(names: &mut ItemList<Designation>, link: Link) -> Result<(), NoMemory>
    ensures { OnOk result (names.new ≡ names.old ++ own_members (link ∷ [])) }
{
    if link.is_own() {
        names.push(link.member)?;
    }
    Ok(())
}

/// The members of links that are their own principals.
fn own_members(alloc: Global, links: &[Link]) -> Result<ItemList<Designation>, NoMemory>
    ensures { IfOk result (λ names. names ≡ own_members links.now) }
{
    let mut names = ItemList::new(alloc);
    for link in links {
        push_own(&mut names, *link)?;
    }
    Ok(names)
}

/// The principal designations, in the order of designations.
///
/// # Errors
///
/// Memory was refused.
pub fn principals<L: Ledger>(office: &L, alloc: Global) -> Result<ItemList<Designation>, NoMemory>
    ensures { IfOk result (λ names. names ≡ principals (links_of (L.deeds office.now))) }
{
    own_members(alloc, office.links().as_slice())
}

/// The members of links.
fn members_in(alloc: Global, links: &[Link]) -> Result<ItemList<Designation>, NoMemory>
    ensures { IfOk result (λ names. names ≡ map (λ link. link.member) links.now) }
{
    let mut names = ItemList::new(alloc);
    for link in links {
        names.push(link.member)?;
    }
    Ok(names)
}

/// The designations of an object, in the order of designations, its principal designation among them. Empty for what is
/// no principal designation.
///
/// # Errors
///
/// Memory was refused.
pub fn members<L: Ledger>(
    office: &L,
    alloc: Global,
    p: Designation,
) -> Result<ItemList<Designation>, NoMemory>
    ensures { IfOk result (λ names. names ≡ members (links_of (L.deeds office.now)) p) }
{
    members_in(alloc, office.links().members(p))
}
