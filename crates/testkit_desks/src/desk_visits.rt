//! Desks over disks in memory that are opened for tests and handed to them as any keeper of the office.

use crate::opening::founder;
use act_model::Keeper;
use disk_model::{Disk, MemDisk};
use mpc_desk::Desk;
use std::alloc::Global;

/// What is done with an office.
pub trait Visit {
    /// What is told of it.
    type Told;

    /// Does it.
    fn visit<K: Keeper>(&self, alloc: Global, keeper: K) -> Self::Told;
}

/// What a visit tells of a desk over these two disks.
fn visit_over<D: Disk, V: Visit>(
    alloc: Global,
    limit: u64,
    disk: D,
    second: D,
    visit: &V,
) -> Option<V::Told> {
    match Desk::open(alloc, founder(), limit, disk, second) {
        Ok(desk) => Some(visit.visit(alloc, desk)),
        Err(_) => None,
    }
}

/// What a visit tells of a desk whose journal may have so many bytes, on two empty disks in memory that have room for
/// `room` bytes each; None where memory was refused.
pub fn visit_desk<V: Visit>(alloc: Global, limit: u64, room: usize, visit: &V) -> Option<V::Told> {
    let disk = MemDisk::new(alloc, &[], room, &[]).ok()?;
    let second = MemDisk::new(alloc, &[], room, &[]).ok()?;
    visit_over(alloc, limit, disk, second, visit)
}
