//! Offices that are opened, and what is told of them after turns of threads. The disk in memory, whose type makes each
//! proof that it stands in dear, stands in the smallest function.

ghost use Rattle.std.specs.Prelude.{◌≡◌, None};
ghost use Rattle.act_model.specs.Roster.{IsFounder};

use crate::running::{THREADS, run_threads, run_two};
use crate::turns::Turns;
use act_model::{Keeper, Key};
use disk_model::{Disk, MemDisk};
use intake_lock::TurnLock;
use mpc_desk::{ChainedDesk, Desk, PlainKeeper};
use std::alloc::Global;
use std::sync::Wait;
use std::thread::Threads;

/// The founding officer of each office.
pub(crate) fn founder() -> Key
    ensures { IsFounder result }
{
    Key::new(b"+founder-1")
}

/// A keeper that can settle its act in doubt.
trait Mend: Keeper {
    /// Settles it, where there is one; false where the disk failed.
    fn mend(&mut self) -> bool;
}

impl<D: Disk> Mend for ChainedDesk<D> {
    fn mend(&mut self) -> bool {
        ChainedDesk::mend(self).is_ok()
    }
}

/// The keeper without an act in doubt; None where the disk failed.
fn mended<V: Mend>(keeper: V) -> Option<V> {
    let mut keeper = keeper;
    if keeper.mend() { Some(keeper) } else { None }
}

/// What is told of a keeper after all threads were joined and its act in doubt was mended; None where memory was
/// refused or the disk failed.
fn told_of<V: Mend + Send, J: Turns + Sync, R: Threads + Wait + Sync>(
    rt: &R,
    alloc: Global,
    keeper: V,
    turns: &J,
) -> Option<J::Told>
    requires { (V.office keeper).state.doubt ≡ None }
{
    let Ok((lock, root)) = TurnLock::new(alloc, keeper) else {
        return None;
    };
    let (root, came) = run_threads(rt, alloc, &lock, root, THREADS, turns);
    let keeper = mended(lock.close(root))?;
    let came = came?;
    Some(turns.tell(alloc, &keeper, &came))
}

/// The same of the desk over these two disks that goes on without the first one.
fn told_over<D: Disk + Send, J: Turns + Sync, R: Threads + Wait + Sync>(
    rt: &R,
    alloc: Global,
    limit: u64,
    disk: D,
    second: D,
    turns: &J,
) -> Option<J::Told> {
    match Desk::open(alloc, founder(), limit, disk, second) {
        Ok(desk) => {
            let (_first, chained) = desk.apart();
            told_of(rt, alloc, chained, turns)
        }
        Err(_) => None,
    }
}

/// What is told of a desk after the turns of eight threads, on two empty disks in memory that have room for so many
/// bytes each, and of the second of which the calls with these numbers fail; None where memory was refused, or that
/// disk failed in opening or in the last mending.
pub fn told_of_desk<J: Turns + Sync, R: Threads + Wait + Sync>(
    rt: &R,
    alloc: Global,
    room: usize,
    fails: &[u64],
    turns: &J,
) -> Option<J::Told> {
    let disk = MemDisk::new(alloc, &[], room, &[]).ok()?;
    let second = MemDisk::new(alloc, &[], room, fails).ok()?;
    told_over(rt, alloc, room as u64, disk, second, turns)
}

/// What is told of a keeper after the turns of two threads; None where memory was refused.
fn told_of_two<K: Keeper + Send, J: Turns + Sync, R: Threads + Wait + Sync>(
    rt: &R,
    alloc: Global,
    keeper: K,
    turns: &J,
) -> Option<J::Told>
    requires { (K.office keeper).state.doubt ≡ None }
{
    let (keeper, one, other) = run_two(rt, alloc, keeper, turns)?;
    Some(turns.tell(alloc, &keeper, &[one, other]))
}

/// What is told of an office in memory alone after the turns of two threads; None where memory was refused.
pub fn told_of_office<J: Turns + Sync, R: Threads + Wait + Sync>(
    rt: &R,
    alloc: Global,
    turns: &J,
) -> Option<J::Told> {
    match PlainKeeper::new(alloc, founder()) {
        Ok(keeper) => told_of_two(rt, alloc, keeper, turns),
        Err(_) => None,
    }
}
