//! Threads that are run, each with a pass of its own.

ghost use Rattle.std.specs.Prelude.{◌≡◌, ◌-◌, ◌<◌, None, IfOk, IfErr};
ghost use denote.Param.Send.{IsSend, IsSync};
ghost use Rattle.intake_lock.specs.Views.{stem, branch};
ghost use Rattle.testkit_desks.specs.Roots.{IsRootFor};

use crate::turns::Turns;
use act_model::Keeper;
use intake_lock::{Pass, TurnLock};
use std::alloc::Global;
use std::sync::Wait;
use std::thread::{Threads, join};

/// How many threads take turns at a desk.
pub const THREADS: u64 = 8;

/// Splits a branch off the root, where as many more may be split as threads are left.
fn split_root<V: Keeper>(lock: &TurnLock<V>, root: Pass, left: u64) -> Result<(Pass, Pass), Pass>
    requires lock { root.lock ≡ lock.now.id }
    requires some { 0 < left }
    requires root { IsRootFor left root.view.role }
    ensures stem { IfOk result (λ both. (both.0.lock ≡ root.lock) × (both.0.view ≡ stem root.view)) }
    ensures room { IfOk result (λ both. IsRootFor (left - 1) both.0.view.role) }
    ensures branch { IfOk result (λ both. (both.1.lock ≡ root.lock) × (both.1.view ≡ branch root.view)) }
    ensures back { IfErr result (λ same. same ≡ root) }
{
    lock.split(root)
}

/// These numbers with one more; None where there are none or memory was refused.
fn with(others: Option<Vec<u64>>, more: u64) -> Option<Vec<u64>> {
    let mut numbers = others?;
    numbers.push(more).ok()?;
    Some(numbers)
}

/// Runs so many threads, each with a branch of its own. What came of the turns of each, in the order of their numbers;
/// None where memory was refused.
pub(crate) fn run_threads<V: Keeper + Send, J: Turns + Sync, R: Threads + Wait + Sync>(
    rt: &R,
    alloc: Global,
    lock: &TurnLock<V>,
    root: Pass,
    left: u64,
    turns: &J,
) -> (Pass, Option<Vec<u64>>)
    requires lock { root.lock ≡ lock.now.id }
    requires root { IsRootFor left root.view.role }
    ensures { (result.0.lock ≡ root.lock) × (result.0.view.role ≡ root.view.role) }
{
    if left == 0 {
        return (root, Some(Vec::new(alloc)));
    }
    let (root, branch) = match split_root(lock, root, left) {
        Ok(both) => both,
        Err(same) => return (same, None),
    };
    let ((branch, came), (root, others)) = join(
        rt,
        move || -> (Pass, u64)
            requires { branch.lock ≡ lock.now.id }
            ensures { (result.0.lock ≡ branch.lock) × (result.0.view.role ≡ branch.view.role) }
        { turns.take(rt, alloc, lock, branch, left) },
        move || -> (Pass, Option<Vec<u64>>)
            requires { IsSync R.row × IsSync J.row × IsSend V.row × (0 < left) × (root.lock ≡ lock.now.id)
                × IsRootFor (left - 1) root.view.role }
            ensures { (result.0.lock ≡ root.lock) × (result.0.view.role ≡ root.view.role) }
        { run_threads(rt, alloc, lock, root, left - 1, turns) },
    );
    (lock.join(root, branch), with(others, came))
}

/// The keeper after two threads took their turns, the first with the root, the second with a branch; and what came of
/// those of each. None where memory was refused.
pub(crate) fn run_two<K: Keeper + Send, J: Turns + Sync, R: Threads + Wait + Sync>(
    rt: &R,
    alloc: Global,
    keeper: K,
    turns: &J,
) -> Option<(K, u64, u64)>
    requires { (K.office keeper).state.doubt ≡ None }
{
    let Ok((lock, root)) = TurnLock::new(alloc, keeper) else {
        return None;
    };
    let Ok((root, branch)) = lock.split(root) else {
        return None;
    };
    let shared = &lock;
    let ((root, one), (branch, other)) = join(
        rt,
        move || -> (Pass, u64)
            requires { root.lock ≡ shared.now.id }
            ensures { (result.0.lock ≡ root.lock) × (result.0.view.role ≡ root.view.role) }
        { turns.take(rt, alloc, shared, root, 1) },
        move || -> (Pass, u64)
            requires { branch.lock ≡ shared.now.id }
            ensures { (result.0.lock ≡ branch.lock) × (result.0.view.role ≡ branch.view.role) }
        { turns.take(rt, alloc, shared, branch, 2) },
    );
    let root = lock.join(root, branch);
    Some((lock.close(root), one, other))
}
