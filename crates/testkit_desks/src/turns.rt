//! What threads do in their turns.

ghost use Rattle.std.specs.Prelude.{◌≡◌};

use act_model::Keeper;
use intake_lock::{Pass, TurnLock};
use std::alloc::Global;
use std::sync::Wait;

/// What threads do in their turns at an office, and what is told of it.
pub trait Turns {
    /// What is told of the office after all turns.
    type Told;

    /// All turns of a thread, which are counted from 1, and a number that tells what came of them.
    fn take<V: Keeper, R: Wait>(
        &self,
        rt: &R,
        alloc: Global,
        lock: &TurnLock<V>,
        pass: Pass,
        thread: u64,
    ) -> (Pass, u64)
        requires { pass.lock ≡ lock.now.id }
        ensures { (result.0.lock ≡ pass.lock) × (result.0.view.role ≡ pass.view.role) };

    /// What is told of the office after all turns, from what came of those of each thread.
    fn tell<K: Keeper>(&self, alloc: Global, keeper: &K, came: &[u64]) -> Self::Told;
}
