//! Errors of the database as those of the mirror.

ghost use Rattle.std.specs.Prelude.{◌≡◌, ◌≢◌};
ghost use Rattle.call_log.specs.Counts.{one_more};
ghost use Rattle.mirror_sqlite.specs.Faults.{fault_of};

use mirror_store::MirrorErr;
use sqlite::{Error, ErrorCode};

/// What the mirror answers where the database answers this: out of memory, or else that it failed.
pub fn fault(error: Error) -> MirrorErr
    ensures { result ≡ fault_of error }
{
    match error {
        Error::SqliteFailure(ErrorCode::OutOfMemory) => MirrorErr::NoMemory,
        _ => MirrorErr::Failed,
    }
}

/// The count of faults after a call with this answer.
pub fn faults_after<T>(faults: u64, answer: &Result<T, MirrorErr>) -> u64
    ensures failed { answer.now ≡ Err MirrorErr.Failed → result ≡ one_more faults }
    ensures passed { answer.now ≢ Err MirrorErr.Failed → result ≡ faults }
{
    match answer {
        Err(MirrorErr::Failed) => faults.saturating_add(1),
        Err(MirrorErr::NoMemory) | Ok(_) => faults,
    }
}
