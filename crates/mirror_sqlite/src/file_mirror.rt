//! A mirror over a file.

ghost use Rattle.std.specs.Prelude.{◌≡◌, ◌≢◌, ◌≤◌, IfOk, OnOk, OnErr};
ghost use Rattle.std.specs.List.{AllByRecursion};
ghost use Rattle.call_log.specs.Counts.{one_more, Rises};
ghost use Rattle.mirror_store.specs.Rows.{IsObjectRow, IsSightRow, AreReplaceable};
ghost use Rattle.mirror_store.specs.Mirrors.{IsReplaced, TellsObjects, TellsBetween};
ghost use Rattle.mirror_sqlite.specs.FileMirrors.{no_rows_told};

use crate::faults::faults_after;
use crate::keeping::{Opening, asked};
use crate::questions::{Objects, Question, Replacing, Window};
use mirror_store::{Mirror, MirrorErr, MirrorRows, ObjectRows, SightRows};
use obs_time::Instant;
use sqlite::{Connection, Error, File, FileStore};
use std::marker::Model;
use std::rt::HostRuntime;

/// The file of the current folder in which the rows are kept.
const FILE: &str = "mirror.db";

/// A mirror over the file `mirror.db` of the current folder, which its first call opens, and makes where it isn't
/// there. A refusal there is that call's own, and the next call opens the file anew. As long as the mirror lives it
/// holds SQLite's exclusive lock of the file.
///
/// It tells nothing of its rows, and counts each error but out of memory as a fault. A row of the file that is out of
/// range is such an error.
#[derive(Drop)]
pub struct FileMirror {
    host: HostRuntime,
    conn: Option<Connection<FileStore<File>>>,
    faults: u64,
}

impl Model for FileMirror {
    ghost use Rattle.std.specs.Prelude.{◌≡◌, false, IfSome};
    ghost use Rattle.mirror_sqlite.specs.FileMirrors.{FileState};

    ghost Value = { FileState };

    ghost view = { λ mirror. record { faults = mirror.faults } };

    ghost invariant = { λ mirror. IfSome mirror.conn (λ conn. conn.in_transaction ≡ false) };
}

impl FileMirror {
    /// A mirror over the file, which isn't opened yet.
    pub fn new(host: HostRuntime) -> FileMirror
        ensures { result ≡ record { faults = 0 } }
    {
        FileMirror {
            host,
            conn: None,
            faults: 0,
        }
    }

    /// Copies what was committed from the log beside the file into the file, and closes both. Where that fails the log
    /// keeps it, and the next connection finds it there.
    pub fn close(self) {
        if let Some(conn) = self.conn {
            let _ = conn.close();
        }
    }

    // The answer to a question. It is the one call that asks at a file's store.
    fn ask<Q: Question>(&mut self, question: &Q) -> Result<Q::Answer, MirrorErr>
        requires { Q.may_ask question.now }
        ensures right { IfOk result (λ answer. Q.is_right answer) }
        ensures same { self.new ≡ self.old }
    {
        asked(&mut self.conn, &self.host, question)
    }
}

/// Opens the file.
impl Opening<FileStore<File>> for HostRuntime {
    fn open(&self) -> Result<Connection<FileStore<File>>, Error> {
        Connection::open(self, FILE)
    }
}

impl Mirror for FileMirror {
    ghost told = { λ _. no_rows_told };

    ghost faults = { λ mirror. mirror.faults };

    fn replace(&mut self, rows: &MirrorRows) -> Result<(), MirrorErr>
        requires { AreReplaceable rows.now }
        ensures failed { result ≡ Err MirrorErr.Failed → self.new ≡ record { faults = one_more self.old.faults } }
        ensures passed { result ≢ Err MirrorErr.Failed → self.new ≡ self.old }

        ensures replaced { OnOk result (IsReplaced no_rows_told no_rows_told rows.now) }
        ensures kept { OnErr result (no_rows_told ≡ no_rows_told) }
        ensures counts { self.old.faults ≤ self.new.faults }
        ensures cause { result ≡ Err MirrorErr.Failed → Rises self.old.faults self.new.faults }
        ensures faultless { result ≢ Err MirrorErr.Failed → self.new.faults ≡ self.old.faults }
    {
        let answer = self.ask(&Replacing { rows });
        self.faults = faults_after(self.faults, &answer);
        answer
    }

    fn objects(&mut self) -> Result<ObjectRows, MirrorErr>
        ensures failed { result ≡ Err MirrorErr.Failed → self.new ≡ record { faults = one_more self.old.faults } }
        ensures passed { result ≢ Err MirrorErr.Failed → self.new ≡ self.old }

        ensures objects { IfOk result (λ rows. TellsObjects no_rows_told rows) }
        ensures in_range { IfOk result (λ rows. AllByRecursion IsObjectRow rows) }
        ensures kept { no_rows_told ≡ no_rows_told }
        ensures counts { self.old.faults ≤ self.new.faults }
        ensures cause { result ≡ Err MirrorErr.Failed → Rises self.old.faults self.new.faults }
        ensures faultless { result ≢ Err MirrorErr.Failed → self.new.faults ≡ self.old.faults }
    {
        let alloc = self.host.alloc();
        let answer = self.ask(&Objects { alloc });
        self.faults = faults_after(self.faults, &answer);
        answer
    }

    fn between(&mut self, from: Instant, to: Instant) -> Result<SightRows, MirrorErr>
        ensures failed { result ≡ Err MirrorErr.Failed → self.new ≡ record { faults = one_more self.old.faults } }
        ensures passed { result ≢ Err MirrorErr.Failed → self.new ≡ self.old }

        ensures sights { IfOk result (λ rows. TellsBetween no_rows_told from to rows) }
        ensures in_range { IfOk result (λ rows. AllByRecursion IsSightRow rows) }
        ensures kept { no_rows_told ≡ no_rows_told }
        ensures counts { self.old.faults ≤ self.new.faults }
        ensures cause { result ≡ Err MirrorErr.Failed → Rises self.old.faults self.new.faults }
        ensures faultless { result ≢ Err MirrorErr.Failed → self.new.faults ≡ self.old.faults }
    {
        let (alloc, from, to) = (self.host.alloc(), from.ns(), to.ns());
        let answer = self.ask(&Window { alloc, from, to });
        self.faults = faults_after(self.faults, &answer);
        answer
    }
}
