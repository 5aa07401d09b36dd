//! A mirror over a database in memory.

ghost use Rattle.std.specs.Prelude.{◌≡◌, ◌≢◌, ◌≤◌, None, Some, IfSome, IfOk, OnOk, OnErr};
ghost use Rattle.std.specs.List.{AllByRecursion};
ghost use Rattle.call_log.specs.Counts.{one_more, Rises};
ghost use Rattle.sqlite.specs.Held.{state};
ghost use Rattle.sqlite.specs.Steps.{over_memory};
ghost use Rattle.mirror_store.specs.Rows.{IsObjectRow, IsSightRow, AreReplaceable};
ghost use Rattle.mirror_store.specs.Mirrors.{between, IsReplaced, TellsObjects, TellsBetween};
ghost use Rattle.mirror_sqlite.specs.Holding.{no_rows};
ghost use Rattle.mirror_sqlite.specs.SqlMirrors.{tables, IsReady, lists_of};

use crate::faults::faults_after;
use crate::keeping::keep;
use crate::replacing::replace;
use crate::tables::empty_tables;
use crate::texts::{between, objects};
use mirror_store::{Mirror, MirrorErr, MirrorRows, ObjectRows, SightRows};
use obs_time::Instant;
use sqlite::{Connection, MemStore};
use std::alloc::Global;
use std::marker::Model;

/// A mirror over a database in memory, which its first call opens. A refusal there is that call's own.
#[derive(Drop)]
pub struct SqlMirror {
    alloc: Global,
    conn: Option<Connection<MemStore>>,
    faults: u64,
}

impl Model for SqlMirror {
    ghost use Rattle.std.specs.Prelude.{IfSome};
    ghost use Rattle.mirror_sqlite.specs.SqlMirrors.{SqlState, IsReady, lists_of};

    ghost Value = { SqlState };

    ghost view = { λ mirror. record { lists = lists_of mirror.conn; faults = mirror.faults } };

    ghost invariant = { λ mirror. IfSome mirror.conn IsReady };
}

impl SqlMirror {
    /// A mirror without rows.
    pub fn new(alloc: Global) -> SqlMirror
        ensures { result ≡ record { lists = no_rows; faults = 0 } }
    {
        SqlMirror {
            alloc,
            conn: None,
            faults: 0,
        }
    }
}

impl Mirror for SqlMirror {
    ghost told = { λ mirror. Some mirror.lists };

    ghost faults = { λ mirror. mirror.faults };

    fn replace(&mut self, rows: &MirrorRows) -> Result<(), MirrorErr>
        requires { AreReplaceable rows.now }
        ensures after { OnOk result (self.new ≡ record { lists = rows.now; faults = self.old.faults }) }
        ensures failed { result ≡ Err MirrorErr.Failed
            → self.new ≡ record self.old { faults = one_more self.old.faults } }
        ensures memory { result ≡ Err MirrorErr.NoMemory → self.new ≡ self.old }

        ensures replaced { OnOk result (IsReplaced (Some self.old.lists) (Some self.new.lists) rows.now) }
        ensures kept { OnErr result (Some self.new.lists ≡ Some self.old.lists) }
        ensures counts { self.old.faults ≤ self.new.faults }
        ensures cause { result ≡ Err MirrorErr.Failed → Rises self.old.faults self.new.faults }
        ensures faultless { result ≢ Err MirrorErr.Failed → self.new.faults ≡ self.old.faults }
    {
        let (conn, answer) = replaced(self.alloc, self.conn.take(), rows);
        keep(&mut self.conn, conn);
        self.faults = faults_after(self.faults, &answer);
        answer
    }

    fn objects(&mut self) -> Result<ObjectRows, MirrorErr>
        ensures given { IfOk result (λ rows. rows ≡ self.old.lists.objects) }
        ensures failed { result ≡ Err MirrorErr.Failed
            → self.new ≡ record self.old { faults = one_more self.old.faults } }
        ensures passed { result ≢ Err MirrorErr.Failed → self.new ≡ self.old }

        ensures objects { IfOk result (λ rows. TellsObjects (Some self.old.lists) rows) }
        ensures in_range { IfOk result (λ rows. AllByRecursion IsObjectRow rows) }
        ensures kept { Some self.new.lists ≡ Some self.old.lists }
        ensures counts { self.old.faults ≤ self.new.faults }
        ensures cause { result ≡ Err MirrorErr.Failed → Rises self.old.faults self.new.faults }
        ensures faultless { result ≢ Err MirrorErr.Failed → self.new.faults ≡ self.old.faults }
    {
        let (conn, answer) = listed(self.alloc, self.conn.take());
        keep(&mut self.conn, conn);
        self.faults = faults_after(self.faults, &answer);
        answer
    }

    fn between(&mut self, from: Instant, to: Instant) -> Result<SightRows, MirrorErr>
        ensures given { IfOk result (λ rows. rows ≡ between from to self.old.lists.sights) }
        ensures failed { result ≡ Err MirrorErr.Failed
            → self.new ≡ record self.old { faults = one_more self.old.faults } }
        ensures passed { result ≢ Err MirrorErr.Failed → self.new ≡ self.old }

        ensures sights { IfOk result (λ rows. TellsBetween (Some self.old.lists) from to rows) }
        ensures in_range { IfOk result (λ rows. AllByRecursion IsSightRow rows) }
        ensures kept { Some self.new.lists ≡ Some self.old.lists }
        ensures counts { self.old.faults ≤ self.new.faults }
        ensures cause { result ≡ Err MirrorErr.Failed → Rises self.old.faults self.new.faults }
        ensures faultless { result ≢ Err MirrorErr.Failed → self.new.faults ≡ self.old.faults }
    {
        let (conn, answer) = listed_between(self.alloc, self.conn.take(), from.ns(), to.ns());
        keep(&mut self.conn, conn);
        self.faults = faults_after(self.faults, &answer);
        answer
    }
}

/// The connection, which is opened where there is none yet.
fn opened(
    alloc: Global,
    conn: Option<Connection<MemStore>>,
) -> Result<Connection<MemStore>, MirrorErr>
    requires { IfSome conn IsReady }
    ensures ready { IfOk result IsReady }
    ensures same { IfOk result (λ made. tables (state over_memory made) ≡ lists_of conn) }
    ensures none { OnErr result (conn ≡ None) }
{
    match conn {
        Some(conn) => Ok(conn),
        None => empty_tables(alloc),
    }
}

/// The rows put in the place of all that were there, and the connection for the next call.
fn replaced(
    alloc: Global,
    conn: Option<Connection<MemStore>>,
    rows: &MirrorRows,
) -> (Option<Connection<MemStore>>, Result<(), MirrorErr>)
    requires ready { IfSome conn IsReady }
    requires rows { AreReplaceable rows.now }
    ensures ready { IfSome result.0 IsReady }
    ensures replaced { OnOk result.1 (lists_of result.0 ≡ rows.now) }
    ensures kept { OnErr result.1 (lists_of result.0 ≡ lists_of conn) }
{
    let mut current = match opened(alloc, conn) {
        Ok(current) => current,
        Err(error) => return (None, Err(error)),
    };
    let _settled = current.is_autocommit();
    let answer = replace(&mut current, rows);
    (Some(current), answer)
}

/// The objects, by place, and the connection for the next call.
fn listed(
    alloc: Global,
    conn: Option<Connection<MemStore>>,
) -> (Option<Connection<MemStore>>, Result<ObjectRows, MirrorErr>)
    requires { IfSome conn IsReady }
    ensures ready { IfSome result.0 IsReady }
    ensures kept { lists_of result.0 ≡ lists_of conn }
    ensures given { IfOk result.1 (λ rows. rows ≡ (lists_of conn).objects) }
    ensures in_range { IfOk result.1 (AllByRecursion IsObjectRow) }
{
    let mut current = match opened(alloc, conn) {
        Ok(current) => current,
        Err(error) => return (None, Err(error)),
    };
    let _settled = current.is_autocommit();
    let answer = objects(alloc, &mut current);
    (Some(current), answer)
}

/// The observations from the one moment on and before the other, by time, ties by id, and the connection for the next
/// call.
fn listed_between(
    alloc: Global,
    conn: Option<Connection<MemStore>>,
    from: i64,
    to: i64,
) -> (Option<Connection<MemStore>>, Result<SightRows, MirrorErr>)
    requires { IfSome conn IsReady }
    ensures ready { IfSome result.0 IsReady }
    ensures kept { lists_of result.0 ≡ lists_of conn }
    ensures given { IfOk result.1 (λ rows. rows ≡ between from to (lists_of conn).sights) }
    ensures in_range { IfOk result.1 (AllByRecursion IsSightRow) }
{
    let mut current = match opened(alloc, conn) {
        Ok(current) => current,
        Err(error) => return (None, Err(error)),
    };
    let _settled = current.is_autocommit();
    let answer = between(alloc, &mut current, from, to);
    (Some(current), answer)
}
