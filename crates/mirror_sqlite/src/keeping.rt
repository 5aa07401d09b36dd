//! A connection that is kept between two questions. All of this is over any store, since each call at a file's store,
//! and each way on which such a connection is let go, makes the proof of a function longer.

ghost use Rattle.std.specs.Prelude.{◌≡◌, false, None, IfSome, IfOk, OnOk};

use crate::faults::fault;
use crate::questions::Question;
use crate::tables::{make_objects, make_sights};
use crate::texts::compile_all;
use mirror_store::MirrorErr;
use sqlite::{Alter, Connection, Error};

/// What opens a connection.
pub(crate) trait Opening<S: Alter> {
    /// Opens it.
    fn open(&self) -> Result<Connection<S>, Error>;
}

/// Keeps this connection, or none, and lets go of the one that was kept.
pub(crate) fn keep<S: Alter + Drop>(place: &mut Option<Connection<S>>, conn: Option<Connection<S>>)
    ensures { place.new ≡ conn }
{
    *place = conn;
}

/// Makes both tables where they aren't there. Tables of other columns are refused, before anything is done to their
/// rows.
fn make_tables<S: Alter>(conn: &mut Connection<S>) -> Result<(), MirrorErr>
    ensures { OnOk result (conn.new.in_transaction ≡ false) }
{
    make_objects(conn)?;
    make_sights(conn)?;
    compile_all(conn)?;
    if conn.is_autocommit() {
        Ok(())
    } else {
        Err(MirrorErr::Failed)
    }
}

/// The connection, once both tables are there.
fn with_tables<S: Alter + Drop>(mut conn: Connection<S>) -> Result<Connection<S>, MirrorErr>
    ensures { IfOk result (λ conn. conn.in_transaction ≡ false) }
{
    match make_tables(&mut conn) {
        Ok(()) => Ok(conn),
        Err(error) => Err(error),
    }
}

/// A new connection, with both tables.
fn opened<S: Alter + Drop, O: Opening<S>>(opening: &O) -> Result<Connection<S>, MirrorErr>
    ensures { IfOk result (λ conn. conn.in_transaction ≡ false) }
{
    match opening.open() {
        Ok(conn) => with_tables(conn),
        Err(error) => Err(fault(error)),
    }
}

/// The connection that was kept, or a new one where there is none.
fn taken<S: Alter + Drop, O: Opening<S>>(
    place: &mut Option<Connection<S>>,
    opening: &O,
) -> Result<Connection<S>, MirrorErr>
    requires { IfSome place.old (λ conn. conn.in_transaction ≡ false) }
    ensures mode { IfOk result (λ conn. conn.in_transaction ≡ false) }
    ensures none { place.new ≡ None }
{
    match place.take() {
        Some(conn) => Ok(conn),
        None => opened(opening),
    }
}

/// The answer to a question. The connection is kept, and opened before where there is none.
pub(crate) fn asked<S: Alter + Drop, O: Opening<S>, Q: Question>(
    place: &mut Option<Connection<S>>,
    opening: &O,
    question: &Q,
) -> Result<Q::Answer, MirrorErr>
    requires may { Q.may_ask question.now }
    requires mode { IfSome place.old (λ conn. conn.in_transaction ≡ false) }
    ensures right { IfOk result (λ answer. Q.is_right answer) }
    ensures mode { IfSome place.new (λ conn. conn.in_transaction ≡ false) }
{
    let mut conn = taken(place, opening)?;
    let answer = question.ask(&mut conn);
    keep(place, Some(conn));
    answer
}
