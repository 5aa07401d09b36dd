//! The two tables, made in a database that has none.

ghost use Rattle.std.specs.Prelude.{◌≡◌, [], false, IfOk, OnOk};
ghost use Rattle.sqlite.specs.Held.{state};
ghost use Rattle.sqlite.specs.State.{HasCleanDisk};
ghost use Rattle.sqlite.specs.Steps.{over_memory};
ghost use Rattle.mirror_sqlite.specs.Tables.{no_schema, object_schema, mirror_schema};
ghost use Rattle.mirror_sqlite.specs.Holding.{Holds, no_rows};

use crate::faults::fault;
use mirror_store::MirrorErr;
use sqlite::{Alter, Connection, MemStore};
use std::alloc::Global;

/// Makes the table of objects, where there is none.
///
/// # Errors
///
/// Those of the database.
pub fn make_objects<S: Alter>(conn: &mut Connection<S>) -> Result<(), MirrorErr>
    ensures { HasCleanDisk (state S.Store conn.new) → (state S.Store conn.old).now.schema ≡ no_schema
        → OnOk result (((state S.Store conn.new).now.schema ≡ object_schema)
        × ((state S.Store conn.new).now.trees 0 ≡ [])
        × ((state S.Store conn.new).in_transaction ≡ (state S.Store conn.old).in_transaction)) }
{
    let made = conn.execute(
        concat!(
            "CREATE TABLE IF NOT EXISTS object (place INTEGER PRIMARY KEY, principal TEXT NOT NULL UNIQUE, ",
            "number INTEGER NOT NULL, observations INTEGER NOT NULL) STRICT"
        ),
        &[],
    );
    match made {
        Ok(_) => Ok(()),
        Err(error) => Err(fault(error)),
    }
}

/// Makes the table of observations, where there is none.
///
/// # Errors
///
/// Those of the database.
pub fn make_sights<S: Alter>(conn: &mut Connection<S>) -> Result<(), MirrorErr>
    ensures { HasCleanDisk (state S.Store conn.new) → (state S.Store conn.old).now.schema ≡ object_schema
        → OnOk result (((state S.Store conn.new).now.schema ≡ mirror_schema)
        × ((state S.Store conn.new).now.trees 0 ≡ (state S.Store conn.old).now.trees 0)
        × ((state S.Store conn.new).now.trees 2 ≡ [])
        × ((state S.Store conn.new).in_transaction ≡ (state S.Store conn.old).in_transaction)) }
{
    let made = conn.execute(
        concat!(
            "CREATE TABLE IF NOT EXISTS sight (id INTEGER PRIMARY KEY, object TEXT NOT NULL, ",
            "time INTEGER NOT NULL, ra INTEGER NOT NULL, dec INTEGER NOT NULL, station TEXT NOT NULL) STRICT"
        ),
        &[],
    );
    match made {
        Ok(_) => Ok(()),
        Err(error) => Err(fault(error)),
    }
}

/// A database in memory with the two tables, which are empty. It takes memory.
///
/// # Errors
///
/// Those of the database.
pub fn empty_tables(alloc: Global) -> Result<Connection<MemStore>, MirrorErr>
    ensures empty { IfOk result (λ conn. Holds (state over_memory conn) no_rows) }
    ensures autocommit { IfOk result (λ conn. conn.in_transaction ≡ false) }
{
    let mut conn = match Connection::open_in_memory(alloc) {
        Ok(conn) => conn,
        Err(_) => return Err(MirrorErr::NoMemory),
    };
    make_objects(&mut conn)?;
    make_sights(&mut conn)?;
    Ok(conn)
}
