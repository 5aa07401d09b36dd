//! Trials of one mirror over a file, and of one connection to it.
//!
//! They are generic in both: a function that knows these large types, and lets one go at a `?`, takes a minute to
//! prove.

use mirror_sqlite::FileMirror;
use mirror_store::Mirror;
use sqlite::{Connection, Error, File, FileStore};
use std::alloc::Global;
use std::test::Fail;
use testkit_mirror::{
    EA_DAY, EA_LINE, EA_OBJECT, OBJECT, SUBMITTED, each_look, each_office, is_refused, look_to,
    looked, mirrored_after, ordinary, wrong_window,
};
use testkit_sessions::{Call, Wrong};

const FROM: &str = "2024-03-16";

const TO: &str = "2024-03-17";

/// A mirror over a file.
pub(crate) trait OverFile: Mirror {
    /// Copies what the log beside the file holds into the file, and closes both.
    fn close(self);
}

impl OverFile for FileMirror {
    fn close(self) {
        FileMirror::close(self)
    }
}

/// A connection to a database.
pub(crate) trait Database {
    /// Runs these statements.
    fn run(&mut self, text: &str) -> Result<(), Fail>;

    /// The number that this query gives.
    fn number(&mut self, query: &str) -> Result<i64, Fail>;

    /// Closes it.
    fn end(self) -> Result<(), Fail>;
}

impl Database for Connection<FileStore<File>> {
    fn run(&mut self, text: &str) -> Result<(), Fail> {
        self.execute_batch(text)?;
        Ok(())
    }

    fn number(&mut self, query: &str) -> Result<i64, Fail> {
        let number = self.query_row(query, &[])?.get::<i64>(0)?;
        Ok(number)
    }

    fn end(self) -> Result<(), Fail> {
        self.close()?;
        Ok(())
    }
}

/// Runs these statements one after another, and closes the connection.
pub(crate) fn run_each<C: Database + Drop>(
    conn: Result<C, Error>,
    texts: &[&str],
) -> Result<(), Fail> {
    let mut conn = conn?;
    for text in texts {
        conn.run(text)?;
    }
    conn.end()
}

/// The number that this query gives.
pub(crate) fn number_by<C: Database + Drop>(
    conn: Result<C, Error>,
    query: &str,
) -> Result<i64, Fail> {
    let mut conn = conn?;
    conn.number(query)
}

/// The sessions of every mirror.
pub(crate) fn each_session<M: OverFile>(alloc: Global, mut mirror: M) -> Result<(), Fail> {
    each_look(alloc, &mut mirror)?;
    each_office(alloc, &mut mirror)?;
    if wrong_window(alloc, &mut mirror)?.is_some() {
        return Err(Fail::new("another window"));
    }
    ordinary(alloc, &mut mirror)?;
    mirror.close();
    Ok(())
}

/// The mirror takes the rows of an object, and is let go without a close.
pub(crate) fn mirrored_once<M: Mirror>(alloc: Global, mut mirror: M) -> Result<(), Wrong> {
    let transcripts = &[SUBMITTED, OBJECT];
    mirrored_after(alloc, &mut mirror, transcripts, 7, EA_LINE, &EA_OBJECT, 0)
}

/// A call of `look` for one day ends as this one, and the mirror is closed.
pub(crate) fn looked_once<M: OverFile>(
    alloc: Global,
    mut mirror: M,
    wanted: &Call,
) -> Result<(), Wrong> {
    looked(alloc, &mut mirror, FROM, TO, wanted)?;
    mirror.close();
    Ok(())
}

/// Both commands are refused, and the mirror is closed.
pub(crate) fn refused_once<M: OverFile>(
    alloc: Global,
    mut mirror: M,
    mark: usize,
) -> Result<(), Wrong> {
    is_refused(alloc, &mut mirror, mark)?;
    mirror.close();
    Ok(())
}

/// The second mirror is refused the file as long as the first one has it, and finds it then.
pub(crate) fn in_turn<M: OverFile>(
    alloc: Global,
    mut first: M,
    mut second: M,
) -> Result<(), Wrong> {
    looked(alloc, &mut first, FROM, TO, &look_to(0, EA_DAY))?;
    is_refused(alloc, &mut second, 1)?;
    first.close();
    looked_once(alloc, second, &look_to(2, EA_DAY))
}
