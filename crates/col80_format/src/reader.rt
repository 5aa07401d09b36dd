//! The reader of a batch.

ghost use Rattle.std.specs.Prelude.{◌≡◌, ℕ, [], ◌++◌, List, length, take, IfOk, OnOk, OnErr};
ghost use Rattle.std.specs.List.{AllZip};
ghost use Rattle.text_lines.specs.Lines.{IsNumberable};
ghost use Rattle.obs_record.specs.Lines.{AreInRange};
ghost use Rattle.col80_format.specs.Batch.{observation_lines, IsReadFrom, lines_of};
ghost use Rattle.col80_format.specs.Feeding.{progress_of};

use crate::batch::{Seen, see_line, see_lines};
use crate::laws::below;
use item_list::{Bytes, NoMemory};
use obs_record::Lines;
use std::alloc::Global;
use std::marker::Model;
use text_lines::pieces::line_end;

/// The bytes of an observation line with its line feed.
const LINE_BYTES: usize = 81;

/// A reader of a batch that comes in pieces.
///
/// It keeps the last line, which isn't finished, the number of the next line, whether an observation line came, and the
/// lines that it read. It is seen as how far the batch was read; `progress_of` says which text came.
#[derive(Debug, Drop)]
pub struct EightyReader {
    alloc: Global,
    rest: Bytes,
    seen: Seen,
}

impl Model for EightyReader {
    ghost use Rattle.obs_record.specs.Lines.{AreInRange};
    ghost use Rattle.col80_format.specs.Feeding.{Progress, IsUnderWay};

    ghost Value = { Progress };

    ghost view = { λ r. record { rest = r.rest; seen = r.seen } };

    ghost invariant = { λ r. IsUnderWay (record { rest = r.rest; seen = r.seen }) × AreInRange r.seen.found };
}

impl EightyReader {
    /// A reader to which nothing was fed.
    ///
    /// # Errors
    ///
    /// Memory was refused.
    pub fn new(alloc: Global) -> Result<EightyReader, NoMemory>
        ensures { IfOk result (λ reader. reader ≡ progress_of []) }
    {
        text_lines::laws::lines();
        EightyReader::with_room(alloc, 0)
    }

    /// The same, with room for this many lines, so that their list isn't moved while they come.
    fn with_room(alloc: Global, lines: usize) -> Result<EightyReader, NoMemory>
        ensures { IfOk result (λ reader. reader ≡ progress_of []) }
    {
        text_lines::laws::lines();
        Ok(EightyReader {
            alloc,
            rest: Bytes::new(alloc),
            seen: Seen {
                next: 1,
                observed: false,
                found: Lines::with_capacity(alloc, lines)?,
            },
        })
    }

    /// Feeds the next piece of the batch. All pieces together have fewer than 4,294,967,295 bytes.
    ///
    /// Takes memory for the lines that the piece ends, and for the one that it leaves unfinished.
    ///
    /// # Errors
    ///
    /// Memory was refused; the reader is as it was, and the piece may be fed again.
    pub fn feed(&mut self, piece: &[u8]) -> Result<(), NoMemory>
        // All that was fed is short enough, this piece included.
        requires { (text : List ℕ) × (self.old ≡ progress_of text) × IsNumberable (text ++ piece.now) }
        // The piece follows what was fed before.
        ensures fed { (text : List ℕ) → self.old ≡ progress_of text
            → OnOk result (self.new ≡ progress_of (text ++ piece.now)) }
        ensures no_memory { OnErr result (self.new ≡ self.old) }
    {
        text_lines::laws::lines();
        let length = self.rest.len();
        let count = self.seen.found.len();
        let (next, observed) = (self.seen.next, self.seen.observed);
        match read_on(self.alloc, &mut self.rest, &mut self.seen, piece) {
            Ok(()) => Ok(()),
            Err(none) => {
                self.rest.truncate(length);
                self.seen.found.truncate(count);
                self.seen.next = next;
                self.seen.observed = observed;
                Err(none)
            }
        }
    }

    /// The observation lines of the batch that was fed, each with its number and what it says.
    ///
    /// Takes memory for the last line, where no line feed ends it.
    ///
    /// # Errors
    ///
    /// Memory was refused.
    pub fn finish(self) -> Result<Lines, NoMemory>
        ensures exact { (text : List ℕ) → self ≡ progress_of text → IfOk result (λ found. found ≡ lines_of text) }
        // Each observation line stands there in its place, with the reading of its columns.
        ensures lines { (text : List ℕ) → self ≡ progress_of text
            → IfOk result (λ found. AllZip IsReadFrom (observation_lines text) found) }
        ensures range { IfOk result AreInRange }
    {
        text_lines::laws::lines();
        below();
        let mut seen = self.seen;
        if !self.rest.is_empty() {
            see_line(&mut seen, self.rest.as_slice())?;
        }
        Ok(seen.found)
    }
}

/// Reads the lines that the piece ends, and keeps the rest of it. Where memory is refused, more may stand after what
/// was kept.
fn read_on(alloc: Global, rest: &mut Bytes, seen: &mut Seen, piece: &[u8]) -> Result<(), NoMemory>
    requires { (text : List ℕ) × (record { rest = rest.old; seen = seen.old } ≡ progress_of text)
        × IsNumberable (text ++ piece.now) }
    ensures progress { (text : List ℕ) → record { rest = rest.old; seen = seen.old } ≡ progress_of text
        → OnOk result (record { rest = rest.new; seen = seen.new } ≡ progress_of (text ++ piece.now)) }
    ensures rest { OnErr result (take (length rest.old) rest.new ≡ rest.old) }
    ensures found { OnErr result (take (length seen.old.found) seen.new.found ≡ seen.old.found) }
    ensures range { AreInRange seen.old.found → AreInRange seen.new.found }
{
    text_lines::laws::lines();
    let Some((end, after)) = line_end(piece) else {
        return rest.extend_from_slice(piece);
    };
    rest.extend_from_slice(end)?;
    see_lines(seen, rest.as_slice())?;
    let unfinished = see_lines(seen, after)?;
    *rest = Bytes::from_slice(alloc, unfinished)?;
    Ok(())
}

/// The observation lines of a whole batch, each with its number and what it says.
///
/// The batch is cut into lines at line feeds; a carriage return before a line feed belongs to it, and what stands after
/// the last line feed is a line where it isn't empty. Lines count from 1, all of them. Lines of blanks alone are passed
/// over, and so are header lines up to the first line that is neither; they begin with one of COD, CON, OBS, MEA, TEL,
/// NET, BND, COM, NUM, ACK and AC2, and a blank or the line's end follows. After the first observation line a line that
/// looks like a header line is an observation line, and breaks a rule.
///
/// The batch has fewer than 4,294,967,295 bytes. Takes memory for the list, at once for as many lines of 80 bytes as
/// the batch has room for.
///
/// # Errors
///
/// Memory was refused.
pub fn split_batch(alloc: Global, body: &[u8]) -> Result<Lines, NoMemory>
    requires { IsNumberable body.now }
    ensures exact { IfOk result (λ found. found ≡ lines_of body.now) }
    // Each observation line stands there in its place, with the reading of its columns.
    ensures lines { IfOk result (λ found. AllZip IsReadFrom (observation_lines body.now) found) }
    ensures range { IfOk result AreInRange }
{
    let mut reader = EightyReader::with_room(alloc, body.len() / LINE_BYTES)?;
    reader.feed(body)?;
    reader.finish()
}
