//! The reader of a batch.

ghost use Rattle.std.specs.Prelude.{◌≡◌, ℕ, List, [], Some, None, ◌+◌, ◌<◌, ◌≤◌, ◌++◌, length, take, IfOk, IfErr, OnOk};
ghost use Rattle.std.specs.Prelude.{OnErr, Ok, Err};
ghost use Rattle.text_lines.specs.Lines.{IsNumberable};
ghost use Rattle.text_lines.specs.Pieces.{unfinished};
ghost use Rattle.ades_psv.specs.declared.fault.PsvFault.TheVariants as faults;
ghost use Rattle.ades_psv.specs.Batch.{psv_lines_of, AreReadFrom, AreInRange};
ghost use Rattle.ades_psv.specs.Walking.{IsAnswer, Gives};
ghost use Rattle.ades_psv.specs.Feeding.{progress_of, read_on};
ghost use Rattle.ades_psv.specs.Feeding.{unfed, feed_piece, complete_fault, HasRoom, Feeds, lines_at_end};
ghost use Rattle.obs_record.specs.declared.rule.HeaderFault.{HeaderFault};

use crate::fault::PsvFault;
use crate::header::Place;
use crate::reading::reads_right;
use crate::walking::{Reached, ended};
use item_list::{Bytes, NoMemory};
use obs_record::{HeaderFault, Lines};
use std::alloc::Global;
use std::marker::Model;
use text_lines::laws;
use text_lines::pieces::line_end;

/// As many bytes as most data lines have at least, with their line feed.
const LINE_BYTES: usize = 64;

/// A reader of a batch that comes in pieces.
///
/// Lines are read as they come. Of the text the reader keeps the unfinished last line alone.
#[derive(Debug, Drop)]
pub struct PsvReader {
    alloc: Global,
    reached: Reached,
    /// What stands after the last line feed.
    rest: Bytes,
    /// The fault that was told.
    told: Option<(HeaderFault, u32)>,
}

impl Model for PsvReader {
    ghost use Rattle.std.specs.Prelude.{◌≡◌, None};
    ghost use Rattle.ades_psv.specs.Feeding.{Fed};

    ghost Value = { Fed };

    ghost use Rattle.ades_psv.specs.Feeding.{what_is_fed, IsUnderWay};

    ghost view = { λ r. what_is_fed r.reached r.rest r.told };

    ghost invariant = { λ r. r.told ≡ None → IsUnderWay r.reached r.rest };
}

/// Reads the lines that a piece ends, the first of which begins in the rest; what stands after the last line feed is
/// the rest from then on. Takes memory. After a fault the rest and what was found are those before with something
/// after.
fn read_piece(
    alloc: Global,
    reached: &mut Reached,
    rest: &mut Bytes,
    piece: &[u8],
) -> Result<(), PsvFault>
    requires alone { unfinished rest.old ≡ rest.old }
    requires room { reached.old.count + length rest.old + length piece.now < 4294967295 }
    ensures exact { Gives (λ _. progress_of reached.new rest.new) (read_on (progress_of reached.old rest.old)
        piece.now) result }
    ensures alone { OnOk result (unfinished rest.new ≡ rest.new) }
    ensures few { OnOk result (reached.new.count + length rest.new ≤ reached.old.count + length rest.old
        + length piece.now) }
    ensures kept_found { take (length reached.old.found) reached.new.found ≡ reached.old.found }
    ensures kept_rest { OnErr result (take (length rest.old) rest.new ≡ rest.old) }
    ensures range { AreInRange reached.old.found → AreInRange reached.new.found }
{
    laws::lines();
    let Some((front, behind)) = line_end(piece) else {
        rest.extend_from_slice(piece)?;
        return Ok(());
    };
    rest.extend_from_slice(front)?;
    reached.read_complete(alloc, rest.as_slice())?;
    let unfinished = reached.read_complete(alloc, behind)?;
    *rest = Bytes::from_slice(alloc, unfinished)?;
    Ok(())
}

impl PsvReader {
    /// A reader to which nothing was fed.
    ///
    /// # Errors
    ///
    /// Memory was refused.
    #[tactic(auto, using(crate::proofs::Readers::fed_nothing))]
    pub fn new(alloc: Global) -> Result<PsvReader, NoMemory>
        ensures exact { IfOk result (λ reader. reader ≡ unfed) }
        // No text came.
        ensures text { IfOk result (λ reader. reader ≡ feed_piece unfed []) }
    {
        laws::lines();
        PsvReader::with_room(alloc, 0)
    }

    /// The same, with room for this many lines, so that their list isn't moved while they come.
    #[tactic(auto, using(crate::proofs::Readers::fed_nothing))]
    fn with_room(alloc: Global, lines: usize) -> Result<PsvReader, NoMemory>
        ensures { IfOk result (λ reader. reader ≡ unfed) }
    {
        laws::lines();
        Ok(PsvReader {
            alloc,
            reached: Reached {
                place: Place::Opening,
                count: 0,
                found: Lines::with_capacity(alloc, lines)?,
            },
            rest: Bytes::new(alloc),
            told: None,
        })
    }

    /// Takes the next piece, as `feed` does.
    fn take(&mut self, piece: &[u8]) -> Result<(), PsvFault>
        requires { HasRoom self.old (length piece.now) }
        ensures exact { Feeds self.old piece.now self.new result }
        ensures room { OnOk result ((more : ℕ) → HasRoom self.old (length piece.now + more) → HasRoom self.new more) }
        ensures stays { IfErr self.old (λ fault. (result ≡ Err (faults.Header fault.0 fault.1))
            × (self.new ≡ self.old)) }
        ensures no_memory { result ≡ Err faults.NoMemory → self.new ≡ self.old }
    {
        if let Some((fault, line)) = self.told {
            return Err(PsvFault::Header { fault, line });
        }
        let before = (
            self.reached.place,
            self.reached.count,
            self.reached.found.len(),
        );
        let unfinished = self.rest.len();
        match read_piece(self.alloc, &mut self.reached, &mut self.rest, piece) {
            Ok(()) => Ok(()),
            Err(PsvFault::Header { fault, line }) => {
                self.told = Some((fault, line));
                Err(PsvFault::Header { fault, line })
            }
            Err(PsvFault::NoMemory) => {
                self.reached.place = before.0;
                self.reached.count = before.1;
                self.reached.found.truncate(before.2);
                self.rest.truncate(unfinished);
                Err(PsvFault::NoMemory)
            }
        }
    }

    /// Feeds the next piece of the batch.
    ///
    /// The answer is Header once a line with a fault of the headers is complete, that is, once its line feed was fed;
    /// the fault is the first of the batch. From then on the answer is the same, and the piece is let go. After
    /// NoMemory the reader is as it was, and the piece may be fed again. Where no fault was told, the complete lines so
    /// far, the bytes of the unfinished line and those of the piece are together fewer than 4,294,967,295, as they are
    /// where all pieces together have fewer bytes (`laws::room`). Takes memory for the lines that are read and for the
    /// unfinished line, and while a column header is tested, for its names.
    ///
    /// # Errors
    ///
    /// `Header` with the first fault of the headers and its line, and `NoMemory` where memory was refused.
    #[tactic(auto, using(crate::proofs::Readers::feeds_text))]
    pub fn feed(&mut self, piece: &[u8]) -> Result<(), PsvFault>
        requires { HasRoom self.old (length piece.now) }
        ensures exact { Feeds self.old piece.now self.new result }
        ensures room { OnOk result ((more : ℕ) → HasRoom self.old (length piece.now + more) → HasRoom self.new more) }
        // The piece stands after the text that came before, and no complete line breaks a rule of headers.
        ensures ok { (text : List ℕ) → self.old ≡ feed_piece unfed text
            → OnOk result ((self.new ≡ feed_piece unfed (text ++ piece.now))
            × (complete_fault (text ++ piece.now) ≡ None)) }
        // Header only where the complete lines of the text have a fault, and it is their first one.
        ensures header { (text : List ℕ) (fault : HeaderFault) (line : ℕ) → self.old ≡ feed_piece unfed text
            → result ≡ Err (faults.Header fault line)
            → (self.new ≡ feed_piece unfed (text ++ piece.now))
            × (complete_fault (text ++ piece.now) ≡ Some (fault, line)) }
        // A fault that was told is told again, and no memory is taken for it.
        ensures stays { IfErr self.old (λ fault. (result ≡ Err (faults.Header fault.0 fault.1))
            × (self.new ≡ self.old)) }
        ensures no_memory { result ≡ Err faults.NoMemory → self.new ≡ self.old }
    {
        laws::lines();
        self.take(piece)
    }

    /// What is said at the end, as `finish` says it.
    fn end(self) -> Result<Lines, PsvFault>
        ensures exact { IsAnswer (lines_at_end self) result }
        ensures told { IfErr self (λ fault. result ≡ Err (faults.Header fault.0 fault.1)) }
        ensures range { IfOk result AreInRange }
    {
        if let Some((fault, line)) = self.told {
            return Err(PsvFault::Header { fault, line });
        }
        let PsvReader {
            alloc,
            mut reached,
            rest,
            ..
        } = self;
        reached.read_last(alloc, rest.as_slice())?;
        ended(&reached.place, reached.count)?;
        Ok(reached.found)
    }

    /// The data lines of the batch that was fed, each with its number and what it says.
    ///
    /// The fault is the one that was told, or the first of the batch that wasn't told, since no line feed ends its line
    /// or since it is one of the whole batch: it has no line that isn't blank (H1, line 1), or it ends inside a header
    /// (H2, its last line). Takes memory for the last line.
    ///
    /// # Errors
    ///
    /// `Header` with the first fault of the headers and its line, and `NoMemory` where memory was refused.
    #[tactic(auto, using(crate::proofs::Readers::finish_text, crate::proofs::Readers::answer_lines))]
    pub fn finish(self) -> Result<Lines, PsvFault>
        ensures exact { IsAnswer (lines_at_end self) result }
        // The answer is what the text that was fed says.
        ensures text { (text : List ℕ) → self ≡ feed_piece unfed text → IsAnswer (psv_lines_of text) result }
        // Each data line stands there in its place, with the reading of its fields.
        ensures lines { (text : List ℕ) → self ≡ feed_piece unfed text → IfOk result (λ found. AreReadFrom text found) }
        ensures told { IfErr self (λ fault. result ≡ Err (faults.Header fault.0 fault.1)) }
        ensures range { IfOk result AreInRange }
    {
        laws::lines();
        reads_right();
        self.end()
    }
}

/// The data lines of a whole batch, each with its number and what it says; or the first fault of its headers.
///
/// The batch is cut into lines at line feeds; a carriage return before a line feed belongs to it, and what stands
/// after the last line feed is a line where it isn't empty. Lines count from 1, all of them. Lines of blanks alone are
/// passed over. The first other line is `# version=2017`; the lines of headers begin with `#` or `!`; the first line
/// below them is the column header, and data lines follow, up to the next line that begins with `#`. The batch has
/// fewer than 4,294,967,295 bytes. Takes memory for the list, at once for as many lines of 64 bytes as the batch has
/// room for.
///
/// # Errors
///
/// `Header` with the first fault of the headers and its line, and `NoMemory` where memory was refused.
pub fn read_psv(alloc: Global, body: &[u8]) -> Result<Lines, PsvFault>
    requires { IsNumberable body.now }
    ensures exact { IsAnswer (psv_lines_of body.now) result }
    // Each data line stands there in its place, with the reading of its fields.
    ensures lines { IfOk result (λ found. AreReadFrom body.now found) }
    ensures range { IfOk result AreInRange }
{
    laws::lines();
    let mut reader = PsvReader::with_room(alloc, body.len() / LINE_BYTES)?;
    reader.feed(body)?;
    reader.finish()
}
