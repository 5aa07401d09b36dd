//! The readers that are measured.

ghost use Rattle.std.specs.Prelude.{◌≡◌, ◌<◌, ◌++◌, length, Some, IfSome, IfOk};
ghost use Rattle.ades_psv.specs.Batch.{psv_lines_of};
ghost use Rattle.ades_psv.specs.Walking.{IsAnswer};
ghost use Rattle.col80_format.specs.Batch.{lines_of};
ghost use Rattle.reader_bench.specs.declared.line_reader.LineReader.{LineReader};
ghost use Rattle.reader_bench.specs.Readers.{reader_name, AreReadBy};

use ades_psv::{PsvFault, PsvReader, laws, read_psv};
use col80_format::{EightyReader, split_batch};
use item_list::NoMemory;
use obs_record::Lines;
use std::alloc::Global;

/// How many bytes a piece has.
const PIECE: usize = 4_096;

/// A way to read a batch.
#[derive(Clone, Copy, Debug, PartialEq, Eq)]
pub(crate) enum LineReader {
    /// Lines of 80 columns, the batch whole.
    Columns,
    /// The same, fed in pieces.
    ColumnsInPieces,
    /// ADES in PSV form, the batch whole.
    Psv,
    /// The same, fed in pieces.
    PsvInPieces,
}

impl LineReader {
    /// The reader with this name.
    pub(crate) fn named(name: &str) -> Option<LineReader>
        ensures name { IfSome result (λ reader. name.now ≡ reader_name reader) }
        ensures all { (reader : LineReader) → name.now ≡ reader_name reader → result ≡ Some reader }
    {
        match name {
            "columns" => Some(LineReader::Columns),
            "columns-pieces" => Some(LineReader::ColumnsInPieces),
            "psv" => Some(LineReader::Psv),
            "psv-pieces" => Some(LineReader::PsvInPieces),
            _ => None,
        }
    }

    /// The lines of the batch, each with what it says.
    pub(crate) fn read(self, alloc: Global, batch: &[u8]) -> Result<Lines, PsvFault>
        requires { length batch.now < 4294967295 }
        ensures { IfOk result (AreReadBy self batch.now) }
    {
        let lines = match self {
            LineReader::Columns => split_batch(alloc, batch)?,
            LineReader::ColumnsInPieces => columns_in_pieces(alloc, batch)?,
            LineReader::Psv => read_psv(alloc, batch)?,
            LineReader::PsvInPieces => psv_in_pieces(alloc, batch)?,
        };
        Ok(lines)
    }
}

/// The piece at the front of a text that isn't empty, and what follows it.
fn cut_piece(text: &[u8]) -> (&[u8], &[u8])
    requires { 0 < length text.now }
    ensures parts { text.now ≡ result.0.now ++ result.1.now }
    ensures shorter { length result.1.now < length text.now }
{
    text.split_at(text.len().min(PIECE))
}

/// The lines of a batch of 80 columns that is fed in pieces.
fn columns_in_pieces(alloc: Global, batch: &[u8]) -> Result<Lines, NoMemory>
    requires { length batch.now < 4294967295 }
    // They are those of the whole batch.
    ensures { IfOk result (λ found. found ≡ lines_of batch.now) }
{
    let mut reader = EightyReader::new(alloc)?;
    let mut rest = batch;
    'pieces: while !rest.is_empty() {
        let (piece, after) = cut_piece(rest);
        reader.feed(piece)?;
        rest = after;
    }
    reader.finish()
}

/// The lines of a batch of ADES that is fed in pieces.
fn psv_in_pieces(alloc: Global, batch: &[u8]) -> Result<Lines, PsvFault>
    requires { length batch.now < 4294967295 }
    // They are those of the whole batch, or the first fault of its headers.
    ensures { IsAnswer (psv_lines_of batch.now) result }
{
    laws::faults_stay();
    let mut reader = PsvReader::new(alloc)?;
    let mut rest = batch;
    'pieces: while !rest.is_empty() {
        let (piece, after) = cut_piece(rest);
        reader.feed(piece)?;
        rest = after;
    }
    reader.finish()
}
