//! The lines of a batch, one after another.

ghost use Rattle.std.specs.Prelude.{◌≡◌, ◌+◌, ◌<◌, ◌≤◌, length, take, IfOk, OnOk, OnErr};
ghost use Rattle.text_lines.specs.Pieces.{complete_lines, unfinished};
ghost use Rattle.obs_record.specs.Lines.{AreInRange};
ghost use Rattle.col80_format.specs.Batch.{is_header_line, is_front_line, begins_with_word};
ghost use Rattle.col80_format.specs.Feeding.{seen_on, seen_all};

use crate::reading::read_line;
use ascii_text::blanks::are_blanks;
use item_list::NoMemory;
use obs_record::{Line, Lines};
use text_lines::lines::next_complete;

/// The words that header lines begin with.
const HEADER_WORDS: [[u8; 3]; 11] = [
    *b"COD", *b"CON", *b"OBS", *b"MEA", *b"TEL", *b"NET", *b"BND", *b"COM", *b"NUM", *b"ACK",
    *b"AC2",
];

/// What was seen of a batch so far.
#[derive(Debug, Drop)]
pub(crate) struct Seen {
    /// The number of the next line.
    pub(crate) next: u32,
    /// Whether an observation line was seen.
    pub(crate) observed: bool,
    /// The observation lines, with what they say.
    pub(crate) found: Lines,
}

/// Whether the line begins with the word, and a blank or the line's end follows.
fn begins_with_word(word: &[u8; 3], line: &[u8]) -> bool
    ensures { result ≡ begins_with_word word.now line.now }
{
    line.starts_with(word) && (line.len() == 3 || line[3] == b' ')
}

/// Whether the line is a header line.
#[tactic(auto, unfolding(crate::specs::Batch::is_header_line))]
fn is_header_line(line: &[u8]) -> bool
    ensures { result ≡ is_header_line line.now }
{
    HEADER_WORDS.iter().any(|word| begins_with_word(word, line))
}

/// Whether the line may stand before the observations: a blank line, or a header line.
fn is_front_line(line: &[u8]) -> bool
    ensures { result ≡ is_front_line line.now }
{
    are_blanks(line) || is_header_line(line)
}

/// Sees one more line, and reads it where it is an observation line.
#[tactic(auto, unfolding(crate::specs::Feeding::seen_on))]
pub(crate) fn see_line(seen: &mut Seen, line: &[u8]) -> Result<(), NoMemory>
    requires { seen.old.next < 4294967295 }
    ensures seen { OnOk result (seen.new ≡ seen_on seen.old line.now) }
    ensures no_memory { OnErr result (seen.new ≡ seen.old) }
    ensures range { AreInRange seen.old.found → AreInRange seen.new.found }
{
    let observed = seen.observed || !is_front_line(line);
    if observed && !are_blanks(line) {
        let number = seen.next;
        let read = read_line(line);
        seen.found.push(Line { number, read })?;
    }
    seen.observed = observed;
    seen.next += 1;
    Ok(())
}

/// Sees the lines of a text that line feeds end, and gives the rest of it.
pub(crate) fn see_lines<'a>(seen: &mut Seen, text: &'a [u8]) -> Result<&'a [u8], NoMemory>
    requires { length text.now + seen.old.next ≤ 4294967295 }
    ensures seen { OnOk result (seen.new ≡ seen_all seen.old (complete_lines text.now)) }
    ensures rest { IfOk result (λ rest. rest.now ≡ unfinished text.now) }
    ensures room { IfOk result (λ rest. length rest.now + seen.new.next ≤ length text.now + seen.old.next) }
    // What was read before stays.
    ensures kept { take (length seen.old.found) seen.new.found ≡ seen.old.found }
    ensures range { AreInRange seen.old.found → AreInRange seen.new.found }
{
    let mut rest = text;
    'lines: while let Some((line, after)) = next_complete(rest) {
        see_line(seen, line)?;
        rest = after;
    }
    Ok(rest)
}
