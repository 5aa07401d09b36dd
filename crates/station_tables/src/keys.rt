//! What tells the rows of a table apart, by which the tables are indexed.

ghost use Rattle.std.specs.Prelude.{◌≡◌};
ghost use Rattle.station_tables.specs.Indexed.{word_key};

use crate::kind::Kind;
use obs_record::Short;

/// The code of a station.
#[derive(Clone, Copy, Debug, PartialEq, Eq, Hash)]
pub(crate) struct StationCode {
    pub(crate) code: [u8; 3],
}

/// The letter of a code row. No two rows of a kind have the same letter.
#[derive(Clone, Copy, Debug, PartialEq, Eq, Hash)]
pub(crate) struct LetterKey {
    pub(crate) kind: Kind,
    pub(crate) letter: u8,
}

/// The word of a code row, as a short text's length and bytes. No two rows of a kind have the same word.
#[derive(Clone, Copy, Debug, PartialEq, Eq, Hash)]
pub(crate) struct WordKey {
    pub(crate) kind: Kind,
    pub(crate) len: u8,
    pub(crate) bytes: [u8; 12],
}

/// The key of this word of this kind.
pub(crate) fn word_key(kind: Kind, word: Short) -> WordKey
    ensures { result ≡ word_key kind word }
{
    let bytes = word.bytes;
    WordKey {
        kind,
        len: word.len,
        bytes,
    }
}
