//! The tables of stations and codes.

ghost use Rattle.std.specs.Prelude.{◌≡◌, false, ◌≤ℤ◌, is_some, IfOk};
ghost use Rattle.std.specs.List.{list_any};
ghost use Rattle.station_tables.specs.Rows.{no_rows};
ghost use Rattle.station_tables.specs.Stations.{serving_of, overlaps, with_station_row};
ghost use Rattle.station_tables.specs.Codes.{has_letter, has_word, word_of, letter_of, has_code, with_code_row};

use crate::codes::{self, LetterIndex, WordIndex};
use crate::kind::Kind;
use crate::serving::Serving;
use crate::stations::{Row, StationRows};
use indexmap::IndexMap;
use item_list::NoMemory;
use obs_record::Short;
use std::alloc::Global;
use std::marker::Model;

/// For how many rows of each table the memory is taken at first.
const FIRST_ROOM: usize = 16;

/// The office's tables: the station rows and the code rows, each in the order in which officers entered them.
///
/// Days are counted from 1970-01-01, and are negative before it.
#[derive(Debug, Drop)]
pub struct Tables {
    stations: StationRows,
    words: WordIndex,
    letters: LetterIndex,
}

impl Model for Tables {
    ghost use Rattle.station_tables.specs.Rows.{TableRows};

    ghost Value = { TableRows };

    ghost use Rattle.station_tables.specs.Indexed.{rows_of, IsPaired};

    ghost view = { λ t. rows_of t.stations t.words.entries };

    ghost invariant = { λ t. IsPaired t.words.entries t.letters.entries };
}

impl Tables {
    /// Tables without rows.
    ///
    /// # Errors
    ///
    /// Memory was refused.
    pub fn new(alloc: Global) -> Result<Tables, NoMemory>
        ensures { IfOk result (λ tables. tables ≡ no_rows) }
    {
        Ok(Tables {
            stations: StationRows::new(alloc)?,
            words: IndexMap::with_capacity(alloc, FIRST_ROOM)?,
            letters: IndexMap::with_capacity(alloc, FIRST_ROOM)?,
        })
    }

    /// A copy of the tables with one more station row at the end: the code serves from the first day to the last, both
    /// included. The tables themselves stay as they are.
    ///
    /// # Errors
    ///
    /// Memory was refused.
    pub fn with_station(&self, code: [u8; 3], from: i32, to: i32) -> Result<Tables, NoMemory>
        requires forward { from ≤ℤ to }
        requires apart { overlaps self.now.stations code from to ≡ false }
        ensures { IfOk result (λ tables. tables ≡ with_station_row self.now
            (record { code = code; from = from; to = to })) }
    {
        Ok(Tables {
            stations: self.stations.with_row(Row { code, from, to })?,
            words: codes::words_copied(&self.words)?,
            letters: codes::letters_copied(&self.letters)?,
        })
    }

    /// A copy of the tables with one more code row at the end: the letter and the word stand for the same thing of the
    /// kind. The tables themselves stay as they are.
    ///
    /// # Errors
    ///
    /// Memory was refused.
    pub fn with_code(&self, kind: Kind, letter: u8, word: Short) -> Result<Tables, NoMemory>
        requires { has_code self.now.codes kind letter word ≡ false }
        ensures { IfOk result (λ tables. tables ≡ with_code_row self.now
            (record { kind = kind; letter = letter; word = word })) }
    {
        Ok(Tables {
            stations: self.stations.copied()?,
            words: codes::with_word(&self.words, kind, letter, word)?,
            letters: codes::with_letter(&self.letters, &self.words, kind, letter, word)?,
        })
    }

    /// Whether a row of the station code has a day in common with the days from the first to the last, both included.
    pub fn overlaps(&self, code: [u8; 3], from: i32, to: i32) -> bool
        ensures { result ≡ overlaps self.now.stations code from to }
    {
        self.stations.overlaps(code, from, to)
    }

    /// Whether a row of the kind has the letter or the word.
    pub fn has_code(&self, kind: Kind, letter: u8, word: Short) -> bool
        ensures { result ≡ has_code self.now.codes kind letter word }
    {
        self.word(kind, letter).is_some() || self.letter(kind, word).is_some()
    }

    /// How a station code stands on a day. The text is the code where it has 3 bytes and they are the code's.
    pub fn station(&self, code: Short, date: i32) -> Serving
        ensures { result ≡ serving_of self.now.stations code date }
    {
        self.stations.serving(code, date)
    }

    /// The word of the first row of the kind that has the letter. None exactly where no row of the kind has it.
    pub fn word(&self, kind: Kind, letter: u8) -> Option<Short>
        ensures first { result ≡ word_of self.now.codes kind letter }
        ensures found { is_some result ≡ list_any (has_letter kind letter) self.now.codes }
    {
        codes::word_at(&self.words, kind, letter)
    }

    /// The letter of the first row of the kind that has the word. None exactly where no row of the kind has it.
    pub fn letter(&self, kind: Kind, word: Short) -> Option<u8>
        ensures first { result ≡ letter_of self.now.codes kind word }
        ensures found { is_some result ≡ list_any (has_word kind word) self.now.codes }
    {
        codes::letter_at(&self.letters, &self.words, kind, word)
    }
}
