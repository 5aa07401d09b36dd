//! The code rows in their two indexes.

ghost use Rattle.std.specs.Prelude.{◌≡◌, false, [], ◌∷◌, ◌++◌, map, IfOk};
ghost use Rattle.station_tables.specs.Codes.{word_of, letter_of, has_code};
ghost use Rattle.station_tables.specs.Indexed.{by_word, code_row, word_key};

use crate::keys::{LetterKey, WordKey, word_key};
use crate::kind::Kind;
use indexmap::IndexMap;
use item_list::NoMemory;
use obs_record::Short;

/// The word of each code row by its kind and letter, in the order in which the rows were entered.
pub(crate) type WordIndex = IndexMap<LetterKey, Short>;

/// The letter of each code row by its kind and word, in the same order.
pub(crate) type LetterIndex = IndexMap<WordKey, u8>;

/// A copy of the index of the words.
pub(crate) fn words_copied(words: &WordIndex) -> Result<WordIndex, NoMemory>
    ensures { IfOk result (λ copy. copy.entries ≡ words.now.entries) }
{
    words.clone()
}

/// A copy of the index of the letters.
pub(crate) fn letters_copied(letters: &LetterIndex) -> Result<LetterIndex, NoMemory>
    ensures { IfOk result (λ copy. copy.entries ≡ letters.now.entries) }
{
    letters.clone()
}

/// A copy of the index of the words with one more row at the end.
pub(crate) fn with_word(
    words: &WordIndex,
    kind: Kind,
    letter: u8,
    word: Short,
) -> Result<WordIndex, NoMemory>
    requires { has_code (map code_row words.now.entries) kind letter word ≡ false }
    ensures { IfOk result (λ longer. longer.entries ≡ words.now.entries
        ++ (record { kind = kind; letter = letter }, word) ∷ []) }
{
    let mut longer = words_copied(words)?;
    longer.insert(LetterKey { kind, letter }, word)?;
    Ok(longer)
}

/// A copy of the index of the letters with one more row at the end. The index of the words has the same rows.
pub(crate) fn with_letter(
    letters: &LetterIndex,
    words: &WordIndex,
    kind: Kind,
    letter: u8,
    word: Short,
) -> Result<LetterIndex, NoMemory>
    requires paired { letters.now.entries ≡ map by_word words.now.entries }
    requires apart { has_code (map code_row words.now.entries) kind letter word ≡ false }
    ensures { IfOk result (λ longer. longer.entries ≡ letters.now.entries ++ (word_key kind word, letter) ∷ []) }
{
    let mut longer = letters_copied(letters)?;
    longer.insert(word_key(kind, word), letter)?;
    Ok(longer)
}

/// The word of the first row of the kind that has the letter.
pub(crate) fn word_at(words: &WordIndex, kind: Kind, letter: u8) -> Option<Short>
    ensures { result ≡ word_of (map code_row words.now.entries) kind letter }
{
    words.get(&LetterKey { kind, letter }).copied()
}

/// The letter of the first row of the kind that has the word. The index of the words has the same rows.
pub(crate) fn letter_at(
    letters: &LetterIndex,
    words: &WordIndex,
    kind: Kind,
    word: Short,
) -> Option<u8>
    requires { letters.now.entries ≡ map by_word words.now.entries }
    ensures { result ≡ letter_of (map code_row words.now.entries) kind word }
{
    letters.get(&word_key(kind, word)).copied()
}
