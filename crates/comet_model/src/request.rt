//! Requests to the register, and their verbs.

ghost use Rattle.std.specs.Prelude.{◌≡◌};
ghost use Rattle.comet_model.specs.Requests.{verb_of, is_unknown, is_act};

use act_model::{Body, Key};

/// What a request to the register asks for.
#[derive(Clone, Copy, Debug, PartialEq, Eq)]
pub enum CometVerb {
    /// To give an object the name of a comet, by the word `comet`. It is an act.
    Comet,
    /// To ask for all comets with their objects, by the word `register`. It is a query.
    Register,
    /// To ask for a batch of 80-column lines in which designations stand in the place of comets' names, by the word
    /// `translate`. It is a query.
    Translate,
    /// A word that names nothing. It is no act.
    Unknown,
}

impl CometVerb {
    /// Whether the verb names nothing.
    pub fn is_unknown(self) -> bool
        ensures { result ≡ is_unknown self }
    {
        matches!(self, CometVerb::Unknown)
    }

    /// Whether the verb is that of an act. Any other is that of a query.
    pub fn is_act(self) -> bool
        ensures { result ≡ is_act self }
    {
        matches!(self, CometVerb::Comet)
    }
}

/// The verb that a word names, letter for letter; `Unknown` for any other word.
pub fn read_comet_verb(word: &[u8]) -> CometVerb
    ensures { result ≡ verb_of word.now }
{
    if word == b"comet".as_slice() {
        CometVerb::Comet
    } else if word == b"register".as_slice() {
        CometVerb::Register
    } else if word == b"translate".as_slice() {
        CometVerb::Translate
    } else {
        CometVerb::Unknown
    }
}

/// A request to the register: who asks, under which number of the asker's own, what is asked, and the text for it.
#[derive(Debug, Drop)]
pub struct CometRequest {
    /// The key of whoever asks.
    pub key: Key,
    /// The number, or None for a text that spells none. An act has one of 1 to 999,999,999,999,999,999.
    pub number: Option<u64>,
    /// What is asked.
    pub verb: CometVerb,
    /// The text for it.
    pub body: Body,
}
