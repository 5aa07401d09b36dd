//! Requests and their verbs.

ghost use Rattle.std.specs.Prelude.{◌≡◌, ◌≤◌, length};
ghost use Rattle.act_model.specs.Requests.{verb_of, is_unknown, is_act, is_officers, verb_code, same_verb, line_feeds};
ghost use Rattle.act_model.specs.Step.{is_resend};

use crate::entry::Entry;
use act_bodies::Key;
use read_ahead::Body;

/// The most bytes that the body of a request may have.
pub const BODY_BYTES: u64 = 1_048_576;

/// The most line feeds that the body of a request may have.
pub const BODY_LINES: u64 = 10_000;

/// What a request asks for.
#[derive(Clone, Copy, Debug, PartialEq, Eq)]
pub enum Verb {
    /// To put an observer or an officer on the roster, by the word `enrol`. It is an act of officers.
    Enrol,
    /// To enter a station and the days on which it serves, by the word `station`. It is an act of officers.
    Station,
    /// To enter a letter and a word for a catalogue, a band or a mode, by the word `code`. It is an act of officers.
    Code,
    /// To take in a batch of 80-column lines, by the word `submit80`. It is an act.
    Submit80,
    /// To take in a batch of ADES in PSV form, by the word `submitpsv`. It is an act.
    SubmitPsv,
    /// To make tracklets an object with a new designation, by the word `designate`. It is an act of officers.
    Designate,
    /// To add a tracklet to an object, by the word `attribute`. It is an act of officers.
    Attribute,
    /// To take a tracklet out of its object, by the word `release`. It is an act of officers.
    Release,
    /// To make two objects one, by the word `identify`. It is an act of officers.
    Identify,
    /// To make a secondary designation an object of its own again, by the word `separate`. It is an act of officers.
    Separate,
    /// To enter how well an object's orbit is known, by the word `verdict`. It is an act of officers.
    Verdict,
    /// To number objects whose orbits are known well, by the word `number`. It is an act of officers.
    Number,
    /// To retract an observation, by the word `retract`. It is an act.
    Retract,
    /// To take over a half-month in which designations were given elsewhere, by the word `opening`. It is an act of
    /// officers.
    Opening,
    /// To ask for the answer of an earlier act, by the word `receipt`. It is a query.
    Receipt,
    /// To ask how many entries and observations the office has, by the word `tally`. It is a query.
    Tally,
    /// To ask what the office has of an object, by the word `object`. It is a query.
    Object,
    /// To ask what the office has of a tracklet, by the word `tracklet`. It is a query.
    Tracklet,
    /// To ask for the isolated tracklets, by the word `isolated`. It is a query.
    Isolated,
    /// To ask how many designations a half-month has, by the word `halfmonth`. It is a query.
    HalfMonth,
    /// To ask for both forms of a name and whose it is, by the word `name`. It is a query.
    Name,
    /// To ask for the catalogue, by the word `catalogue`. It is a query.
    Catalogue,
    /// A word that names nothing. It is no act.
    Unknown,
}

impl Verb {
    /// Whether the verb names nothing.
    pub fn is_unknown(self) -> bool
        ensures { result ≡ is_unknown self }
    {
        matches!(self, Verb::Unknown)
    }

    /// Whether the verb is that of an act. Any other is that of a query.
    pub fn is_act(self) -> bool
        ensures { result ≡ is_act self }
    {
        self.code() > 0
    }

    /// Whether the verb is one of officers alone.
    pub fn is_officers(self) -> bool
        ensures { result ≡ is_officers self }
    {
        matches!(
            self,
            Verb::Enrol
                | Verb::Station
                | Verb::Code
                | Verb::Designate
                | Verb::Attribute
                | Verb::Release
                | Verb::Identify
                | Verb::Separate
                | Verb::Verdict
                | Verb::Number
                | Verb::Opening
        )
    }

    /// The number of the verb of an act, 1 to 14, and 0 for no act.
    pub fn code(self) -> u8
        ensures { result ≡ verb_code self }
    {
        match self {
            Verb::Enrol => 1,
            Verb::Station => 2,
            Verb::Code => 3,
            Verb::Submit80 => 4,
            Verb::SubmitPsv => 5,
            Verb::Designate => 6,
            Verb::Attribute => 7,
            Verb::Release => 8,
            Verb::Identify => 9,
            Verb::Separate => 10,
            Verb::Verdict => 11,
            Verb::Number => 12,
            Verb::Retract => 13,
            Verb::Opening => 14,
            _ => 0,
        }
    }
}

/// The verb that a word names, letter for letter; `Unknown` for any other word.
pub fn read_verb(word: &[u8]) -> Verb
    ensures { result ≡ verb_of word.now }
{
    if word == b"enrol".as_slice() {
        Verb::Enrol
    } else if word == b"station".as_slice() {
        Verb::Station
    } else if word == b"code".as_slice() {
        Verb::Code
    } else if word == b"submit80".as_slice() {
        Verb::Submit80
    } else if word == b"submitpsv".as_slice() {
        Verb::SubmitPsv
    } else if word == b"designate".as_slice() {
        Verb::Designate
    } else if word == b"attribute".as_slice() {
        Verb::Attribute
    } else if word == b"release".as_slice() {
        Verb::Release
    } else if word == b"identify".as_slice() {
        Verb::Identify
    } else if word == b"separate".as_slice() {
        Verb::Separate
    } else if word == b"verdict".as_slice() {
        Verb::Verdict
    } else if word == b"number".as_slice() {
        Verb::Number
    } else if word == b"retract".as_slice() {
        Verb::Retract
    } else if word == b"opening".as_slice() {
        Verb::Opening
    } else if word == b"receipt".as_slice() {
        Verb::Receipt
    } else if word == b"tally".as_slice() {
        Verb::Tally
    } else if word == b"object".as_slice() {
        Verb::Object
    } else if word == b"tracklet".as_slice() {
        Verb::Tracklet
    } else if word == b"isolated".as_slice() {
        Verb::Isolated
    } else if word == b"halfmonth".as_slice() {
        Verb::HalfMonth
    } else if word == b"name".as_slice() {
        Verb::Name
    } else if word == b"catalogue".as_slice() {
        Verb::Catalogue
    } else {
        Verb::Unknown
    }
}

/// How many bytes are counted in one go: few enough that their count fits in a byte, so that many are compared at a
/// time.
const COUNTED_BYTES: usize = 192;

// How many line feeds there are among a few bytes.
#[tactic(auto, unfolding(crate::specs::Requests::line_feeds))]
fn line_feeds_among(bytes: &[u8]) -> u8
    requires { length bytes.now ≤ 255 }
    ensures { result ≡ line_feeds bytes.now }
{
    let mut feeds = 0;
    for byte in bytes {
        if *byte == b'\n' {
            feeds += 1;
        }
    }
    feeds
}

/// How many line feeds a body has.
pub fn line_feeds(bytes: &[u8]) -> u64
    ensures { result ≡ line_feeds bytes.now }
{
    let mut feeds = 0;
    let mut left = bytes;
    while left.len() > COUNTED_BYTES {
        let (front, rest) = left.split_at(COUNTED_BYTES);
        feeds += u64::from(line_feeds_among(front));
        left = rest;
    }
    feeds + u64::from(line_feeds_among(left))
}

/// A request: who asks, under which number of the asker's own, what is asked, and the text for it.
#[derive(Debug, Drop)]
pub struct Request {
    /// The key of whoever asks.
    pub key: Key,
    /// The number, or None for a text that spells none. An act has one of 1 to
    /// 999,999,999,999,999,999.
    pub number: Option<u64>,
    /// What is asked.
    pub verb: Verb,
    /// The text for it.
    pub body: Body,
}

fn same_verb(a: Verb, b: Verb) -> bool
    ensures { result ≡ same_verb a b }
{
    a.code() == b.code()
}

/// Whether the request of this verb and this body is the one that became the entry: its verb and its body
/// are the same.
pub fn is_resend(verb: Verb, body: &[u8], entry: &Entry) -> bool
    ensures { result ≡ is_resend verb body.now entry.now }
{
    same_verb(verb, entry.verb) && body == entry.body.as_slice()
}
