//! What becomes of requests, kind by kind, with ample memory.
//!
//! All is over any office: the type of the office in memory makes each proof that it stands in dear.

use act_model::{Body, Key, Request, Text, Verb, line_feeds, reply_text};
use item_list::Bytes;
use obs_time::Instant;
use std::alloc::Global;
use testkit_offices::{Kind, Office, ReplayFault, Visit, visit_office};

/// A request, its body or None for one without room, and what it is answered.
#[derive(Clone, Copy)]
struct Case {
    key: &'static [u8],
    number: u64,
    verb: Verb,
    body: Option<&'static str>,
    kind: Kind,
    text: &'static str,
}

/// A moment of 2024.
const DAY: i64 = 1_711_929_600_000_000_000;

const FOUNDER: &[u8] = b"+founder-1";

const OBSERVER: &[u8] = b"observer-1";

const STATION: &str =
    "{\"code\":\"703\",\"from\":\"1998-01-01\",\"name\":\"Catalina\",\"to\":\"2199-12-31\"}";

const MODE: &str = "{\"kind\":\"mode\",\"letter\":\"C\",\"word\":\"CCD\"}";

const BAND: &str = "{\"kind\":\"band\",\"letter\":\"V\",\"word\":\"V\"}";

const ENROL: &str = "{\"key\":\"observer-1\",\"name\":\"Ann\",\"role\":\"observer\"}";

/// A name of 100 bytes.
const LONG_NAME: &str = concat!(
    "{\"key\":\"observer-2\",\"name\":\"",
    "abcdefghijklmnopqrstuvwxy",
    "abcdefghijklmnopqrstuvwxy",
    "abcdefghijklmnopqrstuvwxy",
    "abcdefghijklmnopqrstuvwxy",
    "\",\"role\":\"observer\"}",
);

/// Two lines of 80 columns that break no rule.
const LINES: &str = concat!(
    "     P10abcd  C2024 03 15.12345 06 12 34.56 +23 45 01.2          19.5 V      703\n",
    "     P10abcd  C2024 03 15.13345 06 12 34.56 +23 45 01.2          19.5 V      703\n",
);

/// What stands before and after the decimals of the day in a line of 80 columns.
const BEFORE: &str = "     P10abce  C2024 03 15.";

const BEHIND: &str = " 06 12 34.56 +23 45 01.2          19.5 V      703\n";

const RETRACT: &str = "{\"observation\":1}";

/// Eleven lines that are too short.
const SHORT_LINES: &str = concat!(
    "     P10abc1\n",
    "     P10abc2\n",
    "     P10abc3\n",
    "     P10abc4\n",
    "     P10abc5\n",
    "     P10abc6\n",
    "     P10abc7\n",
    "     P10abc8\n",
    "     P10abc9\n",
    "     P10abca\n",
    "     P10abcb\n",
);

const SHORT_ANSWER: &str = concat!(
    "refused 7 NoLine\n",
    "line 1 refused S1\n",
    "line 2 refused S1\n",
    "line 3 refused S1\n",
    "line 4 refused S1\n",
    "line 5 refused S1\n",
    "line 6 refused S1\n",
    "line 7 refused S1\n",
    "line 8 refused S1\n",
    "line 9 refused S1\n",
    "line 10 refused S1\n",
    "line 11 refused S1\n",
);

/// A batch of ADES in which a column stands twice.
const TWICE: &str = concat!(
    "# version=2017\n",
    "trkSub|mode|stn|obsTime|ra|dec|astCat|ra\n",
    "AAA1|CCD|703|2024-03-15T23:59:59Z|150.0|-5.5|Gaia3|150.0\n",
);

const OUT_OF_MEMORY: &str = "refused 17 NoMemory\n";

/// The office is set up; a batch comes, is sent again, and its number is used for others; then refusals.
const CASES: &[Case] = &[
    Case {
        key: FOUNDER,
        number: 1,
        verb: Verb::Station,
        body: Some(STATION),
        kind: Kind::Ready,
        text: "receipt 1\n",
    },
    Case {
        key: FOUNDER,
        number: 2,
        verb: Verb::Code,
        body: Some(MODE),
        kind: Kind::Ready,
        text: "receipt 2\n",
    },
    Case {
        key: FOUNDER,
        number: 3,
        verb: Verb::Code,
        body: Some(BAND),
        kind: Kind::Ready,
        text: "receipt 3\n",
    },
    Case {
        key: FOUNDER,
        number: 4,
        verb: Verb::Enrol,
        body: Some(ENROL),
        kind: Kind::Ready,
        text: "receipt 4\ncaller 1\n",
    },
    Case {
        key: FOUNDER,
        number: 5,
        verb: Verb::Enrol,
        body: Some(LONG_NAME),
        kind: Kind::Ready,
        text: "receipt 5\ncaller 2\n",
    },
    Case {
        key: OBSERVER,
        number: 1,
        verb: Verb::Submit80,
        body: Some(LINES),
        kind: Kind::Ready,
        text: "receipt 6\naccepted 2 refused 0\nline 1 obs 1 track 1\nline 2 obs 2 track 1\n",
    },
    Case {
        key: OBSERVER,
        number: 1,
        verb: Verb::Submit80,
        body: Some(LINES),
        kind: Kind::Kept,
        text: "receipt 6\naccepted 2 refused 0\nline 1 obs 1 track 1\nline 2 obs 2 track 1\n",
    },
    Case {
        key: OBSERVER,
        number: 1,
        verb: Verb::Submit80,
        body: Some(SHORT_LINES),
        kind: Kind::Kept,
        text: "refused 3 OtherRequest receipt 6\n",
    },
    Case {
        key: OBSERVER,
        number: 1,
        verb: Verb::SubmitPsv,
        body: Some(TWICE),
        kind: Kind::Kept,
        text: "refused 3 OtherRequest receipt 6\n",
    },
    Case {
        key: OBSERVER,
        number: 1,
        verb: Verb::Submit80,
        body: None,
        kind: Kind::Refused,
        text: OUT_OF_MEMORY,
    },
    Case {
        key: OBSERVER,
        number: 2,
        verb: Verb::Submit80,
        body: None,
        kind: Kind::Refused,
        text: OUT_OF_MEMORY,
    },
    Case {
        key: OBSERVER,
        number: 0,
        verb: Verb::Unknown,
        body: None,
        kind: Kind::Refused,
        text: OUT_OF_MEMORY,
    },
    Case {
        key: OBSERVER,
        number: 2,
        verb: Verb::Submit80,
        body: Some(SHORT_LINES),
        kind: Kind::Refused,
        text: SHORT_ANSWER,
    },
    Case {
        key: OBSERVER,
        number: 2,
        verb: Verb::SubmitPsv,
        body: Some(TWICE),
        kind: Kind::Refused,
        text: "refused 6 Header H5 line 2\n",
    },
    Case {
        key: OBSERVER,
        number: 2,
        verb: Verb::Enrol,
        body: Some(ENROL),
        kind: Kind::Refused,
        text: "refused 4 Role\n",
    },
    Case {
        key: FOUNDER,
        number: 6,
        verb: Verb::Enrol,
        body: Some(ENROL),
        kind: Kind::Refused,
        text: "refused 13 AlreadyThere\n",
    },
    Case {
        key: OBSERVER,
        number: 0,
        verb: Verb::Unknown,
        body: Some(LINES),
        kind: Kind::Refused,
        text: "refused 1 Unread verb\n",
    },
    Case {
        key: b"observer-2",
        number: 1,
        verb: Verb::Retract,
        body: Some(RETRACT),
        kind: Kind::Refused,
        text: "refused 4 Role\n",
    },
    Case {
        key: OBSERVER,
        number: 3,
        verb: Verb::Retract,
        body: Some(RETRACT),
        kind: Kind::Ready,
        text: "receipt 7\n",
    },
    Case {
        key: OBSERVER,
        number: 4,
        verb: Verb::Retract,
        body: Some(RETRACT),
        kind: Kind::Refused,
        text: "refused 11 AlreadyRetracted 1\n",
    },
    Case {
        key: OBSERVER,
        number: 0,
        verb: Verb::Tally,
        body: Some(""),
        kind: Kind::Refused,
        text: "entries 7\nisolated 1\nobjects 0\nretracted 1\naccepted 2\n",
    },
];

const FIRST: &str = "{\"key\":\"mars-0002\",\"name\":\"Bea\",\"role\":\"officer\"}";

const SECOND: &str = "{\"key\":\"venus-001\",\"name\":\"Cai\",\"role\":\"officer\"}";

/// The key is the front of the first one.
const THIRD: &str = "{\"key\":\"mars-000\",\"name\":\"Dan\",\"role\":\"officer\"}";

const FOURTH: &str = "{\"key\":\"earth-00001\",\"name\":\"Eve\",\"role\":\"observer\"}";

const MARS: &[u8] = b"mars-000";

const MARS_2: &[u8] = b"mars-0002";

const VENUS: &[u8] = b"venus-001";

/// Each officer enrols the next one, in an order that is not that of their keys; then each asks for the answer to its
/// own first act. Keys that are a little shorter or longer than one of the roster are nobody's.
const ROSTER: &[Case] = &[
    Case {
        key: FOUNDER,
        number: 1,
        verb: Verb::Enrol,
        body: Some(FIRST),
        kind: Kind::Ready,
        text: "receipt 1\ncaller 1\n",
    },
    Case {
        key: MARS_2,
        number: 1,
        verb: Verb::Enrol,
        body: Some(SECOND),
        kind: Kind::Ready,
        text: "receipt 2\ncaller 2\n",
    },
    Case {
        key: VENUS,
        number: 1,
        verb: Verb::Enrol,
        body: Some(THIRD),
        kind: Kind::Ready,
        text: "receipt 3\ncaller 3\n",
    },
    Case {
        key: MARS,
        number: 1,
        verb: Verb::Enrol,
        body: Some(FOURTH),
        kind: Kind::Ready,
        text: "receipt 4\ncaller 4\n",
    },
    Case {
        key: FOUNDER,
        number: 0,
        verb: Verb::Receipt,
        body: Some("1"),
        kind: Kind::Refused,
        text: "receipt 1\ncaller 1\n",
    },
    Case {
        key: MARS_2,
        number: 0,
        verb: Verb::Receipt,
        body: Some("1"),
        kind: Kind::Refused,
        text: "receipt 2\ncaller 2\n",
    },
    Case {
        key: VENUS,
        number: 0,
        verb: Verb::Receipt,
        body: Some("1"),
        kind: Kind::Refused,
        text: "receipt 3\ncaller 3\n",
    },
    Case {
        key: MARS,
        number: 0,
        verb: Verb::Receipt,
        body: Some("1"),
        kind: Kind::Refused,
        text: "receipt 4\ncaller 4\n",
    },
    Case {
        key: b"earth-00001",
        number: 0,
        verb: Verb::Receipt,
        body: Some("1"),
        kind: Kind::Refused,
        text: "refused 5 UnknownThing receipt 1\n",
    },
    Case {
        key: b"earth-00001",
        number: 1,
        verb: Verb::Enrol,
        body: Some(FIRST),
        kind: Kind::Refused,
        text: "refused 4 Role\n",
    },
    Case {
        key: MARS,
        number: 2,
        verb: Verb::Enrol,
        body: Some(FIRST),
        kind: Kind::Refused,
        text: "refused 13 AlreadyThere\n",
    },
    Case {
        key: VENUS,
        number: 2,
        verb: Verb::Enrol,
        body: Some(THIRD),
        kind: Kind::Refused,
        text: "refused 13 AlreadyThere\n",
    },
    Case {
        key: b"mars-00",
        number: 0,
        verb: Verb::Receipt,
        body: Some("1"),
        kind: Kind::Refused,
        text: "refused 2 UnknownKey\n",
    },
    Case {
        key: b"mars-00002",
        number: 0,
        verb: Verb::Receipt,
        body: Some("1"),
        kind: Kind::Refused,
        text: "refused 2 UnknownKey\n",
    },
];

fn body(alloc: Global, text: Option<&str>) -> Option<Body> {
    match text {
        Some(text) => Some(Body::Whole(Bytes::from_slice(alloc, text.as_bytes()).ok()?)),
        None => Some(Body::NoRoom),
    }
}

/// The request of a case.
fn request(alloc: Global, case: &Case) -> Option<Request> {
    Some(Request {
        key: Key::new(case.key),
        number: Some(case.number),
        verb: case.verb,
        body: body(alloc, case.body)?,
    })
}

/// The text of the answer, with its kind.
fn told<O: Office>(alloc: Global, office: &mut O, request: &Request) -> Option<(Kind, Text)> {
    let reading = Instant::new(DAY)?;
    let (kind, reply) = office.take(request, reading);
    Some((kind, reply_text(alloc, reply).ok()?))
}

/// Whether a request is answered as it must be.
fn holds<O: Office>(alloc: Global, office: &mut O, case: &Case) -> Option<bool> {
    let request = request(alloc, case)?;
    let (kind, text) = told(alloc, office, &request)?;
    Some(kind == case.kind && text.as_slice() == case.text.as_bytes())
}

/// The first of these cases that is answered otherwise, counted from 0; None where there is none.
fn wrong_of<O: Office>(alloc: Global, office: &mut O, cases: &[Case]) -> Option<usize> {
    for (place, case) in cases.iter().enumerate() {
        if holds(alloc, office, case) != Some(true) {
            return Some(place);
        }
    }
    None
}

/// The cases of an office's days.
fn days() -> &'static [Case] {
    CASES
}

/// The cases of the roster.
fn roster() -> &'static [Case] {
    ROSTER
}

/// The first of these cases that an office answers otherwise.
#[derive(Clone, Copy)]
struct WrongAnswer {
    cases: &'static [Case],
}

impl Visit for WrongAnswer {
    type Told = Option<usize>;

    fn visit<O: Office>(&self, alloc: Global, office: O) -> Option<usize> {
        let mut office = office;
        wrong_of(alloc, &mut office, self.cases)
    }
}

/// The first of these cases that a new office answers otherwise.
fn wrong_answer(alloc: Global, cases: &'static [Case]) -> Option<Option<usize>> {
    visit_office(alloc, &WrongAnswer { cases })
}

#[test]
fn answers_each_kind(rt: HostRuntime) {
    let wrong = wrong_answer(rt.alloc(), days());
    assert_eq!(rt; wrong, Some(None));
}

#[test]
fn hears_each_caller(rt: HostRuntime) {
    let wrong = wrong_answer(rt.alloc(), roster());
    assert_eq!(rt; wrong, Some(None));
}

/// A digit of a number.
fn digit(number: u32) -> u8 {
    (number % 10) as u8 + b'0'
}

/// Adds a line to a batch, a little later than the one before.
fn add_line(batch: &mut Bytes, line: u32) -> bool {
    let decimals = [
        b'2',
        digit(line / 1_000),
        digit(line / 100),
        digit(line / 10),
        digit(line),
    ];
    batch.extend_from_slice(BEFORE.as_bytes()).is_ok()
        && batch.extend_from_slice(&decimals).is_ok()
        && batch.extend_from_slice(BEHIND.as_bytes()).is_ok()
}

/// A batch of so many lines.
fn batch(alloc: Global, count: u32) -> Option<Bytes> {
    let mut bytes = Bytes::new(alloc);
    for line in 0..count {
        if !add_line(&mut bytes, line) {
            return None;
        }
    }
    Some(bytes)
}

/// A request with a batch of 1,001 lines.
fn long_request(alloc: Global) -> Option<Request> {
    Some(Request {
        key: Key::new(OBSERVER),
        number: Some(9),
        verb: Verb::Submit80,
        body: Body::Whole(batch(alloc, 1_001)?),
    })
}

/// Whether all 1,001 lines were accepted, after the two that stand.
fn is_long(text: &[u8]) -> bool {
    line_feeds(text) == 1_003
        && text.starts_with(b"receipt 8\naccepted 1001 refused 0\nline 1 obs 3 track 2\n")
        && text.ends_with(b"line 1000 obs 1002 track 2\nline 1001 obs 1003 track 2\n")
}

/// Whether a batch of 1,001 lines is accepted.
fn accepts_long<O: Office>(alloc: Global, office: &mut O) -> Option<bool> {
    let request = long_request(alloc)?;
    let (_, text) = told(alloc, office, &request)?;
    Some(is_long(text.as_slice()))
}

/// Whether an office accepts it after these cases; None where one of them is answered otherwise.
#[derive(Clone, Copy)]
struct TakesLong {
    cases: &'static [Case],
}

impl Visit for TakesLong {
    type Told = Option<bool>;

    fn visit<O: Office>(&self, alloc: Global, office: O) -> Option<bool> {
        let mut office = office;
        if wrong_of(alloc, &mut office, self.cases).is_some() {
            return None;
        }
        accepts_long(alloc, &mut office)
    }
}

/// Whether a new office accepts it after these cases.
fn takes_long(alloc: Global, cases: &'static [Case]) -> Option<bool> {
    visit_office(alloc, &TakesLong { cases })?
}

#[test]
fn takes_a_long_batch(rt: HostRuntime) {
    let taken = takes_long(rt.alloc(), days());
    assert_eq!(rt; taken, Some(true));
}

/// The caller, the number, the moment, the number of the verb and the body of an entry, and what becomes of it.
type Again = (u32, u64, i64, u8, &'static str, Result<(), ReplayFault>);

/// Entries one after the other. The ones that are not legal leave the office as it was.
const AGAIN: &[Again] = &[
    (1, 1, DAY, 4, LINES, Err(ReplayFault::NotLegal)),
    (0, 1, DAY, 1, ENROL, Ok(())),
    // The number was used, the moment is before the last entry's or no moment of the clock, nobody has the number of
    // the caller, the verb is no act's, and the body has no such members.
    (0, 1, DAY, 1, ENROL, Err(ReplayFault::NotLegal)),
    (0, 2, DAY - 1, 2, STATION, Err(ReplayFault::NotLegal)),
    (0, 2, i64::MAX, 2, STATION, Err(ReplayFault::NotLegal)),
    (2, 2, DAY, 2, STATION, Err(ReplayFault::NotLegal)),
    (0, 2, DAY, 0, STATION, Err(ReplayFault::NotLegal)),
    (0, 2, DAY, 2, MODE, Err(ReplayFault::NotLegal)),
    (0, 2, DAY, 2, STATION, Ok(())),
    // The lines have a band that is in no row, and a batch without a line that is accepted is no entry.
    (1, 1, DAY, 4, LINES, Err(ReplayFault::NotLegal)),
    (0, 3, DAY + 1, 3, BAND, Ok(())),
];

/// Whether an entry that is taken in again becomes what it must.
fn becomes<O: Office>(office: &mut O, again: &Again) -> bool {
    let &(caller, number, moment, verb, body, want) = again;
    office.replay(caller, number, moment, verb, body.as_bytes()) == want
}

/// The first of these entries that becomes something else, counted from 0; None where there is none.
fn wrong_entry<O: Office>(office: &mut O, entries: &[Again]) -> Option<usize> {
    for (place, again) in entries.iter().enumerate() {
        if !becomes(office, again) {
            return Some(place);
        }
    }
    None
}

/// The same, and how many entries the office has then.
#[derive(Clone, Copy)]
struct ComeAgain {
    entries: &'static [Again],
}

impl Visit for ComeAgain {
    type Told = (Option<usize>, u64);

    fn visit<O: Office>(&self, _alloc: Global, office: O) -> (Option<usize>, u64) {
        let mut office = office;
        let wrong = wrong_entry(&mut office, self.entries);
        (wrong, office.entries())
    }
}

/// The same in a new office.
fn come_again(alloc: Global, entries: &'static [Again]) -> Option<(Option<usize>, u64)> {
    visit_office(alloc, &ComeAgain { entries })
}

#[test]
fn takes_entries_in_again(rt: HostRuntime) {
    let came = come_again(rt.alloc(), AGAIN);
    assert_eq!(rt; came, Some((None, 3)));
}
