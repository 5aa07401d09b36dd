//! The catalogue of an office that was filled as the program's workload fills one: by its pages, and written out.

use act_model::{Body, Key, Request, Verb};
use item_list::Bytes;
use obs_time::Instant;
use std::alloc::Global;
use testkit_offices::{Kind, Office, Visit, visit_office};

/// 2025-01-01T00:00:00Z.
const YEAR: i64 = 1_735_689_600_000_000_000;

const STATION: &[u8] =
    b"{\"code\":\"703\",\"from\":\"1998-01-01\",\"name\":\"Catalina\",\"to\":\"2199-12-31\"}";

/// More pages than any catalogue here has.
const MOST_PAGES: u64 = 1_000;

/// More bytes than any of them has.
const ROOM: usize = 1_048_576;

/// The number of the generator after this one.
fn number_after(x: u64) -> u64 {
    x.wrapping_mul(6_364_136_223_846_793_005)
        .wrapping_add(1_442_695_040_888_963_407)
}

/// Hours, minutes and seconds in thousandths, or degrees, minutes and seconds in hundredths.
fn sexagesimal(alloc: Global, value: u64, unit: u64) -> Option<String> {
    let unit = unit.max(1);
    let (whole, part) = (value / unit, value % unit);
    let (hours, minutes, seconds) = (whole / 3_600, whole / 60 % 60, whole % 60);
    let text = if unit == 1_000 {
        format!(in alloc; "{hours:02} {minutes:02} {seconds:02}.{part:03}")
    } else {
        format!(in alloc; "{hours:02} {minutes:02} {seconds:02}.{part:02}")
    };
    text.ok()
}

/// A line of the object with this number, at a time in ten-thousandths of a day of 2024-01-01.
fn push_line(
    alloc: Global,
    body: &mut Bytes,
    object: u64,
    tracklet: &str,
    time: u64,
    position: &str,
) -> Option<()> {
    let (day, part) = ((time / 10_000).saturating_add(1), time % 10_000);
    let text = format!(in alloc;
        "     W{object:05}{tracklet}   2024 01 {day:02}.{part:04}  {position}                     703\n"
    ).ok()?;
    body.extend_from_slice(text.as_bytes()).ok()
}

/// The four lines of an object, by the number of the generator for it.
fn submission(alloc: Global, object: u64, x: u64) -> Option<Bytes> {
    let right_ascension = object.saturating_mul(4_096).saturating_add(x % 4_096);
    let declination = x / 4_096 % 28_800_000;
    let ra = sexagesimal(alloc, right_ascension, 1_000)?;
    let dec = sexagesimal(alloc, declination, 100)?;
    let position = format!(in alloc; "{ra}+{dec}").ok()?;
    let time = object.saturating_sub(1).saturating_mul(4);
    let mut body = Bytes::new(alloc);
    for (tracklet, later) in [("a", 0u64), ("a", 50), ("b", 5_000), ("b", 5_050)] {
        let time = time.saturating_add(later);
        push_line(alloc, &mut body, object, tracklet, time, position.as_str())?;
    }
    Some(body)
}

/// The request by which its two tracklets become one.
fn designation(alloc: Global, object: u64) -> Option<Bytes> {
    let second = object.saturating_mul(2);
    let first = second.saturating_sub(1);
    let text = format!(in alloc; "{{\"tracklets\":[{first},{second}]}}").ok()?;
    Bytes::from_slice(alloc, text.as_bytes()).ok()
}

/// Sends a request of the founder, which is taken; None where it isn't or memory was refused, here and below.
fn send<O: Office>(office: &mut O, number: u64, verb: Verb, body: Bytes) -> Option<()> {
    let request = Request {
        key: Key::new(b"+founder-1"),
        number: Some(number),
        verb,
        body: Body::Whole(body),
    };
    let (kind, _) = office.take(&request, Instant::new(YEAR)?);
    if kind == Kind::Ready { Some(()) } else { None }
}

/// Fills an office with so many objects.
fn fill<O: Office>(alloc: Global, office: &mut O, seed: u64, count: u64) -> Option<()> {
    let station = Bytes::from_slice(alloc, STATION).ok()?;
    send(office, 1, Verb::Station, station)?;
    let mut x = seed;
    for object in 1..=count {
        x = number_after(x);
        let number = object.saturating_mul(2);
        send(
            office,
            number,
            Verb::Submit80,
            submission(alloc, object, x)?,
        )?;
        let body = designation(alloc, object)?;
        send(office, number.saturating_add(1), Verb::Designate, body)?;
    }
    Some(())
}

/// What is told of a catalogue: how many pages were asked for, how many bytes the first of them had, the last one
/// before the end and the end, how many all have, how many `export` says, and whether it writes the same.
#[derive(Clone, Copy, Debug, PartialEq, Eq)]
struct Facts {
    pages: usize,
    first: usize,
    last: usize,
    end: usize,
    bytes: usize,
    written: u64,
    is_same: bool,
}

/// What is told of an office's catalogue.
fn told<O: Office>(alloc: Global, office: &O) -> Option<Facts> {
    let paged = office.pages(alloc, MOST_PAGES)?;
    let (written, bytes) = office.exported(alloc, ROOM)?;
    let counts = paged.counts.as_slice();
    let pages = counts.len();
    Some(Facts {
        pages,
        first: *counts.first()?,
        last: *counts.get(pages.checked_sub(2)?)?,
        end: *counts.get(pages.checked_sub(1)?)?,
        bytes: paged.bytes.len(),
        written,
        is_same: paged.bytes.as_slice() == bytes.as_slice(),
    })
}

/// An office of so many objects.
#[derive(Clone, Copy)]
struct Filled {
    seed: u64,
    count: u64,
}

impl Visit for Filled {
    type Told = Option<Facts>;

    fn visit<O: Office>(&self, alloc: Global, office: O) -> Option<Facts> {
        let mut office = office;
        fill(alloc, &mut office, self.seed, self.count)?;
        told(alloc, &office)
    }
}

/// The seed, how many objects there are, and what is told of their catalogue. It has 56 bytes at least of a head and a
/// tally, a line for each object, four of 81 bytes for its observations, and four bytes at its end.
const OFFICES: &[(u64, u64, Facts)] = &[
    (
        7,
        3,
        Facts {
            pages: 2,
            first: 1_170,
            last: 1_170,
            end: 0,
            bytes: 1_170,
            written: 1_170,
            is_same: true,
        },
    ),
    (
        7,
        2_000,
        Facts {
            pages: 181,
            first: 4_096,
            last: 2_620,
            end: 0,
            bytes: 735_804,
            written: 735_804,
            is_same: true,
        },
    ),
];

/// The first office of which something else is told, and what.
fn wrong_office(alloc: Global) -> Option<(u64, Option<Option<Facts>>)> {
    for &(seed, count, wanted) in OFFICES {
        let told = visit_office(alloc, &Filled { seed, count });
        if told != Some(Some(wanted)) {
            return Some((count, told));
        }
    }
    None
}

#[test]
fn catalogues_by_their_pages(rt: HostRuntime) {
    let wrong = wrong_office(rt.alloc());
    assert_eq!(rt; wrong, None);
}
