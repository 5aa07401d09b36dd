//! An office with three objects of the first half of March 2024, the acts that make comets of them, and calls of the
//! register beside it.

use std::alloc::Global;
use testkit_sessions::Part::{Digits, Number, Text};
use testkit_sessions::{Call, FOUNDER, NoMemory, OBSERVER, Script, Wrong, put, put_parts};

/// Six tracklets of the first half of March 2024, of two observations each.
const BATCH: &str = concat!(
    "# version=2017\n",
    "# observatory\n",
    "! mpcCode 703\n",
    "trkSub|mode|stn|obsTime|ra|dec|astCat\n",
    "A1|CCD|703|2024-03-01T00:00:00Z|10.0|1.0|Gaia3\n",
    "A1|CCD|703|2024-03-01T00:10:00Z|10.1|1.0|Gaia3\n",
    "A2|CCD|703|2024-03-01T13:00:00Z|11.0|1.0|Gaia3\n",
    "A2|CCD|703|2024-03-01T13:10:00Z|11.1|1.0|Gaia3\n",
    "B1|CCD|703|2024-03-02T00:00:00Z|12.0|1.0|Gaia3\n",
    "B1|CCD|703|2024-03-02T00:10:00Z|12.1|1.0|Gaia3\n",
    "B2|CCD|703|2024-03-02T13:00:00Z|13.0|1.0|Gaia3\n",
    "B2|CCD|703|2024-03-02T13:10:00Z|13.1|1.0|Gaia3\n",
    "C1|CCD|703|2024-03-14T00:00:00Z|14.0|1.0|Gaia3\n",
    "C1|CCD|703|2024-03-14T00:10:00Z|14.1|1.0|Gaia3\n",
    "C2|CCD|703|2024-03-14T13:00:00Z|15.0|1.0|Gaia3\n",
    "C2|CCD|703|2024-03-14T13:10:00Z|15.1|1.0|Gaia3\n",
);

/// Three objects of that half-month, and one that is carried over from elsewhere.
const OFFICE: &[&str] = &[
    r#"
> +founder-1 6 designate {"tracklets":[1,2]}
< 200 receipt 7
object 2024 EA K24E00A
"#,
    r#"
> +founder-1 7 designate {"tracklets":[3,4]}
< 200 receipt 8
object 2024 EB K24E00B
"#,
    r#"
> +founder-1 8 designate {"tracklets":[5,6]}
< 200 receipt 9
object 2024 EC K24E00C
"#,
    r#"
> +founder-1 9 opening {"carried":[1],"given":1,"half":"1998 S"}
< 200 receipt 10
object 1998 SA J98S00A
"#,
];

/// How many objects the office may have.
pub(super) const OBJECTS: usize = 4;

/// The answer to a batch under this receipt, of so many lines from this one on: each is accepted, and two are a
/// tracklet.
pub(super) fn batch_text(
    alloc: Global,
    receipt: u64,
    lines: u64,
    first: u64,
) -> Result<Vec<u8>, NoMemory> {
    let mut text = Vec::new(alloc);
    let count = [Number(receipt), Text("\naccepted "), Number(lines)];
    put(&mut text, "receipt ")?;
    put_parts(alloc, &mut text, &count)?;
    put(&mut text, " refused 0\n")?;
    for place in 0..lines {
        let parts = [
            Text("line "),
            Number(first.saturating_add(place)),
            Text(" obs "),
            Number(place.saturating_add(1)),
            Text(" track "),
            Number((place / 2).saturating_add(1)),
            Text("\n"),
        ];
        put_parts(alloc, &mut text, &parts)?;
    }
    Ok(text)
}

/// A batch of ADES, of which so many lines after the first four are accepted under this receipt.
pub(super) fn add_batch(
    alloc: Global,
    script: &mut Script,
    batch: &str,
    receipt: u64,
    lines: u64,
) -> Result<(), NoMemory> {
    let text = batch_text(alloc, receipt, lines, 5)?;
    script.add(OBSERVER, 1, "submitpsv", batch.as_bytes(), "200 ", &text)
}

/// The session of an office with so many of the objects 2024 EA, 2024 EB, 2024 EC and 1998 SA.
pub(super) fn office_with(alloc: Global, objects: usize) -> Result<Script, Wrong> {
    let mut script = Script::begun(alloc)?;
    add_batch(alloc, &mut script, BATCH, 6, 12)?;
    script.add_transcripts(OFFICE.get(..objects).unwrap_or(OFFICE))?;
    Ok(script)
}

/// The run of such a session, by which the history grows by as many entries and six more.
pub(super) fn office_call(office: &Script, objects: usize) -> Call<'_> {
    office.call((objects as u64).saturating_add(6))
}

/// The acts that make comets of the three objects, and those that would make the other kind of comet of one.
pub(super) const EA: &str = "{\"kind\":\"C\",\"object\":\"2024 EA\"}";

pub(super) const EB: &str = "{\"kind\":\"P\",\"object\":\"2024 EB\"}";

pub(super) const EC: &str = "{\"kind\":\"C\",\"object\":\"2024 EC\"}";

pub(super) const EA_AS_P: &str = "{\"kind\":\"P\",\"object\":\"2024 EA\"}";

/// Acts on an object that the office doesn't have, and on the one that was carried over.
pub(super) const EZ: &str = "{\"kind\":\"C\",\"object\":\"2024 EZ\"}";

pub(super) const SA: &str = "{\"kind\":\"C\",\"object\":\"1998 SA\"}";

pub(super) const UNREAD_BODY: &str = "refused 1 Unread body\n";

/// The objects of the acts with the numbers 1, 2 and 3, each with its act and the kind of comet that it is.
const NAMED: [(&str, &str, &str); 3] = [
    (EA, "C", "2024 EA"),
    (EB, "P", "2024 EB"),
    (EC, "C", "2024 EC"),
];

fn named(number: u64) -> (&'static str, &'static str, &'static str) {
    let place = number.saturating_sub(1) as usize;
    *NAMED.get(place).unwrap_or(&(EZ, "C", "2024 EZ"))
}

/// The text of an answer, and its status: `?` stands for an act in doubt, `-` for one that left nothing, and a digit is
/// the place of the act's entry in the register and so the number of the comet.
fn put_answer(
    alloc: Global,
    text: &mut Vec<u8>,
    kind: &'static str,
    answer: u8,
) -> Result<&'static str, NoMemory> {
    match answer {
        b'?' => {
            put(text, "refused 16 DiskFault doubt\n")?;
            Ok("503 ")
        }
        b'-' => {
            put(text, "refused 16 DiskFault untouched\n")?;
            Ok("503 ")
        }
        digit => {
            put_given(alloc, text, kind, u64::from(digit.saturating_sub(b'0')))?;
            Ok("200 ")
        }
    }
}

/// The act with this number, and what it is answered.
pub(super) fn add_act(
    alloc: Global,
    script: &mut Script,
    number: u64,
    answer: u8,
) -> Result<(), NoMemory> {
    let (body, kind, _) = named(number);
    let mut text = Vec::new(alloc);
    let status = put_answer(alloc, &mut text, kind, answer)?;
    script.add(FOUNDER, number, "comet", body.as_bytes(), status, &text)
}

/// The answer to the act that is the entry in this place, and gives the comet of this number of 2024 E.
pub(super) fn put_given(
    alloc: Global,
    text: &mut Vec<u8>,
    kind: &'static str,
    place: u64,
) -> Result<(), NoMemory> {
    let receipt = [Text("receipt "), Number(place), Text("\n")];
    put_parts(alloc, text, &receipt)?;
    put_comet(alloc, text, kind, place)?;
    put(text, "\n")
}

/// The comet of this number of 2024 E, printed and packed.
pub(super) fn put_comet(
    alloc: Global,
    text: &mut Vec<u8>,
    kind: &'static str,
    number: u64,
) -> Result<(), NoMemory> {
    put_parts(
        alloc,
        text,
        &[
            Text("comet "),
            Text(kind),
            Text("/2024 E"),
            Number(number),
            Text(" "),
            Text(kind),
            Text("K24E"),
            Digits(number, 2),
            Text("0"),
        ],
    )
}

/// What is told of the register in which the acts with these numbers came one after another.
pub(super) fn register_text(alloc: Global, numbers: &str) -> Result<Vec<u8>, NoMemory> {
    let mut text = Vec::new(alloc);
    for (place, number) in numbers.bytes().enumerate() {
        let (_, kind, object) = named(u64::from(number.saturating_sub(b'0')));
        put_comet(alloc, &mut text, kind, (place as u64).saturating_add(1))?;
        let end = [Text(object), Text(" principal "), Text(object), Text("\n")];
        put(&mut text, " object ")?;
        put_parts(alloc, &mut text, &end)?;
    }
    Ok(text)
}

/// The query for that register.
pub(super) fn add_register(
    alloc: Global,
    script: &mut Script,
    numbers: &str,
) -> Result<(), NoMemory> {
    let text = register_text(alloc, numbers)?;
    script.add(FOUNDER, 0, "register", b"", "200 ", &text)
}

const COMETS: &[&str] = &["comets", "--key", "+founder-1"];

/// A call of `comets` over this session, by which the register grows by so many entries.
pub(super) fn comets_of<'a>(mark: usize, script: &'a Script, added: u64) -> Call<'a> {
    Call {
        mark,
        words: COMETS,
        ..script.call(added)
    }
}
