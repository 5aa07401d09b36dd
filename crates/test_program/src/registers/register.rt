//! A register of comets beside an office, in whole sessions: what the founding officer is answered, lines that are
//! translated, what is refused, and an object that is identified with another.

use super::office::{UNREAD_BODY, add_batch, comets_of};
use std::alloc::Global;
use testkit_comets::comets_in_turn;
use testkit_sessions::{Call, Drive, FOUNDER, NoMemory, Script, Wrong};

/// Four tracklets of 2024 E and two of 1998 S, of two observations each, of which each second one is 13 hours after the
/// one before.
const BATCH: &str = concat!(
    "# version=2017\n",
    "# observatory\n",
    "! mpcCode 703\n",
    "trkSub|mode|stn|obsTime|ra|dec|astCat\n",
    "A1|CCD|703|2024-03-01T00:00:00Z|10.0|1.0|Gaia3\n",
    "A1|CCD|703|2024-03-01T00:10:00Z|10.1|1.0|Gaia3\n",
    "A2|CCD|703|2024-03-01T13:00:00Z|11.0|1.0|Gaia3\n",
    "A2|CCD|703|2024-03-01T13:10:00Z|11.1|1.0|Gaia3\n",
    "A3|CCD|703|2024-03-02T00:00:00Z|12.0|1.0|Gaia3\n",
    "A3|CCD|703|2024-03-02T00:10:00Z|12.1|1.0|Gaia3\n",
    "A4|CCD|703|2024-03-02T13:00:00Z|13.0|1.0|Gaia3\n",
    "A4|CCD|703|2024-03-02T13:10:00Z|13.1|1.0|Gaia3\n",
    "B1|CCD|703|2024-03-14T00:00:00Z|14.0|1.0|Gaia3\n",
    "B1|CCD|703|2024-03-14T00:10:00Z|14.1|1.0|Gaia3\n",
    "B2|CCD|703|2024-03-14T13:00:00Z|15.0|1.0|Gaia3\n",
    "B2|CCD|703|2024-03-14T13:10:00Z|15.1|1.0|Gaia3\n",
    "C1|CCD|703|2010-08-17T00:00:00Z|16.0|1.0|Gaia3\n",
    "C1|CCD|703|2010-08-17T00:10:00Z|16.1|1.0|Gaia3\n",
    "C2|CCD|703|2010-08-17T13:00:00Z|17.0|1.0|Gaia3\n",
    "C2|CCD|703|2010-08-17T13:10:00Z|17.1|1.0|Gaia3\n",
);

/// What the office takes before its batch: it takes 1998 SA over, and counts the designations that 2010 Q gave.
const BEGUN: &str = r#"
> +founder-1 1 station {"code":"703","from":"1998-01-01","name":"Catalina","to":"2199-12-31"}
< 200 receipt 1
> +founder-1 2 code {"kind":"mode","letter":"C","word":"CCD"}
< 200 receipt 2
> +founder-1 3 code {"kind":"catalogue","letter":"W","word":"Gaia3"}
< 200 receipt 3
> +founder-1 4 enrol {"key":"observer-1","name":"Ann","role":"observer"}
< 200 receipt 4
caller 1
> +founder-1 5 opening {"carried":[1],"given":1,"half":"1998 S"}
< 200 receipt 5
object 1998 SA J98S00A
> +founder-1 6 opening {"carried":[],"given":15500,"half":"2010 Q"}
< 200 receipt 6
> +founder-1 7 code {"kind":"band","letter":"V","word":"V"}
< 200 receipt 7
"#;

/// After the batch it gives 2024 EA, EB and EC, and the first designation that has an underscore.
const GIVEN: &str = r#"
> +founder-1 8 designate {"tracklets":[1,2]}
< 200 receipt 9
object 2024 EA K24E00A
> +founder-1 9 designate {"tracklets":[3,4]}
< 200 receipt 10
object 2024 EB K24E00B
> +founder-1 10 designate {"tracklets":[5,6]}
< 200 receipt 11
object 2024 EC K24E00C
> +founder-1 11 designate {"tracklets":[7,8]}
< 200 receipt 12
object 2010 QA620 _AQ0000
"#;

/// Comets are named, and all are told.
const COMETS: &str = r#"
> +founder-1 0 register
< 200
> +founder-1 0 translate
< 200
> +founder-1 1 comet {"kind":"C","object":"2024 EA"}
< 200 receipt 1
comet C/2024 E1 CK24E010
> +founder-1 1 comet {"kind":"C","object":"2024 EA"}
< 200 receipt 1
comet C/2024 E1 CK24E010
> +founder-1 2 comet {"kind":"P","object":"2024 EB"}
< 200 receipt 2
comet P/2024 E2 PK24E020
> +founder-1 3 comet {"kind":"C","object":"2024 EA"}
< 409 refused 20 AlreadyComet C/2024 E1
> +founder-1 1 comet {"kind":"P","object":"2024 EA"}
< 409 refused 3 OtherRequest receipt 1
> +founder-1 3 comet {"kind":"C","object":"2024 EZ"}
< 404 refused 5 UnknownThing designation 2024 EZ
> +founder-1 3 comet {"kind":"C","object":"1998 SA"}
< 409 refused 19 NoDiscovery 1998 SA
> +founder-1 3 comet {"kind":"C","object":"2010 QA620"}
< 200 receipt 3
comet C/2010 Q1 CK10Q010
> +founder-1 0 register
< 200 comet C/2024 E1 CK24E010 object 2024 EA principal 2024 EA
comet P/2024 E2 PK24E020 object 2024 EB principal 2024 EB
comet C/2010 Q1 CK10Q010 object 2010 QA620 principal 2010 QA620
"#;

/// Lines under the names of comets, and after each the same translated.
const TRANSLATED: &[&str] = &[
    "    CK24E010  C2024 03 15.12345 06 12 34.56 +23 45 01.2          19.5 V      703",
    "     K24E00A  C2024 03 15.12345 06 12 34.56 +23 45 01.2          19.5 V      703",
    "    CK24E010  C2024 03 15.12345 06 12 34.56 +23 45 01.2          19.5 V      703\n",
    "     K24E00A  C2024 03 15.12345 06 12 34.56 +23 45 01.2          19.5 V      703\n",
    concat!(
        "    CK24E010  C2024 03 15.12345 06 12 34.56 +23 45 01.2          19.5 V      703\r\n",
        "    PK24E020  C2024 03 15.12345 06 12 34.56 +23 45 01.2          19.5 V      703\r\n",
    ),
    concat!(
        "     K24E00A  C2024 03 15.12345 06 12 34.56 +23 45 01.2          19.5 V      703\r\n",
        "     K24E00B  C2024 03 15.12345 06 12 34.56 +23 45 01.2          19.5 V      703\r\n",
    ),
    concat!(
        "    CK10Q010  C2024 03 15.12345 06 12 34.56 +23 45 01.2          19.5 V      703\n",
        "    CK24E030  C2024 03 15.12345 06 12 34.56 +23 45 01.2          19.5 V      703\n",
        "    PK24E020  C2024 03 15.12345 06 12 34.56 +23 45 01.2          19.5 V      703",
    ),
    concat!(
        "     _AQ0000  C2024 03 15.12345 06 12 34.56 +23 45 01.2          19.5 V      703\n",
        "    CK24E030  C2024 03 15.12345 06 12 34.56 +23 45 01.2          19.5 V      703\n",
        "     K24E00B  C2024 03 15.12345 06 12 34.56 +23 45 01.2          19.5 V      703",
    ),
    concat!(
        "COD 703\n",
        "NET Gaia3\n",
        "\n",
        "    CK24E010  C2024 03 15.12345 06 12 34.56 +23 45 01.2          19.5 V      703\n",
    ),
    concat!(
        "COD 703\n",
        "NET Gaia3\n",
        "\n",
        "     K24E00A  C2024 03 15.12345 06 12 34.56 +23 45 01.2          19.5 V      703\n",
    ),
    "    CK24E010* C2024 03 15.12345 06 12 34.56 +23 45 01.2          19.5 V      703",
    "     K24E00A* C2024 03 15.12345 06 12 34.56 +23 45 01.2          19.5 V      703",
];

/// Lines that stay as they are.
const UNCHANGED: &[&str] = &[
    "    CK24E010  C2024 03 15.12345 06 12 34.56 +23 45 01.2          19.5 V      70\n",
    "    CK24E010  C2024 03 15.12345 06 12 34.56 +23 45 01.2          19.5 V      703 \n",
    "    CK24E010  C2024 03 15.12345 06 12 34.56 +23 45 01.2          19.5 V      70\r\n",
    "    CK24E010  C2024 03 15.12345 06 12 34.56 +23 45 01.2          19.5 V      703\r",
    "    CK24E010  C2024 03 15.12345 06 12 34.56 +23 45 01.2          19.5 V      703\r\r\n",
    "   CK24E010   C2024 03 15.12345 06 12 34.56 +23 45 01.2          19.5 V      703\n",
    "     CK24E010 C2024 03 15.12345 06 12 34.56 +23 45 01.2          19.5 V      703\n",
    "0001CK24E010  C2024 03 15.12345 06 12 34.56 +23 45 01.2          19.5 V      703\n",
    "    PK24E010  C2024 03 15.12345 06 12 34.56 +23 45 01.2          19.5 V      703",
    "\n\n\r\n",
];

fn add_translation(script: &mut Script, given: &str, told: &str) -> Result<(), NoMemory> {
    let (body, text) = (given.as_bytes(), told.as_bytes());
    script.add(FOUNDER, 0, "translate", body, "200 ", text)
}

/// Asks for these translations, and for those of lines that stay as they are.
fn add_lines(script: &mut Script) -> Result<(), NoMemory> {
    for place in 0..TRANSLATED.len() / 2 {
        add_translation(script, TRANSLATED[place * 2], TRANSLATED[place * 2 + 1])?;
    }
    for text in UNCHANGED {
        add_translation(script, text, text)?;
    }
    Ok(())
}

/// What is refused.
const REFUSED: &str = r#"
> observer-1 0 register
< 401 refused 2 UnknownKey
> observer-1 0 translate
< 401 refused 2 UnknownKey
> observer-1 9 comet {"kind":"C","object":"2024 EC"}
< 401 refused 2 UnknownKey
> +founder-1 0 register $BLANK
< 400 refused 1 Unread body
> observer-1 0 register $BLANK
< 400 refused 1 Unread body
> +founder-1 1 register
< 400 refused 1 Unread number
> +founder-1 1 translate
< 400 refused 1 Unread number
> +founder-1 0 comet {"kind":"C","object":"2024 EC"}
< 400 refused 1 Unread number
> +founder-1 0 tally
< 400 refused 1 Unread verb
"#;

/// One object becomes a name of another.
const IDENTIFY: &str = r#"
> +founder-1 20 identify {"principal":"2024 EB","secondary":"2024 EA"}
< 200 receipt 13
"#;

/// A secondary keeps its own comet, and `register` tells its principal now.
const IDENTIFIED: &str = r#"
> +founder-1 0 register
< 200 comet C/2024 E1 CK24E010 object 2024 EA principal 2024 EB
comet P/2024 E2 PK24E020 object 2024 EB principal 2024 EB
comet C/2010 Q1 CK10Q010 object 2010 QA620 principal 2010 QA620
> +founder-1 0 translate     CK24E010  C2024 03 15.12345 06 12 34.56 +23 45 01.2          19.5 V      703
< 200 $EA_LINE
> +founder-1 4 comet {"kind":"P","object":"2024 EA"}
< 409 refused 20 AlreadyComet C/2024 E1
> +founder-1 1 comet {"kind":"C","object":"2024 EA"}
< 200 receipt 1
comet C/2024 E1 CK24E010
> +founder-1 4 comet {"kind":"P","object":"2024 EC"}
< 200 receipt 4
comet P/2024 E3 PK24E030
"#;

const EA_LINE: &str =
    "     K24E00A  C2024 03 15.12345 06 12 34.56 +23 45 01.2          19.5 V      703";

/// Bodies of so many line feeds, 10,000 of which are the most that there may be.
fn add_line_feeds(alloc: Global, script: &mut Script) -> Result<(), NoMemory> {
    let mut body = Vec::new(alloc);
    body.resize(10_000, b'\n')?;
    script.add(FOUNDER, 0, "translate", &body, "200 ", &body)?;
    let unread = UNREAD_BODY.as_bytes();
    script.add(FOUNDER, 0, "register", &body, "400 ", unread)?;
    body.push(b'\n')?;
    let text = b"refused 14 TooLarge lines 10001\n";
    script.add(FOUNDER, 0, "translate", &body, "413 ", text)
}

/// The sessions of the office, and those of the register beside it.
#[derive(Drop)]
struct Days {
    office: Script,
    first: Script,
    identify: Script,
    second: Script,
}

fn days_of(alloc: Global) -> Result<Days, Wrong> {
    let mut days = Days {
        office: Script::new(alloc),
        first: Script::new(alloc),
        identify: Script::new(alloc),
        second: Script::new(alloc),
    };
    days.office.add_transcript(BEGUN)?;
    add_batch(alloc, &mut days.office, BATCH, 8, 16)?;
    days.office.add_transcript(GIVEN)?;
    days.first.add_transcript(COMETS)?;
    add_lines(&mut days.first)?;
    days.first.add_named(REFUSED, &[("BLANK", " ")])?;
    add_line_feeds(alloc, &mut days.first)?;
    days.identify.add_transcript(IDENTIFY)?;
    let named = [("EA_LINE", EA_LINE)];
    days.second.add_named(IDENTIFIED, &named)?;
    Ok(days)
}

fn told(alloc: Global) -> Result<(), Wrong> {
    let days = days_of(alloc)?;
    let calls: [Call; 4] = [
        days.office.call(12),
        comets_of(1, &days.first, 3),
        Call {
            mark: 2,
            ..days.identify.call(1)
        },
        comets_of(3, &days.second, 1),
    ];
    comets_in_turn(alloc, &Drive::EMPTY, &calls)
}

#[test]
fn comets_are_told(rt: HostRuntime) {
    told(rt.alloc()).expect(&rt, "as wanted");
}
