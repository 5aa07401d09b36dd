//! Keys, bodies and sizes at which a register refuses a request, and those that it just takes.

use super::office::{OBJECTS, UNREAD_BODY, comets_of, office_with};
use std::alloc::Global;
use testkit_comets::comets_in_turn;
use testkit_sessions::{Drive, FOUNDER, NoMemory, Script, Wrong, put};

const OFFICER: &str = "officer-1";

/// Another officer, beside the founding one.
const ENROLS: &str = r#"
> +founder-1 10 enrol {"key":"officer-1","name":"Bea","role":"officer"}
< 200 receipt 11
caller 2
"#;

/// The key of an officer is none of the register's, and neither is a key that begins or ends as the founding officer's.
/// What can't be read is told first.
const KEYS: &str = r#"
> officer-1 0 register
< 401 refused 2 UnknownKey
> officer-1 0 translate
< 401 refused 2 UnknownKey
> officer-1 1 comet {"kind":"C","object":"2024 EA"}
< 401 refused 2 UnknownKey
> officer-1 0 comet {"kind":"C","object":"2024 EA"}
< 400 refused 1 Unread number
> officer-1 1 comet {}
< 400 refused 1 Unread body
> officer-1 1 tally
< 400 refused 1 Unread verb
> founder-1 0 register
< 401 refused 2 UnknownKey
> +founder- 0 register
< 401 refused 2 UnknownKey
> +founder-12 0 register
< 401 refused 2 UnknownKey
> + 0 register
< 401 refused 2 UnknownKey
> +founder-1 0 register
< 200
"#;

/// Bodies that say no comet.
const UNREAD: &[&str] = &[
    "",
    "[]",
    "{\"kind\":\"C\"}",
    "{\"object\":\"2024 EA\"}",
    "{\"kind\":\"c\",\"object\":\"2024 EA\"}",
    "{\"kind\":\"D\",\"object\":\"2024 EA\"}",
    "{\"kind\":\"CP\",\"object\":\"2024 EA\"}",
    "{\"kind\":\"\",\"object\":\"2024 EA\"}",
    "{\"kind\":1,\"object\":\"2024 EA\"}",
    "{\"kind\":\"C\",\"object\":\"2024 EA\",\"more\":1}",
    "{\"kind\":\"C\",\"Object\":\"2024 EA\"}",
    "{\"kind\":\"C\",\"object\":\"K24E00A\"}",
    "{\"kind\":\"C\",\"object\":\"2024 E\"}",
    "{\"kind\":\"C\",\"object\":\"2024 EA \"}",
    "{\"kind\":\"C\",\"object\":\"620000\"}",
    "{\"kind\":\"C\",\"object\":\"C/2024 E1\"}",
    "{\"kind\":\"C\",\"object\":null}",
    "{\"kind\":\"C\",\"object\":\"2024 EA\"}}",
];

fn add_unread(script: &mut Script) -> Result<(), NoMemory> {
    for body in UNREAD {
        let text = UNREAD_BODY.as_bytes();
        script.add(FOUNDER, 1, "comet", body.as_bytes(), "400 ", text)?;
    }
    Ok(())
}

/// The members may stand in any order, with blanks between them; but what is sent again is the same to the byte. That
/// the number was used is told before anything of the object. The last number is the greatest that a request may have.
const BODIES: &str = r#"
> +founder-1 1 comet {"kind":"C","object":"2024 EA"}
< 200 receipt 1
comet C/2024 E1 CK24E010
> +founder-1 1 comet {"object":"2024 EA","kind":"C"}
< 409 refused 3 OtherRequest receipt 1
> +founder-1 1 comet {"kind":"C","object":"2024 EZ"}
< 409 refused 3 OtherRequest receipt 1
> +founder-1 1 comet {"kind":"C","object":"1998 SA"}
< 409 refused 3 OtherRequest receipt 1
> +founder-1 1 comet {}
< 400 refused 1 Unread body
> +founder-1 2 comet {"object":"2024 EA","kind":"C"}
< 409 refused 20 AlreadyComet C/2024 E1
> +founder-1 2 comet {"kind":"P","object":"1998 SA"}
< 409 refused 19 NoDiscovery 1998 SA
> +founder-1 2 comet {"kind":"P","object":"2040 P-L"}
< 404 refused 5 UnknownThing designation 2040 P-L
> +founder-1 2 comet
 {"kind": "P", "object": "2024 EB"}
< 200 receipt 2
comet P/2024 E2 PK24E020
> +founder-1 2 comet {"kind":"P","object":"2024 EB"}
< 409 refused 3 OtherRequest receipt 2
> +founder-1 999999999999999999 comet {"kind":"C","object":"2024 EC"}
< 200 receipt 3
comet C/2024 E3 CK24E030
"#;

/// Bodies of so many line feeds, which are too large: who sends them, under which number and verb, and how large they
/// are. It is told before all else.
const LARGE: &[(&str, u64, &str, usize, &str)] = &[
    (FOUNDER, 0, "translate", 1_048_577, "bytes 1048577\n"),
    (FOUNDER, 5, "comet", 10_001, "lines 10001\n"),
    (OFFICER, 0, "translate", 10_001, "lines 10001\n"),
    (OFFICER, 5, "orbit", 10_001, "lines 10001\n"),
];

fn add_large(alloc: Global, script: &mut Script) -> Result<(), NoMemory> {
    for &(who, number, verb, count, more) in LARGE {
        let mut body = Vec::new(alloc);
        body.resize(count, b'\n')?;
        let mut text = Vec::new(alloc);
        put(&mut text, "refused 14 TooLarge ")?;
        put(&mut text, more)?;
        script.add(who, number, verb, &body, "413 ", &text)?;
    }
    Ok(())
}

const NAMED: &str = r#"
> +founder-1 1 comet {"kind":"P","object":"2024 EB"}
< 200 receipt 1
comet P/2024 E1 PK24E010
"#;

/// A line feed and a line of 80 bytes under a comet's name, and the same translated.
const LAST: &str =
    "\n    PK24E010  C2024 03 15.12345 06 12 34.56 +23 45 01.2          19.5 V      703";

const LAST_TOLD: &str =
    "\n     K24E00B  C2024 03 15.12345 06 12 34.56 +23 45 01.2          19.5 V      703";

/// A body of 1,048,576 bytes, which is the largest, whose last line is translated; so is the answer to it as large.
fn add_largest(alloc: Global, script: &mut Script) -> Result<(), NoMemory> {
    let front = 1_048_576usize.saturating_sub(LAST.len());
    let mut body = Vec::new(alloc);
    body.resize(front, b' ')?;
    put(&mut body, LAST)?;
    let mut text = Vec::new(alloc);
    text.resize(front, b' ')?;
    put(&mut text, LAST_TOLD)?;
    script.add(FOUNDER, 0, "translate", &body, "200 ", &text)
}

/// A session of the register that adds so many entries, beside an office with another officer.
fn is_answered(alloc: Global, asked: &Script, added: u64) -> Result<(), Wrong> {
    let mut office = office_with(alloc, OBJECTS)?;
    office.add_transcript(ENROLS)?;
    let calls = [office.call(11), comets_of(1, asked, added)];
    comets_in_turn(alloc, &Drive::EMPTY, &calls)
}

fn refused(alloc: Global) -> Result<(), Wrong> {
    let mut asked = Script::new(alloc);
    asked.add_transcript(KEYS)?;
    add_unread(&mut asked)?;
    asked.add_transcript(BODIES)?;
    is_answered(alloc, &asked, 3)
}

#[test]
fn keys_and_bodies_that_are_refused(rt: HostRuntime) {
    refused(rt.alloc()).expect(&rt, "as wanted");
}

/// A comet is named, and then the large bodies come.
fn large(alloc: Global) -> Result<(), Wrong> {
    let mut asked = Script::new(alloc);
    asked.add_transcript(NAMED)?;
    add_large(alloc, &mut asked)?;
    add_largest(alloc, &mut asked)?;
    is_answered(alloc, &asked, 1)
}

#[test]
fn bodies_at_their_limits(rt: HostRuntime) {
    large(rt.alloc()).expect(&rt, "as wanted");
}
