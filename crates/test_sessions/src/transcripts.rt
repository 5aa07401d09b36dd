//! Transcripts: what they are read as, to the byte, and those that can't be read, none of which passes as a session.

use std::alloc::Global;
use testkit_sessions::{Found, Named, NoMemory, Script, Wrong, session};

/// Bodies and texts behind a verb and a status, on the lines below, of a name, and none.
const READ: &str = r#"
> ann 0 tally
< 200
> ann 1 comet   {"kind": "C"}
< 409 refused 3 OtherRequest receipt 1
> bob 999999999999999999 submit80
  a line
and > another <

< 200
  a text
a $ and a < in it
more
> bob 2 translate $GIVEN
< 200 $GIVEN
> bob 3 enrol {}
< 400 refused 1 Unread body
"#;

/// A text whose lines begin as none of a transcript's may, and which has no end.
const GIVEN: &str = "> a 1 b\n< 200 ";

const FRAMES: &str = concat!(
    "ann 0 tally 0\n",
    "ann 1 comet 15\n  {\"kind\": \"C\"}",
    "bob 999999999999999999 submit80 26\n  a line\nand > another <\n\n",
    "bob 2 translate 14\n> a 1 b\n< 200 ",
    "bob 3 enrol 2\n{}",
);

const REPLIES: &str = concat!(
    "200 0\n",
    "409 33\nrefused 3 OtherRequest receipt 1\n",
    "200 32\n  a text\na $ and a < in it\nmore\n",
    "200 14\n> a 1 b\n< 200 ",
    "400 22\nrefused 1 Unread body\n",
);

/// Whether that is read as these frames and replies.
fn is_read(alloc: Global) -> Result<bool, Wrong> {
    let named = [("GIVEN", GIVEN)];
    let mut script = Script::new(alloc);
    script.add_named(READ, &named)?;
    let call = script.call(0);
    Ok(call.bytes == FRAMES.as_bytes() && call.taken == REPLIES.as_bytes())
}

#[test]
fn a_transcript_to_the_byte(rt: HostRuntime) {
    let read = is_read(rt.alloc()).expect(&rt, "as wanted");
    assert!(rt; read);
}

/// Transcripts, and why they can't be read: the request, counted from 1, and 0 where it is none of them.
const FAULTS: &[(&str, &str)] = &[
    ("> a 1 b\n< 200\n", "Transcript(Begin, 0)"),
    ("a\n> a 1 b\n< 200\n", "Transcript(Begin, 0)"),
    ("\n\n> a 1 b\n< 200\n", "Transcript(Begin, 0)"),
    ("\n", "Transcript(Begin, 0)"),
    ("\n< 200\n> a 1 b\n< 200\n", "Transcript(Begin, 0)"),
    ("\n> a 1 b\n< 200", "Transcript(End, 0)"),
    ("\n> a 1 b\n< 200\n> ", "Transcript(End, 0)"),
    ("\n> \n< 200\n", "Transcript(Request, 1)"),
    ("\n> a 1\n< 200\n", "Transcript(Request, 1)"),
    ("\n> a 1 \n< 200\n", "Transcript(Request, 1)"),
    ("\n>  1 b\n< 200\n", "Transcript(Request, 1)"),
    ("\n> a 1 b \n< 200\n", "Transcript(Request, 1)"),
    ("\n> a  b\n< 200\n", "Transcript(Number, 1)"),
    ("\n> a +1 b\n< 200\n", "Transcript(Number, 1)"),
    ("\n> a one b\n< 200\n", "Transcript(Number, 1)"),
    (
        "\n> a 18446744073709551616 b\n< 200\n",
        "Transcript(Number, 1)",
    ),
    ("\n> a 1 b\n", "Transcript(NoReply, 1)"),
    ("\n> a 1 b\n< 200\n> a 2 b\n", "Transcript(NoReply, 2)"),
    ("\n> a 1 b\n> a 2 b\n< 200\n", "Transcript(NoReply, 1)"),
    (
        "\n> a 1 b\n< 200\n> a 2 b\n< 200\n< 200\n",
        "Transcript(TwoReplies, 2)",
    ),
    ("\n> a 1 b\n< \n", "Transcript(Status, 1)"),
    ("\n> a 1 b\n< 20\n", "Transcript(Status, 1)"),
    ("\n> a 1 b\n< 2000\n", "Transcript(Status, 1)"),
    ("\n> a 1 b\n< +20 c\n", "Transcript(Status, 1)"),
    ("\n> a 1 b\n< receipt 1\n", "Transcript(Status, 1)"),
    ("\n> a 1 b c\nd\n< 200\n", "Transcript(TwoBodies, 1)"),
    ("\n> a 1 b $TWO\nd\n< 200\n", "Transcript(TwoBodies, 1)"),
    ("\n> a 1 b\n>c\n< 200\n", "Transcript(Mark, 1)"),
    ("\n> a 1 b\n<200\n< 200\n", "Transcript(Mark, 1)"),
    ("\n> a 1 b\n$TWO\n< 200\n", "Transcript(Mark, 1)"),
    ("\n> a 1 b\n< 200 c\n<d\n", "Transcript(Mark, 1)"),
    ("\n> a 1 b\n< 200 >c\n", "Transcript(Mark, 1)"),
    ("\n> a 1 b\n< 200\nc\n$TWO\n", "Transcript(Mark, 1)"),
    ("\n> a 1 b $NONE\n< 200\n", "Transcript(NoText, 1)"),
    ("\n> a 1 b $\n< 200\n", "Transcript(NoText, 1)"),
    ("\n> a 1 b\n< 200 $NONE\n", "Transcript(NoText, 1)"),
    ("\n> a 1 b\n< 200 $TWO\nc\n", "Transcript(NoText, 1)"),
];

/// Why a transcript with these texts can't be read; None where it can.
fn why(alloc: Global, transcript: &str, named: &[Named<'_>]) -> Result<Option<String>, NoMemory> {
    let mut script = Script::new(alloc);
    match script.add_named(transcript, named) {
        Ok(()) => Ok(None),
        Err(Wrong { found, .. }) => Ok(Some(format!(in alloc; "{found:?}")?)),
    }
}

fn is_why(
    alloc: Global,
    transcript: &str,
    named: &[Named<'_>],
    fault: &str,
) -> Result<bool, NoMemory> {
    let why = why(alloc, transcript, named)?;
    Ok(why.is_some_and(|why| why.as_str() == fault))
}

/// The first of them by its place that is read, or for another reason can't be; None where there is none.
fn wrong_fault(alloc: Global) -> Result<Option<usize>, NoMemory> {
    for (place, &(transcript, fault)) in FAULTS.iter().enumerate() {
        if !is_why(alloc, transcript, &[], fault)? {
            return Ok(Some(place));
        }
    }
    Ok(None)
}

#[test]
fn transcripts_that_cannot_be_read(rt: HostRuntime) {
    let wrong = wrong_fault(rt.alloc()).expect(&rt, "memory");
    assert_eq!(rt; wrong, None);
}

const GOOD: &str = "\n> a 1 b $ONE\n< 200\n";

/// A name that is given twice, and one that stands already, whether or not the transcript says it.
const NAMES: &[&[Named<'static>]] = &[
    &[("ONE", "c"), ("ONE", "c")],
    &[("ONE", "c"), ("OTHER", "d"), ("OTHER", "e")],
    &[("ONE", "c"), ("TWO", "d")],
];

/// The first of them by its place that is taken; None where there is none.
fn wrong_name(alloc: Global) -> Result<Option<usize>, NoMemory> {
    for (place, named) in NAMES.iter().enumerate() {
        if !is_why(alloc, GOOD, named, "Transcript(TwoTexts, 0)")? {
            return Ok(Some(place));
        }
    }
    Ok(None)
}

#[test]
fn names_of_two_texts(rt: HostRuntime) {
    let wrong = wrong_name(rt.alloc()).expect(&rt, "memory");
    assert_eq!(rt; wrong, None);
}

/// A session fails with the transcript that can't be read.
#[test]
fn a_session_that_cannot_be_read(rt: HostRuntime) {
    let told = session(rt.alloc(), &["\n> a 1 b\n"], 5);
    let unread = matches!(
        &told,
        Err(Wrong {
            found: Found::Transcript(..),
            ..
        })
    );
    assert!(rt; unread);
}
