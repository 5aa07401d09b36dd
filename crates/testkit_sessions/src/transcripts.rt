//! Sessions as transcripts: texts of requests, each with the reply to it.
//!
//! ```text
//!
//! > observer-1 1 submit80 $BATCH
//! < 200 receipt 6
//! accepted 4 refused 0
//! ...
//! > +founder-1 6 designate {"tracklets":[1]}
//! < 409 refused 8 OneNight 1440
//! ```
//!
//! A transcript begins with a line end, so that each of its lines begins a line of the code; or it is empty.
//!
//! A line `> WHO NUMBER VERB` begins a request. Its body is what stands behind the verb after one blank, without a line
//! end; where nothing stands there, it is the lines up to the reply, each with its line end.
//!
//! A line `< STATUS` begins the reply. Its text is what stands behind the status after one blank, and the lines up to
//! the next request, each with its line end.
//!
//! A body or a text `$NAME` is the text of that name: one of those that stand here, or of those that are given with the
//! transcript. No other line begins with `>`, `<` or `$`, so that what begins so, or has no line end, is given by a
//! name.

use crate::session_texts::{LONG_NAME, TOO_LONG_NAME};
use crate::setup::BATCH;
use crate::tracklets::{FIVE, FIVE_TEXT, MIDNIGHT, MIDNIGHT_TEXT, NIGHT, NIGHT_TEXT, THREE, TWO};
use crate::wrong::{Found, Wrong};
use item_list::NoMemory;
use std::alloc::Global;

/// A request, by whom it is sent, its number, its verb and its body; and the status and the text of its reply.
#[derive(Clone, Copy, Drop)]
pub struct Asked<'a> {
    pub who: &'a str,
    pub number: u64,
    pub verb: &'a str,
    pub body: &'a str,
    pub status: &'a str,
    pub text: &'a str,
}

/// A name, and the text that it stands for.
pub type Named<'a> = (&'a str, &'a str);

/// Why a transcript can't be read.
#[derive(Debug, Drop)]
pub enum Fault {
    /// It begins with something else than a line end and a request.
    Begin,
    /// Its last line has no end.
    End,
    /// The first line of a request isn't the one who asks, a number and a verb, or ends in a blank.
    Request,
    /// What stands where the number does is none.
    Number,
    /// A request has no reply, or has two.
    NoReply,
    TwoReplies,
    /// What stands where the status does is no number of three digits.
    Status,
    /// A request has a body behind its verb, and lines.
    TwoBodies,
    /// A line begins as none may.
    Mark,
    /// No text has this name, or two have.
    NoText,
    TwoTexts,
}

/// The texts whose names any transcript may say.
fn standing() -> [Named<'static>; 11] {
    [
        ("BATCH", BATCH),
        ("FIVE", FIVE),
        ("FIVE_TEXT", FIVE_TEXT),
        ("LONG_NAME", LONG_NAME),
        ("MIDNIGHT", MIDNIGHT),
        ("MIDNIGHT_TEXT", MIDNIGHT_TEXT),
        ("NIGHT", NIGHT),
        ("NIGHT_TEXT", NIGHT_TEXT),
        ("THREE", THREE),
        ("TOO_LONG_NAME", TOO_LONG_NAME),
        ("TWO", TWO),
    ]
}

/// How many of these texts have this name.
fn count_of(named: &[Named<'_>], name: &str) -> usize {
    let mut count = 0usize;
    for (other, _) in named {
        if *other == name {
            count = count.saturating_add(1);
        }
    }
    count
}

/// Whether each of the given names is given once, and doesn't stand.
fn are_single(named: &[Named<'_>]) -> bool {
    let standing = standing();
    for (name, _) in named {
        if count_of(named, name) != 1 || count_of(&standing, name) != 0 {
            return false;
        }
    }
    true
}

/// The text of this name among these.
fn found_in<'a>(named: &[Named<'a>], name: &str) -> Option<&'a str> {
    for (other, text) in named {
        if *other == name {
            return Some(*text);
        }
    }
    None
}

/// The text of this name.
fn text_named<'a>(named: &[Named<'a>], name: &str) -> Result<&'a str, Fault> {
    match found_in(named, name) {
        Some(text) => Ok(text),
        None => found_in(&standing(), name).ok_or(Fault::NoText),
    }
}

/// These lines, none of which begins as only others may.
fn unmarked(lines: &str) -> Result<&str, Fault> {
    for line in lines.split('\n') {
        if line.starts_with('>') || line.starts_with('<') || line.starts_with('$') {
            return Err(Fault::Mark);
        }
    }
    Ok(lines)
}

/// A number in digits alone.
fn number_of(text: &str) -> Result<u64, Fault> {
    if text.starts_with('+') {
        return Err(Fault::Number);
    }
    text.parse::<u64>().ok().ok_or(Fault::Number)
}

/// The body of a request: what stands behind its verb, or its lines.
fn body_of<'a>(
    behind: Option<&'a str>,
    lines: &'a str,
    named: &[Named<'a>],
) -> Result<&'a str, Fault> {
    let Some(body) = behind else {
        return unmarked(lines);
    };
    if body.is_empty() {
        return Err(Fault::Request);
    }
    if !lines.is_empty() {
        return Err(Fault::TwoBodies);
    }
    match body.strip_prefix('$') {
        Some(name) => text_named(named, name),
        None => Ok(body),
    }
}

/// The status of a reply: three digits, before a blank or the line's end.
fn status_of<'a>(lines: &'a str) -> Result<&'a str, Fault> {
    let (line, _) = lines.split_once('\n').ok_or(Fault::End)?;
    let status = match line.split_once(' ') {
        Some((status, _)) => status,
        None => line,
    };
    if status.len() != 3 || number_of(status).is_err() {
        return Err(Fault::Status);
    }
    Ok(status)
}

/// The status of a reply, and its text.
fn reply_of<'a>(lines: &'a str, named: &[Named<'a>]) -> Result<(&'a str, &'a str), Fault> {
    let status = status_of(lines)?;
    // What stands behind the status is parted from it by one blank, or by a line end.
    let text = lines.get(4..).unwrap_or("");
    let Some(name) = text.strip_prefix('$') else {
        return Ok((status, unmarked(text)?));
    };
    let name = name.strip_suffix('\n').unwrap_or(name);
    Ok((status, text_named(named, name)?))
}

/// The line of a request, what stands below it, and the reply.
fn parted<'a>(lines: &'a str) -> Result<(&'a str, &'a str, &'a str), Fault> {
    let (front, reply) = lines.split_once("\n< ").ok_or(Fault::NoReply)?;
    if reply.contains("\n< ") {
        return Err(Fault::TwoReplies);
    }
    let request = lines.get(..front.len().saturating_add(1)).unwrap_or(front);
    let (line, more) = request.split_once('\n').ok_or(Fault::Request)?;
    Ok((line, more, reply))
}

/// Who asks for what under which number, and what stands behind the verb.
#[derive(Clone, Copy)]
struct Head<'a> {
    who: &'a str,
    number: u64,
    verb: &'a str,
    behind: Option<&'a str>,
}

/// What the line of a request says.
fn head_of<'a>(line: &'a str) -> Result<Head<'a>, Fault> {
    let (who, rest) = line.split_once(' ').ok_or(Fault::Request)?;
    let (number, rest) = rest.split_once(' ').ok_or(Fault::Request)?;
    let (verb, behind) = match rest.split_once(' ') {
        Some((verb, body)) => (verb, Some(body)),
        None => (rest, None),
    };
    if who.is_empty() || verb.is_empty() {
        return Err(Fault::Request);
    }
    let number = number_of(number)?;
    Ok(Head {
        who,
        number,
        verb,
        behind,
    })
}

/// The request in these lines, and its reply.
fn read<'a>(lines: &'a str, named: &[Named<'a>]) -> Result<Asked<'a>, Fault> {
    let (line, more, reply) = parted(lines)?;
    let head = head_of(line)?;
    let body = body_of(head.behind, more, named)?;
    let (status, text) = reply_of(reply, named)?;
    Ok(Asked {
        who: head.who,
        number: head.number,
        verb: head.verb,
        body,
        status,
        text,
    })
}

/// That a transcript can't be read for this fault of this request, counted from 1, or of none, which is told as 0.
fn unread(fault: Fault, place: usize) -> Wrong {
    Wrong {
        mark: 0,
        found: Found::Transcript(fault, place),
    }
}

fn add<'a>(asked: &mut Vec<Asked<'a>>, next: Asked<'a>) -> Result<(), NoMemory> {
    asked.push(next)?;
    Ok(())
}

/// What stands behind the mark of a transcript's first request, where the whole ends with a line's end, and each of
/// these texts has a name of its own.
fn requests_in<'a>(transcript: &'a str, named: &[Named<'a>]) -> Result<&'a str, Fault> {
    let rest = transcript.strip_prefix("\n> ").ok_or(Fault::Begin)?;
    if !rest.ends_with('\n') {
        return Err(Fault::End);
    }
    if !are_single(named) {
        return Err(Fault::TwoTexts);
    }
    Ok(rest)
}

/// The requests of a transcript, with the replies to them; these texts have names.
///
/// # Errors
///
/// Memory was refused, or it has a fault.
pub fn asked_in<'a>(
    alloc: Global,
    transcript: &'a str,
    named: &'a [Named<'a>],
) -> Result<Vec<Asked<'a>>, Wrong> {
    let mut asked = Vec::new(alloc);
    if transcript.is_empty() {
        return Ok(asked);
    }
    let rest = match requests_in(transcript, named) {
        Ok(rest) => rest,
        Err(fault) => return Err(unread(fault, 0)),
    };
    for piece in rest.split_inclusive("\n> ") {
        let lines = piece.strip_suffix("> ").unwrap_or(piece);
        match read(lines, named) {
            Ok(next) => add(&mut asked, next)?,
            Err(fault) => return Err(unread(fault, asked.len().saturating_add(1))),
        }
    }
    Ok(asked)
}
