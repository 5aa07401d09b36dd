//! Sessions that are written request by request, with the replies to them.

use crate::calls::{Call, Drive, Drives, call_in_turn};
use crate::pieces::{Part, put, put_parts, put_reply};
use crate::setup::SETUP;
use crate::transcripts::{Asked, Named, asked_in};
use crate::wrong::Wrong;
use item_list::NoMemory;
use std::alloc::Global;

/// A session: the bytes of its frames, and those of the replies to them.
#[derive(Drop)]
pub struct Script {
    alloc: Global,
    bytes: Vec<u8>,
    taken: Vec<u8>,
}

impl Script {
    /// A session without frames.
    pub fn new(alloc: Global) -> Script {
        Script {
            alloc,
            bytes: Vec::new(alloc),
            taken: Vec::new(alloc),
        }
    }

    /// A session of the founder's five requests.
    ///
    /// # Errors
    ///
    /// Memory was refused.
    pub fn begun(alloc: Global) -> Result<Script, Wrong> {
        let mut script = Script::new(alloc);
        script.add_transcript(SETUP)?;
        Ok(script)
    }

    /// A request, by whom it is sent, its number, its verb and its body.
    fn add_request<'a>(
        &mut self,
        who: &'a str,
        number: u64,
        verb: &'a str,
        body: &[u8],
    ) -> Result<(), NoMemory> {
        let head = [
            Part::Text(who),
            Part::Text(" "),
            Part::Number(number),
            Part::Text(" "),
            Part::Text(verb),
            Part::Text(" "),
            Part::Number(body.len() as u64),
            Part::Text("\n"),
        ];
        put_parts(self.alloc, &mut self.bytes, &head)?;
        self.bytes.extend_from_slice(body)
    }

    /// A request, by whom it is sent, its number, its verb and its body; then the status and the text of its reply.
    ///
    /// # Errors
    ///
    /// Memory was refused.
    pub fn add(
        &mut self,
        who: &str,
        number: u64,
        verb: &str,
        body: &[u8],
        status: &str,
        text: &[u8],
    ) -> Result<(), NoMemory> {
        self.add_request(who, number, verb, body)?;
        put_reply(self.alloc, &mut self.taken, status, text)
    }

    /// A request of a transcript, and its reply.
    pub(crate) fn add_asked(&mut self, asked: &Asked<'_>) -> Result<(), NoMemory> {
        self.add_request(asked.who, asked.number, asked.verb, asked.body.as_bytes())?;
        put(&mut self.taken, asked.status)?;
        put_reply(self.alloc, &mut self.taken, " ", asked.text.as_bytes())
    }

    /// The requests of a transcript, with the replies to them, where these texts have names.
    ///
    /// # Errors
    ///
    /// Memory was refused, or the transcript can't be read.
    pub fn add_named<'a>(
        &mut self,
        transcript: &'a str,
        named: &'a [Named<'a>],
    ) -> Result<(), Wrong> {
        for asked in &asked_in(self.alloc, transcript, named)? {
            self.add_asked(asked)?;
        }
        Ok(())
    }

    /// Those of a transcript that says no other names than those that stand.
    ///
    /// # Errors
    ///
    /// Memory was refused, or it can't be read.
    pub fn add_transcript(&mut self, transcript: &str) -> Result<(), Wrong> {
        self.add_named(transcript, &[])
    }

    /// Those of such transcripts, one after another.
    ///
    /// # Errors
    ///
    /// Memory was refused, or one of them can't be read.
    pub fn add_transcripts(&mut self, transcripts: &[&str]) -> Result<(), Wrong> {
        for transcript in transcripts {
            self.add_transcript(transcript)?;
        }
        Ok(())
    }

    /// A run of it on 2024-04-01 by which the history grows by so many entries.
    pub fn call(&self, added: u64) -> Call<'_> {
        Call {
            greatest: 65_536,
            ..Call::run(&self.bytes, added, &self.taken)
        }
    }
}

/// Runs a session by which the history grows by so many entries, on two empty disks of which the second has room for so
/// many bytes; takes what isn't safe by a crash with this pick, where there is one; runs a session by which the history
/// stays, over the journal that was left; and writes the catalogue out, which is this one; for an empty one it doesn't.
///
/// # Errors
///
/// What is wrong with the first of the calls that isn't as wanted.
pub fn call_days<'a>(
    alloc: Global,
    room: usize,
    day: &'a Script,
    added: u64,
    pick: Option<u64>,
    later: &'a Script,
    written: &'a [u8],
) -> Result<(), Wrong> {
    let drives = Drives::with_second(Drive {
        room,
        ..Drive::EMPTY
    });
    let first = Call {
        pick,
        ..day.call(added)
    };
    let second = Call {
        mark: 1,
        ..later.call(0)
    };
    if written.is_empty() {
        return call_in_turn(alloc, &drives, &[first, second]);
    }
    let third = Call {
        mark: 2,
        words: &["export"],
        ..Call::run(b"", 0, written)
    };
    call_in_turn(alloc, &drives, &[first, second, third])
}
