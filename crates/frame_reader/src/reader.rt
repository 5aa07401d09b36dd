//! The reader of frames.

ghost use Rattle.std.specs.Prelude.{◌≡◌, ℕ, ◌<◌, ◌≤◌, List, [], ◌++◌, IfOk, OnOk};
ghost use Rattle.desk_io.specs.Reads.{Comes};
ghost use Rattle.read_ahead.specs.Reading.{Counted, work};
ghost use Rattle.frame_reader.specs.Reading.{AwaitsFrame};
ghost use Rattle.frame_reader.specs.Frames.{ReadsFrame, ReadsHead};

use crate::frame::ReadFrame;
use crate::head::{HeldFront, HeldHead, held_front};
use desk_io::{Failed, NoMemory, Source};
use frame_grammar::laws;
use read_ahead::{Halt, ReadAhead};
use std::alloc::Global;
use std::marker::Model;

/// A reader of frames. It is seen as the bytes that it has read ahead and not yet used.
#[derive(Debug, Drop)]
pub struct FrameReader {
    ahead: ReadAhead,
}

impl Model for FrameReader {
    ghost use Rattle.std.specs.Prelude.{ℕ, List};

    ghost Value = { List ℕ };

    ghost view = { λ r. r.ahead };
}

impl FrameReader {
    /// A reader that has read nothing ahead. It takes its buffer now, and none later.
    ///
    /// # Errors
    ///
    /// Memory was refused.
    pub fn new(alloc: Global) -> Result<FrameReader, NoMemory>
        ensures { IfOk result (λ reader. reader ≡ []) }
    {
        let ahead = ReadAhead::new(alloc)?;
        Ok(FrameReader { ahead })
    }

    /// The next frame of the source, after the bytes that were read ahead.
    ///
    /// That a body is too long, or that memory for it was refused, is told by the frame's body, and the
    /// next frame is read all the same.
    ///
    /// # Errors
    ///
    /// `End` where the source ended and no byte of a further frame had come; `Bad` where what comes next is no frame,
    /// or the source ended inside it; `Failed` where the source failed before a frame had come. After `Bad` and
    /// `Failed` it isn't told which bytes were used.
    pub fn next_frame<S: Source>(&mut self, source: &mut S) -> Result<ReadFrame, Halt>
        // What the answer says of the bytes that were read ahead and of those that came after them. No read
        // was made but while a frame was awaited.
        ensures came { (piece : List ℕ) × Comes S.left S.gives (AwaitsFrame self.old) source.old source.new piece
            × ReadsFrame (self.old ++ piece) self.new (S.left source.new) result }
        ensures counts { S.faults source.old ≤ S.faults source.new }
        // It is `Failed` where the source failed in this call, and another answer where it didn't.
        ensures faults { Counted result (S.faults source.old) (S.faults source.new) }
        // The source isn't given up.
        ensures stays { S.is_open source.new ≡ S.is_open source.old }
        // The work that is left gets less with each frame.
        ensures work { work (S.reads source.new) self.new ≤ work (S.reads source.old) self.old }
        ensures progress { OnOk result (work (S.reads source.new) self.new < work (S.reads source.old) self.old) }
    {
        read_frame(&mut self.ahead, source)
    }
}

// Reads until a head stands at the front, and uses it.
fn read_head<S: Source>(ahead: &mut ReadAhead, source: &mut S) -> Result<HeldHead, Halt>
    ensures came { (piece : List ℕ) × Comes S.left S.gives (AwaitsFrame ahead.old) source.old source.new piece
        × ReadsHead (ahead.old ++ piece) ahead.new (S.left source.new) result }
    ensures counts { S.faults source.old ≤ S.faults source.new }
    ensures faults { Counted result (S.faults source.old) (S.faults source.new) }
    ensures stays { S.is_open source.new ≡ S.is_open source.old }
    ensures work { work (S.reads source.new) ahead.new ≤ work (S.reads source.old) ahead.old }
    ensures progress { OnOk result (work (S.reads source.new) ahead.new < work (S.reads source.old) ahead.old) }
{
    loop {
        match held_front(ahead.bytes()) {
            HeldFront::Whole(head) => {
                ahead.skip(head.size);
                return Ok(head);
            }
            HeldFront::Bad => return Err(Halt::Bad),
            HeldFront::Part => {}
        }
        match ahead.refill(source) {
            Ok(0) => return Err(ahead.halt_at_end()),
            Ok(_) => {}
            Err(Failed) => return Err(Halt::Failed),
        }
    }
}

// Reads a head and its body.
fn read_frame<S: Source>(ahead: &mut ReadAhead, source: &mut S) -> Result<ReadFrame, Halt>
    ensures came { (piece : List ℕ) × Comes S.left S.gives (AwaitsFrame ahead.old) source.old source.new piece
        × ReadsFrame (ahead.old ++ piece) ahead.new (S.left source.new) result }
    ensures counts { S.faults source.old ≤ S.faults source.new }
    ensures faults { Counted result (S.faults source.old) (S.faults source.new) }
    ensures stays { S.is_open source.new ≡ S.is_open source.old }
    ensures work { work (S.reads source.new) ahead.new ≤ work (S.reads source.old) ahead.old }
    ensures progress { OnOk result (work (S.reads source.new) ahead.new < work (S.reads source.old) ahead.old) }
{
    laws::goes_on();
    laws::head_and_body();
    laws::heads_have_bytes();
    laws::no_frame_yet();
    laws::never_a_frame();
    let head = read_head(ahead, source)?;
    let body = ahead.read_body(source, head.length)?;
    Ok(ReadFrame {
        key: head.key,
        number: head.number,
        verb: head.verb,
        body,
        size: head.size as u64 + head.length,
    })
}
