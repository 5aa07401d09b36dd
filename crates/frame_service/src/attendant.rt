//! What answers frames.

ghost use Rattle.frame_grammar.specs.Frames.{Frame};
ghost use Rattle.frame_service.specs.Exchanges.{Attending, attending_of, Exchange, IsReadAs, spoken_bytes};

use crate::spoken::Spoken;
use desk_io::Clock;
use frame_reader::ReadFrame;
use std::alloc::Global;

/// Something that answers frames, one after another.
pub trait Attendant {
    /// One frame is answered: the attendant and its clock before it, the frame with the bytes of its reply, and both
    /// after it.
    ghost answers: { Attending Self → Exchange → Attending Self → Type 0 };

    /// Answers a frame, as it was read. It may take memory, and may read the clock.
    fn answer<C: Clock>(&mut self, alloc: Global, read: ReadFrame, clock: &mut C) -> Spoken
        ensures { (frame : Frame) → IsReadAs frame read → answers
            (attending_of C.reading C.last self.old clock.old)
            (record { frame = frame; reply = spoken_bytes result })
            (attending_of C.reading C.last self.new clock.new) };
}
