//! The buffer.

ghost use Rattle.std.specs.Prelude.{◌≡◌, ◌≢◌, ℕ, ◌+◌, ◌-◌, ◌<◌, ◌≤◌, List, [], ◌++◌, length, take, drop, slice_range};
ghost use Rattle.std.specs.Prelude.{Option, Ok, Err, IfOk, IfErr, OnOk, OnErr, IfSome, IsSomeAnd};
ghost use Rattle.std.specs.Io.KnownBytes.{IsAtEnd};
ghost use Rattle.call_log.specs.Counts.{Rises};
ghost use Rattle.desk_io.specs.Reads.{Comes};
ghost use Rattle.read_ahead.specs.Reading.{LacksText, ReadsOnce, ReadsAhead, ReadsText, IsAllOf, IsBody, IsCut};
ghost use Rattle.read_ahead.specs.Reading.{Counted, work, halt_at_end};

use crate::BUFFER_BYTES;
use crate::body::{BODY_BYTES, Body};
use crate::halt::Halt;
use desk_io::{Failed, NoMemory, Source};
use item_list::Bytes;
use std::alloc::Global;
use std::marker::Model;

/// Bytes that were read ahead and not yet used, in a buffer of one size. It is seen as the list of these bytes.
#[derive(Debug, Drop)]
pub struct ReadAhead {
    buffer: Vec<u8>,
    start: usize,
    end: usize,
}

impl Model for ReadAhead {
    ghost use Rattle.std.specs.Prelude.{◌≡◌, ◌≢◌, ℕ, ◌≤◌, List, slice_range, vec_len};
    ghost use Rattle.read_ahead.specs.declared.TheConstants.{BUFFER_BYTES};

    ghost Value = { List ℕ };

    ghost view = { λ r. slice_range r.buffer.items r.start r.end };

    ghost invariant = { λ r. (r.start ≤ r.end) × (r.end ≤ vec_len r.buffer) × (vec_len r.buffer ≡ BUFFER_BYTES) };
}

impl ReadAhead {
    /// Nothing is read ahead yet. It takes its buffer now, and none later.
    ///
    /// # Errors
    ///
    /// Memory was refused.
    pub fn new(alloc: Global) -> Result<ReadAhead, NoMemory>
        ensures { IfOk result (λ ahead. ahead ≡ []) }
    {
        let mut buffer = Vec::new(alloc);
        buffer.resize(BUFFER_BYTES, 0)?;
        Ok(ReadAhead {
            buffer,
            start: 0,
            end: 0,
        })
    }

    /// The bytes that are read ahead.
    pub fn bytes(&self) -> &[u8]
        ensures { result.now ≡ self.now }
    {
        let (start, end) = (self.start, self.end);
        let all = self.buffer.as_slice();
        &all[start..end]
    }

    /// An empty text with room for this many bytes. None where memory for it is refused.
    pub fn room_for(&self, size: u64) -> Option<Bytes>
        ensures { IfSome result (λ bytes. bytes ≡ []) }
    {
        Bytes::with_capacity(*self.buffer.allocator(), size as usize).ok()
    }

    /// Why no message comes where the source is at its end and none stands at the front.
    pub fn halt_at_end(&self) -> Halt
        ensures why { result ≡ halt_at_end self.now }
        ensures other { result ≢ Halt.Failed }
    {
        if self.bytes().is_empty() {
            Halt::End
        } else {
            Halt::Bad
        }
    }

    /// Uses this many bytes from the front; there are as many.
    pub fn skip(&mut self, count: usize)
        requires { count ≤ length self.old }
        ensures { self.new ≡ drop count self.old }
    {
        self.start += count;
    }

    /// Reads once, after the bytes that are read ahead, which leave room in the buffer. Says how many bytes came: 0 is
    /// the end of the source.
    ///
    /// # Errors
    ///
    /// The source failed. What is read ahead stays.
    pub fn refill<S: Source>(&mut self, source: &mut S) -> Result<usize, Failed>
        requires { length self.old < BUFFER_BYTES }
        ensures came { ReadsOnce S.left S.gives source.old source.new self.old self.new }
        ensures amount { IfOk result (λ n. length self.new ≡ length self.old + n) }
        ensures end { result ≡ Ok 0 → IsAtEnd (S.left source.new) }
        ensures failed { OnErr result (self.new ≡ self.old) }
        ensures counts { S.faults source.old ≤ S.faults source.new }
        ensures faultless { OnOk result (S.faults source.new ≡ S.faults source.old) }
        ensures cause { OnErr result (Rises (S.faults source.old) (S.faults source.new)) }
        ensures stays { S.is_open source.new ≡ S.is_open source.old }
        ensures work { work (S.reads source.new) self.new ≤ work (S.reads source.old) self.old }
        ensures nearer { IfOk result (λ n. 0 < n →
            work (S.reads source.new) self.new < work (S.reads source.old) self.old) }
    {
        let (start, end) = (self.start, self.end);
        move_to_front(self.buffer.as_mut_slice(), start, end);
        self.start = 0;
        self.end = end - start;
        let count = read_behind(source, self.buffer.as_mut_slice(), end - start)?;
        self.end += count;
        Ok(count)
    }

    // Reads once where nothing is read ahead.
    fn fill<S: Source>(&mut self, source: &mut S) -> Result<(), Halt>
        ensures came { ReadsAhead S.left S.gives source.old source.new self.old self.new }
        ensures some { OnOk result (0 < length self.new) }
        ensures none { OnErr result (self.new ≡ []) }
        ensures cut { IfErr result (IsCut (S.left source.new)) }
        ensures counts { S.faults source.old ≤ S.faults source.new }
        ensures faults { Counted result (S.faults source.old) (S.faults source.new) }
        ensures stays { S.is_open source.new ≡ S.is_open source.old }
        ensures work { work (S.reads source.new) self.new ≤ work (S.reads source.old) self.old }
    {
        if !self.bytes().is_empty() {
            return Ok(());
        }
        match self.refill(source) {
            Ok(0) => Err(Halt::Bad),
            Ok(_) => Ok(()),
            Err(Failed) => Err(Halt::Failed),
        }
    }

    /// Reads a text of this length to its end, and adds it to what is kept, which is empty. Where nothing is to be
    /// kept, or memory is refused, it throws the text away. The source is read only while bytes of the text are
    /// missing.
    ///
    /// # Errors
    ///
    /// The source ended or failed before the text's end; fewer bytes came than it has.
    pub fn read_text<S: Source>(
        &mut self,
        source: &mut S,
        size: u64,
        room: Option<Bytes>,
    ) -> Result<Option<Bytes>, Halt>
        requires { IfSome room (λ bytes. bytes ≡ []) }
        ensures came { (piece : List ℕ) × Comes S.left S.gives (LacksText self.old size) source.old source.new piece
            × ReadsText IsAllOf (self.old ++ piece) size self.new (S.left source.new) result }
        ensures counts { S.faults source.old ≤ S.faults source.new }
        ensures faults { Counted result (S.faults source.old) (S.faults source.new) }
        ensures stays { S.is_open source.new ≡ S.is_open source.old }
        ensures work { work (S.reads source.new) self.new ≤ work (S.reads source.old) self.old }
    {
        let mut missing = size as usize;
        let mut kept = room;
        while missing > 0 {
            self.fill(source)?;
            let pending = self.bytes();
            let count = pending.len().min(missing);
            let (text, _) = pending.split_at(count);
            kept = extended(kept, text);
            self.skip(count);
            missing -= count;
        }
        Ok(kept)
    }

    /// Reads a body of this length to its end. No memory is taken for one that is too long to be kept. The source is
    /// read only while bytes of the body are missing.
    ///
    /// # Errors
    ///
    /// `Bad` where the source ended inside the body, `Failed` where it failed there; fewer bytes came than it has.
    pub fn read_body<S: Source>(&mut self, source: &mut S, size: u64) -> Result<Body, Halt>
        ensures came { (piece : List ℕ) × Comes S.left S.gives (LacksText self.old size) source.old source.new piece
            × ReadsText IsBody (self.old ++ piece) size self.new (S.left source.new) result }
        ensures counts { S.faults source.old ≤ S.faults source.new }
        ensures faults { Counted result (S.faults source.old) (S.faults source.new) }
        ensures stays { S.is_open source.new ≡ S.is_open source.old }
        ensures work { work (S.reads source.new) self.new ≤ work (S.reads source.old) self.old }
    {
        if size > BODY_BYTES {
            self.read_text(source, size, None)?;
            return Ok(Body::TooLong(size));
        }
        let room = self.room_for(size);
        match self.read_text(source, size, room)? {
            Some(bytes) => Ok(Body::Whole(bytes)),
            None => Ok(Body::NoRoom),
        }
    }
}

// The text with more bytes, where memory isn't refused.
fn extended(kept: Option<Bytes>, text: &[u8]) -> Option<Bytes>
    ensures { IfSome result (λ new. IsSomeAnd kept (λ old. new ≡ old ++ text.now)) }
{
    let mut bytes = kept?;
    bytes.extend_from_slice(text).ok()?;
    Some(bytes)
}

// Moves a part of a buffer to its front. One that stands there is left alone: bytes that come in pieces are moved once,
// and not at each piece.
fn move_to_front(buffer: &mut [u8], start: usize, end: usize)
    requires { (start ≤ end) × (end ≤ length buffer.old) }
    ensures front { take (end - start) buffer.new ≡ slice_range buffer.old start end }
    ensures length { length buffer.new ≡ length buffer.old }
{
    if start > 0 {
        buffer.copy_within(start..end, 0);
    }
}

// Reads once into a buffer, after the bytes that it keeps at its front.
#[tactic(auto, using(crate::proofs::Buffers::read_once, crate::proofs::Buffers::failed_once))]
fn read_behind<S: Source>(source: &mut S, buffer: &mut [u8], kept: usize) -> Result<usize, Failed>
    requires { kept < length buffer.old }
    ensures came { IfOk result (λ n. ReadsOnce S.left S.gives source.old source.new
        (take kept buffer.old) (take (kept + n) buffer.new)) }
    ensures within { IfOk result (λ n. kept + n ≤ length buffer.old) }
    ensures end { result ≡ Ok 0 → IsAtEnd (S.left source.new) }
    ensures failed { OnErr result (ReadsOnce S.left S.gives source.old source.new
        (take kept buffer.old) (take kept buffer.new)) }
    ensures same { OnErr result (take kept buffer.new ≡ take kept buffer.old) }
    ensures counts { S.faults source.old ≤ S.faults source.new }
    ensures faultless { OnOk result (S.faults source.new ≡ S.faults source.old) }
    ensures cause { OnErr result (Rises (S.faults source.old) (S.faults source.new)) }
    ensures stays { S.is_open source.new ≡ S.is_open source.old }
    ensures reads { S.reads source.new ≤ S.reads source.old }
    ensures nearer { IfOk result (λ n. 0 < n → S.reads source.new < S.reads source.old) }
{
    source.read(&mut buffer[kept..])
}
