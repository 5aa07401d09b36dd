//! A source and a sink in memory. They fail at the calls that they are told to, and else do what they can.

ghost use Rattle.std.specs.Prelude.{◌≡◌, ℕ, ◌<◌, ◌≤◌, ◌↔◌, ◌⊎◌, ◌++◌, [], List, length, take, drop, min, true, false};
ghost use Rattle.std.specs.Prelude.{IsTrue, IsErr, IfOk, OnOk, OnErr, Some};
ghost use Rattle.std.specs.Io.KnownBytes.{ReadConsumes, WriteAppends, Keeps};
ghost use Rattle.call_log.specs.Counts.{Rises};
ghost use Rattle.call_log.specs.Calls.{no_calls, FailsNext, passed, failed};
ghost use Rattle.desk_io.specs.Memory.{given_length, after_giving, GivesOnce, room, WriteFails, after_taking};

use crate::{Failed, NoMemory, Sink, Source};
use call_log::CallLog;
use std::alloc::Global;
use std::marker::Model;

/// A source that gives bytes from memory.
#[derive(Debug, Drop)]
pub struct MemSource {
    bytes: Vec<u8>,
    at: usize,
    greatest: usize,
    log: CallLog,
    is_open: bool,
}

impl Model for MemSource {
    ghost use Rattle.std.specs.Prelude.{◌<◌, ◌≤◌, length, drop};
    ghost use Rattle.desk_io.specs.Memory.{SourceState};

    ghost Value = { SourceState };

    ghost view = { λ s. record {
      left = drop s.at s.bytes.items;
      greatest = s.greatest;
      calls = s.log;
      is_open = s.is_open;
    } };

    ghost invariant = { λ s. (s.at ≤ length s.bytes.items) × (0 < s.greatest) };
}

impl MemSource {
    /// A source of these bytes, of which one read gives at most `greatest`. Its calls are counted
    /// from 1, and those that `fails` lists fail.
    ///
    /// # Errors
    ///
    /// Memory was refused.
    pub fn new(
        alloc: Global,
        bytes: &[u8],
        greatest: usize,
        fails: &[u64],
    ) -> Result<MemSource, NoMemory>
        requires { 0 < greatest }
        ensures { IfOk result (λ source.
            source ≡ record { left = bytes.now; greatest = greatest; calls = no_calls fails.now; is_open = true }) }
    {
        Ok(MemSource {
            bytes: Vec::from_slice(alloc, bytes)?,
            at: 0,
            greatest,
            log: CallLog::new(alloc, fails)?,
            is_open: true,
        })
    }
}

impl Source for MemSource {
    ghost left = { λ source. Some source.left };

    ghost faults = { λ source. source.calls.faults };

    ghost reads = { λ source. length source.left };

    ghost is_open = { λ source. source.is_open };

    ghost gives = { λ before bytes after. GivesOnce before bytes after };

    fn read(&mut self, piece: &mut [u8]) -> Result<usize, Failed>
        ensures fails { IsErr result ↔ FailsNext self.old.calls }
        ensures amount { IfOk result (λ n. n ≡ given_length self.old (length piece.old)) }
        ensures given { IfOk result (λ n. self.new ≡ after_giving self.old n) }
        ensures piece { IfOk result (λ n. piece.new ≡ take n self.old.left ++ drop n piece.old) }
        ensures failed { OnErr result (self.new ≡ record self.old { calls = failed self.old.calls }) }
        ensures untouched { OnErr result (piece.new ≡ piece.old) }

        ensures bytes { ReadConsumes (Some self.old.left) (Some self.new.left) result piece.new }
        ensures within { IfOk result (λ n. n ≤ length piece.old) }
        ensures gives { IfOk result (λ n. GivesOnce self.old (take n piece.new) self.new) }
        ensures gives_none { OnErr result (GivesOnce self.old [] self.new) }
        ensures counts { self.old.calls.faults ≤ self.new.calls.faults }
        ensures faultless { OnOk result (self.new.calls.faults ≡ self.old.calls.faults) }
        ensures cause { OnErr result (Rises self.old.calls.faults self.new.calls.faults) }
        ensures stays { self.new.is_open ≡ self.old.is_open }
        ensures reads { length self.new.left ≤ length self.old.left }
        ensures nearer { IfOk result (λ n. 0 < n → length self.new.left < length self.old.left) }
    {
        if self.log.fails_next() {
            self.log.fail();
            return Err(Failed);
        }
        let (_, left) = self.bytes.split_at(self.at);
        let count = self.greatest.min(piece.len()).min(left.len());
        let (given, _) = left.split_at(count);
        piece[..count].copy_from_slice(given);
        self.at += count;
        self.log.pass();
        Ok(count)
    }

    /// It notes that it was ended. Later reads give its bytes as before.
    fn end(&mut self)
        ensures closed { self.new ≡ record self.old { is_open = false } }

        ensures bytes { Keeps (Some self.old.left) (Some self.new.left) }
        ensures counts { self.new.calls.faults ≡ self.old.calls.faults }
        ensures closes { self.new.is_open ≡ false }
        ensures reads { length self.new.left ≤ length self.old.left }
    {
        self.is_open = false;
    }
}

/// A sink that takes bytes into memory, which it has from the start.
#[derive(Debug, Drop)]
pub struct MemSink {
    bytes: Vec<u8>,
    capacity: usize,
    log: CallLog,
    is_open: bool,
}

impl Model for MemSink {
    ghost use Rattle.std.specs.Prelude.{◌≤◌, length, vec_capacity};
    ghost use Rattle.desk_io.specs.Memory.{SinkState};

    ghost Value = { SinkState };

    ghost view = { λ s. record { taken = s.bytes.items; capacity = s.capacity; calls = s.log; is_open = s.is_open } };

    ghost invariant = { λ s. (length s.bytes.items ≤ s.capacity) × (s.capacity ≤ vec_capacity s.bytes) };
}

impl MemSink {
    /// A sink that takes at most this many bytes. Its calls are counted from 1, and those that `fails`
    /// lists fail.
    ///
    /// # Errors
    ///
    /// Memory was refused.
    pub fn new(alloc: Global, capacity: usize, fails: &[u64]) -> Result<MemSink, NoMemory>
        ensures { IfOk result (λ sink.
            sink ≡ record { taken = []; capacity = capacity; calls = no_calls fails.now; is_open = true }) }
    {
        Ok(MemSink {
            bytes: Vec::with_capacity(alloc, capacity)?,
            capacity,
            log: CallLog::new(alloc, fails)?,
            is_open: true,
        })
    }

    /// The bytes that it took.
    pub fn bytes(&self) -> &[u8]
        ensures { result.now ≡ self.now.taken }
    {
        &self.bytes
    }
}

impl Sink for MemSink {
    ghost taken = { λ sink. Some sink.taken };

    ghost faults = { λ sink. sink.calls.faults };

    ghost is_open = { λ sink. sink.is_open };

    fn write(&mut self, piece: &[u8]) -> Result<usize, Failed>
        ensures fails { IsErr result ↔ WriteFails self.old (length piece.now) }
        ensures amount { IfOk result (λ n. n ≡ min (length piece.now) (room self.old)) }
        ensures taken { IfOk result (λ n. self.new ≡ after_taking self.old (take n piece.now)) }
        ensures failed { OnErr result (self.new ≡ record self.old { calls = failed self.old.calls }) }

        ensures bytes { WriteAppends (Some self.old.taken) (Some self.new.taken) result piece.now }
        ensures within { IfOk result (λ n. n ≤ length piece.now) }
        ensures some { IfOk result (λ n. 0 < length piece.now → 0 < n) }
        ensures counts { self.old.calls.faults ≤ self.new.calls.faults }
        ensures faultless { OnOk result (self.new.calls.faults ≡ self.old.calls.faults) }
        ensures cause { OnErr result (Rises self.old.calls.faults self.new.calls.faults) }
        ensures stays { self.new.is_open ≡ self.old.is_open }
    {
        let room = self.capacity - self.bytes.len();
        let count = piece.len().min(room);
        let is_full = count == 0 && !piece.is_empty();
        if is_full || self.log.fails_next() {
            self.log.fail();
            return Err(Failed);
        }
        let (front, _) = piece.split_at(count);
        self.bytes.extend_from_slice(front).unwrap();
        self.log.pass();
        Ok(count)
    }

    /// It notes that it was ended. Later writes take bytes as before.
    fn end(&mut self)
        ensures closed { self.new ≡ record self.old { is_open = false } }

        ensures bytes { Keeps (Some self.old.taken) (Some self.new.taken) }
        ensures counts { self.new.calls.faults ≡ self.old.calls.faults }
        ensures closes { self.new.is_open ≡ false }
    {
        self.is_open = false;
    }
}
