//! A source over a reader and a sink over a writer: standard input and output, files, sockets.

ghost use Rattle.std.specs.Prelude.{◌≡◌, ◌<◌, ◌≤◌, ◌^◌, ◌-◌, [], length, take, true, false, IsErr, IfOk, OnOk, OnErr};
ghost use Rattle.std.specs.Prelude.{Ok, None};
ghost use Rattle.std.specs.Io.KnownBytes.{ReadConsumes, WriteAppends, Keeps};
ghost use Rattle.call_log.specs.Counts.{Rises, one_more};
ghost use Rattle.desk_io.specs.Streams.{after_read, GivesOnce};

use crate::{Failed, Sink, Source};
use std::io;
use std::io::{ErrorKind, Read, Write};
use std::marker::Model;

/// A source over a reader. It tells nothing of its bytes, and counts each error as a fault. A read that was interrupted
/// is made again.
#[derive(Debug, Drop)]
pub struct StreamSource<R: Read + Drop> {
    stream: Option<R>,
    faults: u64,
    reads: u64,
}

impl<R: Read + Drop> Model for StreamSource<R> {
    ghost use Rattle.std.specs.Prelude.{is_some};
    ghost use Rattle.desk_io.specs.Streams.{StreamSourceState};

    ghost Value = { StreamSourceState };

    ghost view = { λ s. record { is_open = is_some s.stream; faults = s.faults; reads = s.reads } };
}

// Reads once, and again after an interrupt.
fn read_some<R: Read>(stream: &mut R, piece: &mut [u8]) -> io::Result<usize>
    ensures { IfOk result (λ n. n ≤ length piece.old) }
{
    for _ in 0..u64::MAX {
        match stream.read(piece) {
            Err(error) if error.kind() == ErrorKind::Interrupted => {}
            answer => return answer,
        }
    }
    Err(io::Error::from(ErrorKind::Interrupted))
}

// Writes once, and again after an interrupt.
fn write_some<W: Write>(stream: &mut W, piece: &[u8]) -> io::Result<usize>
    ensures { IfOk result (λ n. n ≤ length piece.now) }
{
    for _ in 0..u64::MAX {
        match stream.write(piece) {
            Err(error) if error.kind() == ErrorKind::Interrupted => {}
            answer => return answer,
        }
    }
    Err(io::Error::from(ErrorKind::Interrupted))
}

impl<R: Read + Drop> StreamSource<R> {
    /// A source that reads from this reader, at most 2^64 - 1 times.
    pub fn new(stream: R) -> StreamSource<R>
        ensures { result ≡ record { is_open = true; faults = 0; reads = 2 ^ 64 - 1 } }
    {
        StreamSource {
            stream: Some(stream),
            faults: 0,
            reads: u64::MAX,
        }
    }
}

impl<R: Read + Drop> Source for StreamSource<R> {
    ghost left = { λ _. None };

    ghost faults = { λ source. source.faults };

    ghost reads = { λ source. source.reads };

    ghost is_open = { λ source. source.is_open };

    ghost gives = { λ before bytes after. GivesOnce before bytes after };

    fn read(&mut self, piece: &mut [u8]) -> Result<usize, Failed>
        ensures ended { self.old.is_open ≡ false → result ≡ Ok 0 }
        ensures spent { self.old.is_open ≡ true → self.old.reads ≡ 0 → IsErr result }
        ensures gave { IfOk result (λ n. self.new ≡ after_read self.old n) }
        ensures failed { OnErr result (self.new ≡ record self.old { faults = one_more self.old.faults }) }

        ensures bytes { ReadConsumes None None result piece.new }
        ensures within { IfOk result (λ n. n ≤ length piece.old) }
        ensures gives { IfOk result (λ n. GivesOnce self.old (take n piece.new) self.new) }
        ensures gives_none { OnErr result (GivesOnce self.old [] self.new) }
        ensures counts { self.old.faults ≤ self.new.faults }
        ensures faultless { OnOk result (self.new.faults ≡ self.old.faults) }
        ensures cause { OnErr result (Rises self.old.faults self.new.faults) }
        ensures stays { self.new.is_open ≡ self.old.is_open }
        ensures reads { self.new.reads ≤ self.old.reads }
        ensures nearer { IfOk result (λ n. 0 < n → self.new.reads < self.old.reads) }
    {
        let Some(stream) = &mut self.stream else {
            return Ok(0);
        };
        if self.reads > 0 {
            if let Ok(count) = read_some(stream, piece) {
                if count > 0 {
                    self.reads -= 1;
                }
                return Ok(count);
            }
        }
        self.faults = self.faults.saturating_add(1);
        Err(Failed)
    }

    /// Drops the reader. Later reads give no bytes.
    fn end(&mut self)
        ensures closed { self.new ≡ record self.old { is_open = false } }

        ensures bytes { Keeps None None }
        ensures counts { self.new.faults ≡ self.old.faults }
        ensures closes { self.new.is_open ≡ false }
        ensures reads { self.new.reads ≤ self.old.reads }
    {
        self.stream = None;
    }
}

/// A sink over a writer. It tells nothing of its bytes, and counts each error as a fault; so it does
/// where the writer takes nothing of a piece that isn't empty. A write that was interrupted is made again.
#[derive(Debug, Drop)]
pub struct StreamSink<W: Write + Drop> {
    stream: Option<W>,
    faults: u64,
}

impl<W: Write + Drop> Model for StreamSink<W> {
    ghost use Rattle.std.specs.Prelude.{is_some};
    ghost use Rattle.desk_io.specs.Streams.{StreamSinkState};

    ghost Value = { StreamSinkState };

    ghost view = { λ s. record { is_open = is_some s.stream; faults = s.faults } };
}

impl<W: Write + Drop> StreamSink<W> {
    /// A sink that writes to this writer.
    pub fn new(stream: W) -> StreamSink<W>
        ensures { result ≡ record { is_open = true; faults = 0 } }
    {
        StreamSink {
            stream: Some(stream),
            faults: 0,
        }
    }
}

impl<W: Write + Drop> Sink for StreamSink<W> {
    ghost taken = { λ _. None };

    ghost faults = { λ sink. sink.faults };

    ghost is_open = { λ sink. sink.is_open };

    fn write(&mut self, piece: &[u8]) -> Result<usize, Failed>
        ensures ended { self.old.is_open ≡ false → IsErr result }
        ensures took { OnOk result (self.new ≡ self.old) }
        ensures failed { OnErr result (self.new ≡ record self.old { faults = one_more self.old.faults }) }

        ensures bytes { WriteAppends None None result piece.now }
        ensures within { IfOk result (λ n. n ≤ length piece.now) }
        ensures some { IfOk result (λ n. 0 < length piece.now → 0 < n) }
        ensures counts { self.old.faults ≤ self.new.faults }
        ensures faultless { OnOk result (self.new.faults ≡ self.old.faults) }
        ensures cause { OnErr result (Rises self.old.faults self.new.faults) }
        ensures stays { self.new.is_open ≡ self.old.is_open }
    {
        if let Some(stream) = &mut self.stream {
            if let Ok(count) = write_some(stream, piece) {
                if count > 0 || piece.is_empty() {
                    return Ok(count);
                }
            }
        }
        self.faults = self.faults.saturating_add(1);
        Err(Failed)
    }

    /// Drops the writer. Later writes fail.
    fn end(&mut self)
        ensures closed { self.new ≡ record self.old { is_open = false } }

        ensures bytes { Keeps None None }
        ensures counts { self.new.faults ≡ self.old.faults }
        ensures closes { self.new.is_open ≡ false }
    {
        self.stream = None;
    }
}
