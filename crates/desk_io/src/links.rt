//! The two halves of a link on a port, and how long its peer may take. Nothing of what it carries is known to a proof:
//! that it carries the bytes of its peer is trusted.

use crate::NoMemory;
use std::alloc::Global;
use std::io;
use std::io::{ErrorKind, Read, Write};
use std::net::{Shutdown, TcpStream};
use std::rt::Clock;
use std::sync::Arc;
use std::sync::atomic::{AtomicU64, Ordering};
use std::time::{Duration, Instant};

/// How long a read or a write of a link waits for its peer, in seconds.
const PEER_SILENCE: u64 = 60;

/// How long a peer may take for what it is answered next, and for each piece of an answer, in seconds.
const PEER_TURN: u64 = 600;

/// How long a stream that is being closed waits for a byte, in seconds.
const CLOSING_SILENCE: u64 = 1;

/// How often a stream that is being closed is read, 4,096 bytes or fewer at a time: 16 MiB at most.
const CLOSING_READS: u64 = 4_096;

/// How long the peer of a link may take. What takes longer fails at the link.
#[derive(Clone, Copy, Debug, PartialEq, Eq)]
pub struct LinkLimits {
    /// How long one read or one write waits.
    pub silence: Duration,
    /// How long a peer has that sends or takes a byte now and then: from the first byte that was read since the link
    /// came or since its last answer, and from the start of each piece that is written. It is looked at between two
    /// reads and between two writes, so that one silence more may go by.
    pub turn: Duration,
}

impl LinkLimits {
    /// One minute of silence, and ten minutes for a turn.
    pub fn usual() -> LinkLimits {
        LinkLimits {
            silence: Duration::from_secs(PEER_SILENCE),
            turn: Duration::from_secs(PEER_TURN),
        }
    }
}

// What the halves of a link share.
#[derive(Debug, Drop)]
struct Link<R: Clock + Copy> {
    stream: TcpStream,
    system: R,
    turn: Duration,
    // How many pieces were written whole.
    answers: AtomicU64,
}

impl<R: Clock + Copy> Link<R> {
    // Whether a turn that began then has lasted too long.
    fn check(&self, began: Instant) -> io::Result<()> {
        if began.elapsed(&self.system)? < self.turn {
            Ok(())
        } else {
            Err(io::Error::from(ErrorKind::TimedOut))
        }
    }

    // Reads and throws away what still comes.
    fn discard(&self) -> io::Result<()> {
        let began = Instant::now(&self.system)?;
        let mut stream = &self.stream;
        let mut piece = [0u8; 4_096];
        for _ in 0..CLOSING_READS {
            if stream.read(&mut piece)? == 0 {
                return Ok(());
            }
            self.check(began)?;
        }
        Ok(())
    }

    // Ends what is written, and waits for the peer's end before the stream is closed. A system that closes a stream of
    // which bytes weren't read resets it, and throws away what the peer hasn't got yet, the last answers among it.
    // Where the system refuses a limit to the waiting, nothing is waited for.
    fn close(self) -> io::Result<()> {
        self.stream.shutdown(Shutdown::Write)?;
        let silence = Duration::from_secs(CLOSING_SILENCE);
        self.stream.set_read_timeout(Some(silence))?;
        self.discard()
    }
}

/// One of two halves that share a stream. The stream is closed once both are dropped.
///
/// It is closed in two steps, so that the peer gets all that was written: the peer sees the end, and what it still
/// sends is thrown away until it ends too, sends nothing for a second, was read 4,096 times, or a turn is over.
#[derive(Debug)]
pub struct HalfStream<R: Clock + Copy> {
    link: Arc<Link<R>, Global>,
    // When the turn began that this half is in.
    began: Option<Instant>,
    // How many pieces had been written when this half was read last.
    answered: u64,
}

impl<R: Clock + Copy> HalfStream<R> {
    fn new(link: Arc<Link<R>, Global>) -> HalfStream<R> {
        HalfStream {
            link,
            began: None,
            answered: 0,
        }
    }
}

impl<R: Clock + Copy> Drop for HalfStream<R> {
    fn drop(self) {
        let HalfStream {
            link,
            began: _,
            answered: _,
        } = self;
        if let Some(link) = Arc::into_inner(link) {
            let _ = link.close();
        }
    }
}

impl<R: Clock + Copy> Read for HalfStream<R> {
    fn read(&mut self, piece: &mut [u8]) -> io::Result<usize> {
        let answered = self.link.answers.load(Ordering::SeqCst);
        if answered != self.answered {
            self.answered = answered;
            self.began = None;
        }
        if let Some(began) = self.began {
            self.link.check(began)?;
        }
        let mut stream = &self.link.stream;
        let count = stream.read(piece)?;
        if count > 0 && self.began.is_none() {
            self.began = Some(Instant::now(&self.link.system)?);
        }
        Ok(count)
    }
}

impl<R: Clock + Copy> Write for HalfStream<R> {
    fn write(&mut self, piece: &[u8]) -> io::Result<usize> {
        match self.began {
            Some(began) => self.link.check(began)?,
            None => self.began = Some(Instant::now(&self.link.system)?),
        }
        let mut stream = &self.link.stream;
        let count = stream.write(piece)?;
        if count == piece.len() {
            self.began = None;
            self.link.answers.fetch_add(1, Ordering::SeqCst);
        }
        Ok(count)
    }

    fn flush(&mut self) -> io::Result<()> {
        Ok(())
    }
}

// Sets what a link needs of the system.
fn prepare(stream: &TcpStream, limits: LinkLimits) -> io::Result<()> {
    stream.set_read_timeout(Some(limits.silence))?;
    stream.set_write_timeout(Some(limits.silence))?;
    // An answer that is longer than a buffer is written in two pieces. The second doesn't wait until the peer has
    // acknowledged the first, which takes 40 milliseconds; where the system refuses that, answers come later, and
    // nothing else.
    let _ = stream.set_nodelay(true);
    Ok(())
}

/// Why no link is made of a stream.
#[derive(Clone, Copy, Debug)]
pub enum NoLink {
    /// The system refused a limit, with these words.
    Refused(io::Error),
    /// Memory was refused.
    NoMemory,
}

impl From<NoMemory> for NoLink {
    fn from(_: NoMemory) -> NoLink {
        NoLink::NoMemory
    }
}

impl From<io::Error> for NoLink {
    fn from(error: io::Error) -> NoLink {
        NoLink::Refused(error)
    }
}

// The two halves of what they share.
fn share<R: Clock + Copy>(
    alloc: Global,
    link: Link<R>,
) -> Result<(HalfStream<R>, HalfStream<R>), NoMemory> {
    let link = Arc::new(alloc, link)?;
    let other = Arc::try_clone(&link)?;
    Ok((HalfStream::new(link), HalfStream::new(other)))
}

/// The two halves of a stream: one to read from, and one to write to.
///
/// # Errors
///
/// The system refused a limit, or memory was refused. The stream is dropped.
pub fn halves<R: Clock + Copy>(
    system: R,
    alloc: Global,
    stream: TcpStream,
    limits: LinkLimits,
) -> Result<(HalfStream<R>, HalfStream<R>), NoLink> {
    prepare(&stream, limits)?;
    let link = Link {
        stream,
        system,
        turn: limits.turn,
        answers: AtomicU64::new(0),
    };
    Ok(share(alloc, link)?)
}
