//! A peer on this machine, and the call that serves it.

use crate::calls::call_over_port;
use std::alloc::Global;
use std::io;
use std::io::{ErrorKind, Read, Write};
use std::net::{Ipv4Addr, Net, TcpListener, TcpStream};
use std::rt::Clock;
use std::sync::Wait;
use std::thread::{Threads, join, yield_now};
use testkit_sessions::{Call, Wrong};

/// The port of the program's door.
const PORT: u16 = 8017;

/// How often the peer tries to connect, until the door is bound.
const TRIES: u64 = 1_000_000;

/// How many bytes the peer reads.
pub const ANSWER_BYTES: usize = 222;

/// What came of a call with one link.
#[derive(Drop)]
pub struct Served {
    /// The bytes that the peer was answered; None where it couldn't connect, or fewer came.
    pub answer: Option<[u8; ANSWER_BYTES]>,
    /// How many links came.
    pub links: u64,
}

// The stream to the door, once it is bound.
fn connect<N: Net<Listener = TcpListener, Stream = TcpStream>>(net: &N) -> io::Result<TcpStream> {
    for _ in 0..TRIES {
        if let Ok(stream) = TcpStream::connect(net, (Ipv4Addr::LOCALHOST, PORT)) {
            return Ok(stream);
        }
        yield_now();
    }
    Err(io::Error::from(ErrorKind::TimedOut))
}

// Sends the text, and gives what is answered.
fn ask<N: Net<Listener = TcpListener, Stream = TcpStream>>(
    net: &N,
    text: &str,
) -> io::Result<[u8; ANSWER_BYTES]> {
    let mut peer = connect(net)?;
    peer.write_all(text.as_bytes())?;
    let mut answer = [0u8; ANSWER_BYTES];
    peer.read_exact(&mut answer)?;
    Ok(answer)
}

/// Waits until nobody else has the port, and says whether that came.
pub fn is_free<N: Net<Listener = TcpListener, Stream = TcpStream>>(net: &N) -> bool {
    for _ in 0..TRIES {
        if TcpListener::bind(net, (Ipv4Addr::LOCALHOST, PORT)).is_ok() {
            return true;
        }
        yield_now();
    }
    false
}

/// Calls `top` on three empty disks, with links that come through the port, while a peer sends this text there and
/// reads what is answered.
///
/// # Errors
///
/// What is wrong with the call.
pub fn serve_peer<
    R: Threads + Wait + Sync,
    N: Net<Listener = TcpListener, Stream = TcpStream> + Clock + Copy + Send + Sync,
>(rt: &R, net: N, alloc: Global, call: &Call, text: &str) -> Result<Served, Wrong> {
    let (answer, links) = join(
        rt,
        move || ask(&net, text),
        move || call_over_port(rt, net, alloc, call),
    );
    Ok(Served {
        answer: answer.ok(),
        links: links?,
    })
}
