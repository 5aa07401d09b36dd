//! The next peer of a listener, past those that are gone and through a time in which the system is short of room.

use std::io::ErrorKind;
use std::net::{TcpListener, TcpStream};
use std::rt::Clock;
use std::time::Duration;
use std::{io, thread};

/// How often at most a listener is asked for one peer.
const TRIES: u64 = 1_000_000;

/// How long is waited where the system is short of room, in milliseconds.
const WAIT_MS: u64 = 10;

/// How often is waited so for one peer: 10 seconds in all.
const WAITS: u64 = 1_000;

/// Why a listener gave no peer.
#[derive(Clone, Copy, Debug, PartialEq, Eq)]
enum Missed {
    /// Something about that peer alone, which is gone, or a signal.
    Peer,
    /// Descriptors or memory of the system are short.
    Room,
    /// The listener itself.
    Listener,
}

// What an error of the system says, by its number (accept(2) and errno(3) of Linux): what isn't named here is the
// listener's.
fn cause_of(error: &io::Error) -> Missed {
    match error.raw_os_error() {
        // EINTR, EPROTO, ECONNABORTED
        Some(4 | 71 | 103) => Missed::Peer,
        // ENONET, ENOPROTOOPT, ENETDOWN, ENETUNREACH, EHOSTDOWN, EHOSTUNREACH: errors of the network that wait at a
        // new connection
        Some(64 | 92 | 100 | 101 | 112 | 113) => Missed::Peer,
        // ENOMEM, ENFILE, EMFILE, ENOBUFS
        Some(12 | 23 | 24 | 105) => Missed::Room,
        _ => Missed::Listener,
    }
}

/// The stream of the next peer. A peer that was gone before it is taken is passed over at once. Where descriptors or
/// memory of the system are short, it is tried again after 10 milliseconds, for 10 seconds.
///
/// # Errors
///
/// The system's, where the listener itself failed or the system stayed short.
pub fn next_peer<R: Clock>(system: &R, listener: &TcpListener) -> io::Result<TcpStream> {
    let mut waits = 0;
    for _ in 0..TRIES {
        let error = match listener.accept() {
            Ok((stream, _)) => return Ok(stream),
            Err(error) => error,
        };
        match cause_of(&error) {
            Missed::Peer => {}
            Missed::Room if waits < WAITS => {
                waits += 1;
                thread::sleep(system, Duration::from_millis(WAIT_MS));
            }
            Missed::Room | Missed::Listener => return Err(error),
        }
    }
    Err(io::Error::from(ErrorKind::ConnectionAborted))
}
