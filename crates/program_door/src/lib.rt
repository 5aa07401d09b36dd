//! The door of the program's command `serve`: a door on a port that says where it is once it is bound, and is given up
//! with the last link that is wanted.
#![tactic(auto)]

ghost use Rattle.std.specs.Prelude.{◌≡◌, ◌-◌, ◌<◌, ◌≤◌, None};
ghost use Rattle.desk_io.specs.Doors.{LinksAfter, FaultsAfter};
ghost use Rattle.call_log.specs.Counts.{one_more};
ghost use Rattle.desk_io.specs.declared.doors.Next.TheVariants as answers;
ghost use Rattle.program_door.specs.Serving.{ServesOnce};

use desk_io::{Door, HalfStream, Next, StreamSink, StreamSource, TcpDoor};
use std::io;
use std::io::Write;
use std::marker::Model;
use std::net::{Net, TcpListener, TcpStream};
use std::rt::Clock;

/// A door on a port, for as many links as are wanted of it.
///
/// At its first call it binds the port, and says so on its writer: `mpc_cli: serving at 127.0.0.1:8017`. With the last
/// link that is wanted it gives the port up, so that who calls later is refused at once and waits for nobody.
#[derive(Debug, Drop)]
pub struct ServingDoor<
    R: Net<Listener = TcpListener, Stream = TcpStream> + Clock + Copy,
    W: Write + Drop,
> {
    door: Option<TcpDoor<R>>,
    wanted: u64,
    faults: u64,
    last_error: Option<io::Error>,
    is_told: bool,
    says: W,
}

impl<R: Net<Listener = TcpListener, Stream = TcpStream> + Clock + Copy, W: Write + Drop> Model
    for ServingDoor<R, W> {
    ghost use Rattle.std.specs.Prelude.{◌≡◌, is_some, nat_lt};
    ghost use Rattle.program_door.specs.Serving.{ServingState};

    ghost Value = { ServingState };

    ghost view = { λ it. record { wanted = it.wanted; faults = it.faults } };

    // The port is held exactly as long as a link is wanted.
    ghost invariant = { λ it. is_some it.door ≡ nat_lt 0 it.wanted };
}

impl<
    R: Net<Listener = TcpListener, Stream = TcpStream> + Clock + Copy,
    W: Write + Drop,
> ServingDoor<R, W> {
    /// This door for this many links, which says where it serves on this writer.
    pub fn new(door: TcpDoor<R>, wanted: u64, says: W) -> ServingDoor<R, W>
        ensures { result ≡ record { wanted = wanted; faults = 0 } }
    {
        let door = if wanted > 0 { Some(door) } else { None };
        ServingDoor {
            door,
            wanted,
            faults: 0,
            last_error: None,
            is_told: false,
            says,
        }
    }

    // Binds the port, and says so the first time. What can't be said is left out.
    fn bind(&mut self) -> io::Result<()>
        ensures { self.new ≡ self.old }
    {
        let Some(door) = &mut self.door else {
            return Ok(());
        };
        let place = door.bind()?;
        if !self.is_told {
            self.is_told = true;
            let _ = writeln!(self.says, "mpc_cli: serving at {place}");
        }
        Ok(())
    }

    /// Why a call failed the last time, in the system's words; None where none failed.
    pub fn last_error(&self) -> Option<io::Error> {
        self.last_error
    }

    // The answer of a call in which the door failed, which is counted, with its reason kept where there is one.
    fn fail<I, O>(&mut self, error: Option<io::Error>) -> Next<I, O>
        ensures failed { result ≡ answers.Failed }
        ensures counted { self.new ≡ record self.old { faults = one_more self.old.faults } }
        ensures counts { self.old.faults ≤ self.new.faults }
    {
        self.faults = self.faults.saturating_add(1);
        self.last_error = error;
        Next::Failed
    }

    // One link fewer is wanted, and after the last one the port is given up.
    fn count_link(&mut self)
        requires { 0 < self.old.wanted }
        ensures { self.new ≡ record self.old { wanted = self.old.wanted - 1 } }
    {
        if self.wanted == 1 {
            self.door = None;
        }
        self.wanted -= 1;
    }
}

impl<
    R: Net<Listener = TcpListener, Stream = TcpStream> + Clock + Copy + Send + Sync,
    W: Write + Drop,
> Door for ServingDoor<R, W> {
    type In = StreamSource<HalfStream<R>>;

    type Out = StreamSink<HalfStream<R>>;

    ghost links = { λ _. None };

    ghost faults = { λ door. door.faults };

    fn next(&mut self) -> Next<StreamSource<HalfStream<R>>, StreamSink<HalfStream<R>>>
        ensures serves { ServesOnce self.old self.new result }

        ensures links { LinksAfter None None result }
        ensures counts { self.old.faults ≤ self.new.faults }
        ensures cause { FaultsAfter self.old.faults self.new.faults result }
    {
        if self.wanted == 0 {
            return Next::Shut;
        }
        if let Err(error) = self.bind() {
            return self.fail(Some(error));
        }
        let Some(door) = &mut self.door else {
            unreachable!();
        };
        match door.next() {
            Next::Link(source, sink) => {
                self.count_link();
                Next::Link(source, sink)
            }
            Next::Shut => unreachable!(),
            Next::Failed => {
                let error = door.last_error();
                self.fail(error)
            }
            Next::NoMemory => Next::NoMemory,
        }
    }
}
