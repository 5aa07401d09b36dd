//! All that `main` does beside its mirror: it reads the words of the command line, makes the real source, sink, disks,
//! clock and door, hands them and the mirror to `top` of program_top, says on standard error what the operator must
//! know, and ends with the status's number.
//!
//! It stands in a library, so that more than one program can be tried with it. What starts threads and opens sockets
//! comes from `main`, which alone has it, and so does the mirror: only the program itself stands on a database.
#![tactic(auto)]

ghost use Rattle.std.specs.Prelude.{◌≡◌, ℕ, List, map, IfOk, string_bytes, Some};
ghost use Rattle.act_bodies.specs.declared.key.Key.{Key};
ghost use Rattle.std.specs.Iterator.{IsFinite, Drains};
ghost use Rattle.std.specs.Process.{exit_status};
ghost use Rattle.command_ends.specs.Statuses.{number_of};
ghost use Rattle.command_ends.specs.declared.status.Status.{Status};
ghost use Rattle.command_line.specs.Commands.{command_of};

use command_line::{Command, command_of};
use desk_io::{NoMemory, StreamSink, StreamSource, SystemClock, TcpDoor};
use disk_model::{FileDisk, NamedFile};
use item_list::Bytes;
use mirror_store::Mirror;
use program_door::ServingDoor;
use program_top::top::top;
use program_top::{Left, LinkEnds, Status, Words};
use std::alloc::Global;
use std::env;
use std::io::ErrorKind;
use std::net::{Net, TcpListener, TcpStream};
use std::process::ExitCode;
use std::rt::Clock;
use std::sync::Wait;
use std::thread::Threads;
use usage_text::{is_command, usage_text};

/// The file of the current folder in which the office is kept, the journal.
const JOURNAL: &str = "desk.journal2";

/// The file in which it was kept before. It is read, and carried over, where the journal isn't in force.
const FIRST_JOURNAL: &str = "desk.journal";

/// The file in which the register of comets is kept.
const REGISTER: &str = "desk.comets";

/// How much memory is taken and given back at the start, in bytes.
const KEPT: usize = 1 << 22;

/// Takes memory and gives it back at once. The C library returns what is free at the end of its heap to the system
/// where that is more than twice the largest block that was freed so far, and asks for it again, page by page, when the
/// next batch comes. With this block behind it, what one batch used serves the next one.
fn keep_freed_memory(alloc: Global) {
    let _ = Vec::<u8>::with_capacity(alloc, KEPT);
}

/// The words that an iterator gives: all of them, in their order.
///
/// # Errors
///
/// Memory was refused.
pub fn words_in<A: Iterator<Item = String> + Drop>(
    alloc: Global,
    args: A,
) -> Result<Words, NoMemory>
    requires can { A.can_next args }
    requires ends { IsFinite (A.remaining args) }
    ensures { IfOk result (λ words. (taken : List _) × Drains A.next_gives args taken
        × (words ≡ map string_bytes taken)) }
{
    let mut words = Words::new(alloc);
    'words: for word in args {
        words.push(Bytes::from_slice(alloc, word.as_bytes())?)?;
    }
    Ok(words)
}

/// The words of the command line, after the program's name. Where they can't be had, the status says why: a word that
/// isn't UTF-8 is none of the grammar's, and any other error means out of memory.
fn words_of(rt: HostRuntime) -> Result<Words, Status> {
    let args = env::args(&rt).map_err(|error| match error.kind() {
        ErrorKind::InvalidData => Status::Usage,
        _ => Status::NoMemory,
    })?;
    words_in(rt.alloc(), args.skip(1)).map_err(|_| Status::NoMemory)
}

/// The status with which the process ends.
pub fn exit_code(status: &Status) -> ExitCode
    ensures { exit_status result ≡ number_of status.now }
{
    ExitCode::from(status.number())
}

/// How many links are wanted: as many as the words say of `serve`, and none for another command.
fn wanted_links(words: &Words) -> u64
    ensures { (key : Key) (connections : ℕ) → command_of words.now ≡ Some (Command.Serve key connections) →
        result ≡ connections }
{
    match command_of(words) {
        Some(Command::Serve { connections, .. }) => u64::from(connections),
        _ => 0,
    }
}

/// How many links ended so.
fn count_of<I, O>(ends: &LinkEnds<I, O>, left: Left) -> u64 {
    let mut count = 0u64;
    for place in 0..ends.len() {
        if let Some(end) = ends.get(place) {
            if end.left == left {
                count = count.saturating_add(1);
            }
        }
    }
    count
}

/// Tells on standard error how many links ended how, where one came.
fn tell_left<I, O>(rt: HostRuntime, ends: &LinkEnds<I, O>) {
    if ends.len() == 0 {
        return;
    }
    let _ = eprintln!(rt;
        "mpc_cli: left: ended {}, unread {}, enough {}, read fault {}, write fault {}, out of memory {}",
        count_of(ends, Left::Ended),
        count_of(ends, Left::Unread),
        count_of(ends, Left::Enough),
        count_of(ends, Left::ReadFault),
        count_of(ends, Left::WriteFault),
        count_of(ends, Left::NoMemory)
    );
}

/// Tells on standard error why the disk with this file failed the last time, and how often it failed, where it did.
fn tell_disk<F: NamedFile>(rt: HostRuntime, name: &str, disk: &FileDisk<F>) {
    if let Some(error) = disk.last_error() {
        let _ = eprintln!(rt; "mpc_cli: {name}: {error}");
        let _ = eprintln!(rt; "mpc_cli: {name}: the disk failed {} times", disk.faults());
    }
}

/// Tells on standard error the status with which the program ends, where it isn't `Done`.
fn tell_status(rt: HostRuntime, status: &Status) {
    if status.number() != 0 {
        let _ = eprintln!(rt; "mpc_cli: {status}");
    }
}

/// Runs the program over standard input, standard output, the files `desk.journal`, `desk.journal2` and `desk.comets`
/// of the current folder, the system's clock, the port for connections, which are attended in threads, and this mirror.
/// Standard error says when the port is bound, how the links ended, with which status the program ends, and what the
/// system said of a disk or a port that failed.
fn run<
    N: Net<Listener = TcpListener, Stream = TcpStream> + Clock + Copy + Send + Sync,
    R: Threads + Wait + Sync,
    M: Mirror,
>(host: HostRuntime, net: N, rt: &R, words: &Words, mirror: &mut M) -> Status {
    let alloc = host.alloc();
    let mut source = StreamSource::new(host.stdin());
    let mut sink = StreamSink::new(host.stdout());
    let mut clock = SystemClock::new(host);
    let disk = FileDisk::new(host, FIRST_JOURNAL);
    let second = FileDisk::new(host, JOURNAL);
    let comets = FileDisk::new(host, REGISTER);
    let mut door = ServingDoor::new(TcpDoor::new(net, alloc), wanted_links(words), host.stderr());
    let (ended, ends) = top(
        rt,
        alloc,
        words,
        &mut source,
        &mut sink,
        disk,
        second,
        &mut clock,
        &mut door,
        mirror,
        comets,
    );
    tell_left(host, &ends);
    tell_status(host, &ended.status);
    tell_disk(host, FIRST_JOURNAL, &ended.disk);
    tell_disk(host, JOURNAL, &ended.second);
    tell_disk(host, REGISTER, &ended.comets);
    if let Some(error) = door.last_error() {
        let _ = eprintln!(host; "mpc_cli: the port: {error}");
    }
    ended.status
}

/// Tells on standard error which word is none of the program's, as far as that is known.
fn tell_word(rt: HostRuntime, words: &Words) {
    let name = words
        .get(0)
        .and_then(|word| str::from_utf8(word.as_slice()).ok());
    let _ = match name {
        None => eprintln!(rt; "mpc_cli: no command is given"),
        Some(name) if is_command(name) => eprintln!(rt;
            "mpc_cli: {name} takes other words than these"
        ),
        Some(name) => eprintln!(rt; "mpc_cli: no command {name:?}"),
    };
}

/// Tells on standard error what the words may be. Where memory is refused for that, it is left out.
fn tell_usage(rt: HostRuntime) {
    if let Ok(text) = usage_text(rt.alloc()) {
        let _ = eprint!(rt; "{text}");
    }
}

/// Runs the program by the words of its command line, as [`run`] does, and tells what it must of a word that is none of
/// its own. The status is that of the run, or says why the words can't be had.
fn run_by_words<
    N: Net<Listener = TcpListener, Stream = TcpStream> + Clock + Copy + Send + Sync,
    R: Threads + Wait + Sync,
    M: Mirror,
>(host: HostRuntime, net: N, rt: &R, mirror: &mut M) -> Status {
    match words_of(host) {
        Ok(words) => {
            let status = run(host, net, rt, &words, mirror);
            if matches!(status, Status::Usage) {
                tell_word(host, &words);
            }
            status
        }
        Err(status) => {
            tell_status(host, &status);
            status
        }
    }
}

/// The whole program, over the process that `host` stands for, the sockets of `net`, the threads of `rt` and the
/// mirror: what it is to end with, which is the number of its status.
pub fn program<
    N: Net<Listener = TcpListener, Stream = TcpStream> + Clock + Copy + Send + Sync,
    R: Threads + Wait + Sync,
    M: Mirror,
>(host: HostRuntime, net: N, rt: &R, mirror: &mut M) -> ExitCode
    ensures { (status : Status) × (exit_status result ≡ number_of status) }
{
    keep_freed_memory(host.alloc());
    let status = run_by_words(host, net, rt, mirror);
    if matches!(status, Status::Usage) {
        tell_usage(host);
    }
    exit_code(&status)
}
