//! The program over the sockets of the system: its words are those of the command line, its payloads go over UDP or a Unix stream, and its page is
//! served on port 9000 of this host.

ghost use Rattle.std.specs.Prelude.{◌≡◌};
ghost use Rattle.std.specs.Process.{exit_status};

use crate::answering::answer;
use crate::say::say_fault;
use crate::statuses::Status;
use drive_script::DriveFault;
use dsd_exporter::SocketLink;
use metrics_core::{Memory, Sink, Source};
use prom_serve::SocketListener;
use script_player::Free;
use std::alloc::Global;
use std::env;
use std::env::Args;
use std::io::ErrorKind;
use std::net::{Ipv4Addr, Net, SocketAddr, SocketAddrV4, TcpListener, TcpStream};
use std::process::{ExitCode, Termination};
use std::random::RandomSource;
use std::rt::Env;
use std::sync::Wait;
use std::thread::Threads;
use std::time::Clock;

/// How the program ended. Only `run_program` makes one, and it can't be let go, so a `main` that has one ends with its status.
pub struct Ended {
    status: u8,
}

impl Termination for Ended {
    /// The status of the program.
    fn report<R: Eprint>(self, _rt: &R) -> ExitCode
        ensures { exit_status result ≡ self.status }
    {
        let Ended { status } = self;
        ExitCode::from(status)
    }
}

/// Answers the words after the program's name. Words that aren't text are no form of words.
pub fn run_program<
    R: Env
        + AllocGlobal
        + Net<Listener = TcpListener, Stream = TcpStream>
        + RandomSource
        + Threads
        + Clock
        + Wait
        + Sync,
    S: Source,
    K: Sink,
    E: Sink,
>(rt: &R, alloc: Global, source: &mut S, out: &mut K, err: &mut E) -> Ended {
    match answer_arguments(rt, alloc, source, out, err) {
        Ok(status) => Ended { status },
        Err(Memory) => {
            say_fault(err, DriveFault::Memory);
            Ended {
                status: Status::NoMemory.number(),
            }
        }
    }
}

/// Answers the words after the program's name, and says the status, where there is memory for the words.
fn answer_arguments<
    R: Env
        + AllocGlobal
        + Net<Listener = TcpListener, Stream = TcpStream>
        + RandomSource
        + Threads
        + Clock
        + Wait
        + Sync,
    S: Source,
    K: Sink,
    E: Sink,
>(rt: &R, alloc: Global, source: &mut S, out: &mut K, err: &mut E) -> Result<u8, Memory> {
    let words = match env::args(rt) {
        Ok(arguments) => texts(alloc, arguments)?,
        Err(error) if error.kind() == ErrorKind::OutOfMemory => return Err(Memory),
        Err(_) => Vec::new(alloc),
    };
    let mut views = Vec::new(alloc);
    for word in &words {
        views.push(word.as_str())?;
    }
    Ok(answer_over_sockets(rt, alloc, &views, source, out, err))
}

/// The words after the program's name.
fn texts(alloc: Global, arguments: Args<Global>) -> Result<Vec<String>, Memory> {
    let mut words = Vec::new(alloc);
    for word in arguments.skip(1) {
        words.push(word)?;
    }
    Ok(words)
}

/// Answers words, and says the status: payloads go over the sockets of the system, and the page is served on port 9000 of this host.
pub fn answer_over_sockets<
    R: Net<Listener = TcpListener, Stream = TcpStream>
        + RandomSource
        + Threads
        + Clock
        + Wait
        + Sync,
    S: Source,
    K: Sink,
    E: Sink,
>(rt: &R, alloc: Global, words: &[&str], source: &mut S, out: &mut K, err: &mut E) -> u8 {
    let mut link = SocketLink::new(rt);
    let mut listener = SocketListener::new(rt, page_address());
    answer(
        rt,
        alloc,
        words,
        source,
        out,
        err,
        &mut link,
        &Free,
        &mut listener,
    )
}

/// Where the page is served: port 9000 of this host, 127.0.0.1:9000. It is bound at the first connection that is wanted.
fn page_address() -> SocketAddr {
    SocketAddr::V4(SocketAddrV4::new(Ipv4Addr::LOCALHOST, 9000))
}
