//! Serving the page.

ghost use Rattle.std.specs.Prelude.{◌≡◌, ◌≤◌, ◌↔◌, ◌⊎◌, ℕ, List, length, option_copied, IsTrue, IsSome, IfOk, IfErr, OnErr, OnOk, Err, true, false, if◌then◌else◌};
ghost use Rattle.metrics_core.specs.Outside.{Rose};
ghost use Rattle.prom_exporter.specs.Exporter.{AllHome};
ghost use Rattle.page_answers.specs.Asked.{asked_text};
ghost use Rattle.page_answers.specs.Connections.{CountedOn};
ghost use Rattle.prom_serve.specs.Refusals.{excepted};
ghost use Rattle.prom_serve.specs.Serving.{IsRendered, IsPageAt, MayRender, StaysHome, IsAnsweredFirst, AcceptsOne, AcceptsNone, IsCounted, Serves, ServesInPart};
ghost use Rattle.prom_serve.specs.declared.serving.GivenUp.TheVariants as given_up;

use crate::ServeError;
use metrics_core::{Failed, Memory, MemorySink};
use net_addresses::Network;
use page_answers::{Asked, Conn, HeadRoom, Listener, answer_of, asked_by, is_allowed, write_whole};
use prom_exporter::PrometheusState;
use std::alloc::Global;
use std::net::{Net, TcpListener, TcpStream};
use std::sync::Wait;

/// How many connections were served, and how many failed.
#[derive(Clone, Copy, Debug, PartialEq, Eq)]
pub struct Served {
    pub served: u32,
    pub failed: u32,
}

/// Why a connection was given up.
#[derive(Drop)]
enum GivenUp {
    Failed,
    Memory,
}

impl From<Failed> for GivenUp {
    ghost from_gives = { λ _ reason. reason ≡ given_up.Failed };

    fn from(_failed: Failed) -> GivenUp {
        GivenUp::Failed
    }
}

impl From<Memory> for GivenUp {
    ghost from_gives = { λ _ reason. reason ≡ given_up.Memory };

    fn from(_refused: Memory) -> GivenUp {
        GivenUp::Memory
    }
}

/// The page at a moment. It is written to memory first, since the answer tells its length in front of it.
fn page_at<R: Wait>(
    rt: &R,
    alloc: Global,
    state: &mut PrometheusState,
    moment: u64,
) -> Result<MemorySink, Memory>
    ensures rendered { IsRendered moment state.old state.new }
    ensures page { IfOk result (λ sink. IsPageAt moment state.old state.new sink.written) }
{
    let mut sink = MemorySink::new(alloc, usize::MAX, Vec::new(alloc));
    match state.render_to_write(rt, alloc, moment, &mut sink) {
        Ok(()) => Ok(sink),
        // This sink fails only where memory is refused.
        Err(_) => Err(Memory),
    }
}

/// The answer to what is asked. Only where that is the page is it rendered.
fn answer_to<R: Wait>(
    rt: &R,
    alloc: Global,
    asked: &Asked,
    state: &mut PrometheusState,
    moment: u64,
) -> Result<Vec<u8>, Memory>
    ensures renders { MayRender moment state.old state.new }
    ensures answer { IfOk result (λ answer. ((page : List ℕ)
        × IsPageAt moment state.old state.new page × (answer.items ≡ asked_text asked.now page))
        ⊎ ((state.new ≡ state.old) × ((page : List ℕ)
        → answer.items ≡ asked_text asked.now page))) }
{
    match asked {
        Asked::Page { .. } => {
            let page = page_at(rt, alloc, state, moment)?;
            answer_of(alloc, asked, page.written())
        }
        Asked::Refused { .. } | Asked::Health { .. } => answer_of(alloc, asked, b""),
    }
}

/// Reads what a peer asks and answers it.
fn answer_peer<R: Wait, C: Conn>(
    rt: &R,
    alloc: Global,
    allowed: Option<&[Network]>,
    state: &mut PrometheusState,
    moment: u64,
    conn: &mut C,
    room: &mut HeadRoom,
) -> Result<(), GivenUp>
    ensures answered { OnOk result (IsAnsweredFirst (option_copied allowed.entry) moment state.old
        state.new (C.who conn.old) (C.told conn.old) (C.told conn.new)) }
    ensures renders { MayRender moment state.old state.new }
    ensures tells { IsSome (C.told conn.old) → IsSome (C.told conn.new) }
    ensures who { C.who conn.new ≡ C.who conn.old }
    ensures no_fault { OnOk result (C.faults conn.new ≡ C.faults conn.old) }
    ensures cause { result ≡ Err GivenUp.Failed → Rose (C.faults conn.old) (C.faults conn.new) }
{
    let end = room.read(conn)?;
    let asked = asked_by(is_allowed(allowed, conn.peer()), room.head(end));
    let answer = answer_to(rt, alloc, &asked, state, moment)?;
    write_whole(conn, answer.as_slice())?;
    Ok(())
}

/// Accepts a connection, answers its peer and gives it back. Answers whether the connection failed.
fn serve_next<R: Net<Listener = TcpListener, Stream = TcpStream> + Wait, N: Listener>(
    rt: &R,
    alloc: Global,
    allowed: Option<&[Network]>,
    state: &mut PrometheusState,
    moment: u64,
    listener: &mut N,
    room: &mut HeadRoom,
) -> Result<bool, ServeError>
    ensures served { OnOk result (AcceptsOne (option_copied allowed.entry) moment true state.old
        state.new
        (record { given = N.given listener.old; finished = N.finished listener.old })
        (record { given = N.given listener.new; finished = N.finished listener.new })) }
    ensures lost { IfOk result (λ failed. CountedOn (N.lost listener.old) (N.lost listener.new)
        (if failed then 1 else 0)) }
    ensures memory { result ≡ Err ServeError.Memory
        → AcceptsOne (option_copied allowed.entry) moment false state.old state.new
        (record { given = N.given listener.old; finished = N.finished listener.old })
        (record { given = N.given listener.new; finished = N.finished listener.new }) }
    ensures refused { result ≡ Err ServeError.FailedToCreateHTTPListener
        → AcceptsNone state.old state.new
        (record { given = N.given listener.old; finished = N.finished listener.old })
        (record { given = N.given listener.new; finished = N.finished listener.new }) }
    ensures cause { result ≡ Err ServeError.FailedToCreateHTTPListener
        → Rose (N.faults listener.old) (N.faults listener.new) }
    ensures never_falls { N.faults listener.old ≤ N.faults listener.new }
{
    let mut conn = match listener.accept(rt) {
        Ok(conn) => conn,
        Err(_) => return Err(ServeError::FailedToCreateHTTPListener),
    };
    let answered = answer_peer(rt, alloc, allowed, state, moment, &mut conn, room);
    listener.done(conn);
    match answered {
        Ok(()) => Ok(false),
        Err(GivenUp::Failed) => Ok(true),
        Err(GivenUp::Memory) => Err(ServeError::Memory),
    }
}

/// Answers so many connections, one after another: each reads what its peer asks, is answered with the page at a moment or
/// with what stands for it, and is given back to the listener. A connection that fails is given up and counted.
pub fn serve<R: Net<Listener = TcpListener, Stream = TcpStream> + Wait, N: Listener>(
    rt: &R,
    alloc: Global,
    allowed: Option<&[Network]>,
    state: &mut PrometheusState,
    moment: u64,
    listener: &mut N,
    count: u32,
) -> Result<Served, ServeError>
    ensures counted { IfOk result (IsCounted count (N.lost listener.old) (N.lost listener.new)) }
    ensures served { OnOk result (Serves (option_copied allowed.entry) moment count 0 state.old
        state.new
        (record { given = N.given listener.old; finished = N.finished listener.old })
        (record { given = N.given listener.new; finished = N.finished listener.new })) }
    ensures refused { IfErr result (λ error.
        ServesInPart (option_copied allowed.entry) moment count (excepted error) state.old state.new
        (record { given = N.given listener.old; finished = N.finished listener.old })
        (record { given = N.given listener.new; finished = N.finished listener.new })) }
    ensures cause { result ≡ Err ServeError.FailedToCreateHTTPListener
        → Rose (N.faults listener.old) (N.faults listener.new) }
    ensures never_falls { N.faults listener.old ≤ N.faults listener.new }
    ensures home { AllHome state.old → StaysHome moment state.old state.new }
{
    let mut room = HeadRoom::new(alloc)?;
    let mut failed = 0;
    for _accepted in 0..count {
        let has_failed = serve_next(rt, alloc, allowed, state, moment, listener, &mut room)?;
        failed += u32::from(has_failed);
    }
    Ok(Served {
        served: count - failed,
        failed,
    })
}
