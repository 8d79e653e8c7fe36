//! Serving pages: one connection a round.

ghost use Rattle.std.specs.Prelude.{◌≡◌, ◌⊎◌, ◌≤◌, ℕ, List, option_copied, IsSome, IfOk, OnErr, OnOk, Err, true, false};
ghost use Rattle.metrics_core.specs.Outside.{Rose};
ghost use Rattle.page_answers.specs.Asked.{asked_text, asks_page};
ghost use Rattle.page_answers.specs.Asking.{IsAllowed};
ghost use Rattle.scrape_loops.specs.Serving.{MayShow, IsAnsweredFirst, Answers, Misses, ServedInOrder, Visits, Desk};

use crate::{Moments, Pages};
use metrics_core::{Failed, Memory};
use net_addresses::Network;
use page_answers::{Asked, Conn, HeadRoom, Listener, answer_of, asked_by, is_allowed, write_whole};
use service_loops::{Job, Stop, Until, run_until};
use std::alloc::Global;
use std::net::{Net, TcpListener, TcpStream};
use std::sync::Wait;
use std::time::{Clock, Duration};

/// How long a loop rests where no connection can be accepted, in milliseconds: else it would spin where there are no descriptors left.
const REST: u64 = 100;

/// Why a connection was given up.
#[derive(Clone, Copy, Debug, PartialEq, Eq)]
pub struct GivenUp;

impl From<Failed> for GivenUp {
    fn from(_failed: Failed) -> GivenUp {
        GivenUp
    }
}

impl From<Memory> for GivenUp {
    fn from(_refused: Memory) -> GivenUp {
        GivenUp
    }
}

/// The answer to what is asked. Only where that is the page is it rendered.
fn answer_to<R: Wait, P: Pages>(
    rt: &R,
    alloc: Global,
    asked: &Asked,
    pages: &mut P,
    moment: u64,
) -> Result<Vec<u8>, Memory>
    ensures shows { MayShow P.shows P.misses moment pages.old pages.new }
    ensures none { asks_page asked.now ≡ false → pages.new ≡ pages.old }
    ensures answer { IfOk result (λ answer. ((page : List ℕ)
        × P.shows pages.old moment page pages.new × (answer.items ≡ asked_text asked.now page))
        ⊎ ((pages.new ≡ pages.old) × ((page : List ℕ)
        → answer.items ≡ asked_text asked.now page))) }
{
    match asked {
        Asked::Page { .. } => {
            let page = pages.page(rt, alloc, moment)?;
            answer_of(alloc, asked, page.as_bytes())
        }
        Asked::Refused { .. } | Asked::Health { .. } => answer_of(alloc, asked, b""),
    }
}

/// Reads what a peer asks and answers it. Nothing is rendered for a peer that is not allowed, and nothing where the answer is no page.
pub fn answer_peer<R: Wait, C: Conn, P: Pages>(
    rt: &R,
    alloc: Global,
    allowed: Option<&[Network]>,
    pages: &mut P,
    moment: u64,
    conn: &mut C,
    room: &mut HeadRoom,
) -> Result<(), GivenUp>
    ensures answered { OnOk result (IsAnsweredFirst P.shows (option_copied allowed.entry) moment
        pages.old pages.new (C.who conn.old) (C.told conn.old) (C.told conn.new)) }
    ensures shows { MayShow P.shows P.misses moment pages.old pages.new }
    ensures tells { IsSome (C.told conn.old) → IsSome (C.told conn.new) }
    ensures who { C.who conn.new ≡ C.who conn.old }
    ensures no_fault { OnOk result (C.faults conn.new ≡ C.faults conn.old) }
    ensures stranger { ¬ (IsAllowed (option_copied allowed.entry) (C.who conn.old))
        → pages.new ≡ pages.old }
{
    let end = room.read(conn)?;
    let asked = asked_by(is_allowed(allowed, conn.peer()), room.head(end));
    let answer = answer_to(rt, alloc, &asked, pages, moment)?;
    write_whole(conn, answer.as_slice())?;
    Ok(())
}

/// What answers one connection a round.
#[derive(Drop)]
pub struct Serving<'a, N, P, M> {
    pub alloc: Global,
    pub allowed: Option<&'a [Network]>,
    pub stop: &'a Stop,
    pub listener: N,
    pub pages: P,
    pub moments: M,
    pub room: HeadRoom,
    pub served: u64,
    pub failed: u64,
}

/// Accepts a connection, answers its peer and gives it back, and answers whether the peer was answered.
fn serve_one<
    R: Net<Listener = TcpListener, Stream = TcpStream> + Wait + Clock,
    N: Listener,
    P: Pages,
    M: Moments,
>(
    rt: &R,
    alloc: Global,
    allowed: Option<&[Network]>,
    listener: &mut N,
    pages: &mut P,
    moments: &mut M,
    room: &mut HeadRoom,
) -> Result<bool, Failed>
    ensures passed_pages { OnErr result (pages.new ≡ pages.old) }
    ensures passed_moments { OnErr result (M.to_come moments.new ≡ M.to_come moments.old) }
    ensures passed_finished { OnErr result (N.finished listener.new ≡ N.finished listener.old) }
    ensures served { IfOk result (λ answered. answered ≡ true
        → Answers P.shows (option_copied allowed.entry)
        (M.to_come moments.old) (M.to_come moments.new) pages.old pages.new
        (N.finished listener.old) (N.finished listener.new)) }
    ensures failed { IfOk result (λ answered. answered ≡ false → Misses P.shows P.misses
        (M.to_come moments.old) (M.to_come moments.new) pages.old pages.new
        (N.finished listener.old) (N.finished listener.new)) }
{
    let mut conn = listener.accept(rt)?;
    let Ok(moment) = moments.next_moment(rt) else {
        listener.done(conn);
        return Ok(false);
    };
    let answered = answer_peer(rt, alloc, allowed, pages, moment, &mut conn, room);
    listener.done(conn);
    match answered {
        Ok(()) => Ok(true),
        Err(_) => Ok(false),
    }
}

impl<'a, N: Listener, P: Pages, M: Moments> Job for Serving<'a, N, P, M> {
    ghost use Rattle.std.specs.Prelude.{option_copied};
    ghost use Rattle.scrape_loops.specs.Serving.{Visits, Desk};

    ghost does = { λ old new. Visits P.shows P.misses
        (record {
          allowed = option_copied old.allowed;
          pages = old.pages;
          to_come = M.to_come old.moments;
          finished = N.finished old.listener;
          served = old.served;
          failed = old.failed;
        })
        (record {
          allowed = option_copied new.allowed;
          pages = new.pages;
          to_come = M.to_come new.moments;
          finished = N.finished new.listener;
          served = new.served;
          failed = new.failed;
        }) };

    fn run<R: Wait + Clock + Net<Listener = TcpListener, Stream = TcpStream>>(&mut self, rt: &R) {
        match serve_one(
            rt,
            self.alloc,
            self.allowed,
            &mut self.listener,
            &mut self.pages,
            &mut self.moments,
            &mut self.room,
        ) {
            Ok(true) => self.served = self.served.wrapping_add(1),
            Ok(false) => self.failed = self.failed.wrapping_add(1),
            Err(_) => {
                self.stop.wait(rt, Duration::from_millis(REST));
            }
        }
    }
}

/// Serves until it is over. Where the listener tells, each peer that was answered got the page at a moment, in order.
pub fn serve_until<
    'a,
    R: Net<Listener = TcpListener, Stream = TcpStream> + Wait + Clock,
    U: Until,
    N: Listener,
    P: Pages,
    M: Moments,
>(rt: &R, until: &mut U, serving: &mut Serving<'a, N, P, M>)
    ensures { ServedInOrder P.shows P.misses (option_copied serving.old.allowed)
        (N.finished serving.old.listener) (N.finished serving.new.listener) serving.old.pages
        serving.new.pages }
{
    run_until(rt, until, serving);
}
