//! The flushes of a forwarder.

ghost use Rattle.std.specs.Prelude.{◌≡◌};
ghost use Rattle.service_exporters.specs.Flushes.{FlushesOnce, tally_with, tally_refused};

use dsd_exporter::{FlushReport, Link};
use dsd_forwarder::Forwarder;
use metrics_core::Lcg;
use scrape_loops::{Moments, SystemMoments};
use service_loops::Job;
use service_runs::Flush;
use std::alloc::Global;
use std::net::{Net, TcpListener, TcpStream};
use std::sync::Wait;
use std::time::Clock;

/// What came of flushes, each sum modulo 2^64.
#[derive(Clone, Copy, Debug, PartialEq, Eq)]
pub struct FlushTally {
    /// The payloads that were sent.
    pub sent: u64,
    /// The payloads whose send failed.
    pub unsent: u64,
    /// The points that were left out.
    pub dropped: u64,
    /// The flushes that were refused, for want of memory or of a clock. What they were to send is in the next one.
    pub refused: u64,
}

/// What flushes the state of a forwarder and sends the payloads by a link. While they are sent no lock and no turn is held.
#[derive(Drop)]
pub struct ForwarderFlushes<L> {
    alloc: Global,
    forwarder: Forwarder,
    link: L,
    words: Lcg,
    moments: SystemMoments,
    tally: FlushTally,
}

impl<L: Link> ForwarderFlushes<L> {
    /// The flushes of a forwarder by a link, of which none was made yet.
    pub(crate) fn new(alloc: Global, forwarder: Forwarder, link: L) -> ForwarderFlushes<L> {
        ForwarderFlushes {
            alloc,
            forwarder,
            link,
            words: Lcg::new(0),
            moments: SystemMoments::new(),
            tally: FlushTally {
                sent: 0,
                unsent: 0,
                dropped: 0,
                refused: 0,
            },
        }
    }

    /// What came of the flushes so far.
    pub fn tally(&self) -> FlushTally {
        self.tally
    }
}

/// A tally with one flush more.
fn counted(tally: FlushTally, report: FlushReport) -> FlushTally
    ensures { result ≡ tally_with report tally }
{
    FlushTally {
        sent: tally.sent.wrapping_add(report.sent),
        unsent: tally.unsent.wrapping_add(report.unsent),
        dropped: tally.dropped.wrapping_add(report.dropped),
        refused: tally.refused,
    }
}

/// A tally with one refused flush more.
fn refused(tally: FlushTally) -> FlushTally
    ensures { result ≡ tally_refused tally }
{
    FlushTally {
        refused: tally.refused.wrapping_add(1),
        ..tally
    }
}

/// One flush, which is sent, and what came of it.
fn flush_once<R: Wait + Clock, L: Link>(
    rt: &R,
    alloc: Global,
    forwarder: &mut Forwarder,
    link: &mut L,
    words: &mut Lcg,
    moments: &mut SystemMoments,
    tally: &mut FlushTally,
)
    ensures { FlushesOnce forwarder.old forwarder.new words.old words.new
        (L.sent link.old) (L.sent link.new) (L.faults link.old) (L.faults link.new)
        tally.old tally.new }
{
    let Ok(moment) = moments.next_moment(rt) else {
        *tally = refused(*tally);
        return;
    };
    match forwarder.run_once(rt, alloc, moment, words, link) {
        Ok(report) => *tally = counted(*tally, report),
        Err(_) => *tally = refused(*tally),
    }
}

impl<L: Link> Job for ForwarderFlushes<L> {
    ghost use Rattle.service_exporters.specs.Flushes.{FlushesOnce as Flushes_once};

    ghost does = { λ old new. Flushes_once old.forwarder new.forwarder old.words new.words (L.sent old.link) (L.sent new.link) (L.faults old.link) (L.faults new.link) old.tally new.tally };

    fn run<R: Wait + Clock + Net<Listener = TcpListener, Stream = TcpStream>>(&mut self, rt: &R) {
        flush_once(
            rt,
            self.alloc,
            &mut self.forwarder,
            &mut self.link,
            &mut self.words,
            &mut self.moments,
            &mut self.tally,
        );
    }
}

impl<L: Link> Flush for ForwarderFlushes<L> {
    ghost use Rattle.service_exporters.specs.Flushes.{FlushesOnce as Ends_once};

    ghost ends = { λ old new. Ends_once old.forwarder new.forwarder old.words new.words (L.sent old.link) (L.sent new.link) (L.faults old.link) (L.faults new.link) old.tally new.tally };

    fn run_last<R: Wait + Clock + Net<Listener = TcpListener, Stream = TcpStream>>(
        &mut self,
        rt: &R,
    ) {
        self.run(rt);
    }
}
