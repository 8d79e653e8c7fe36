//! The end of a round: its page is written, and its flush into payloads.

ghost use Rattle.std.specs.Prelude.{◌≤◌, IfErr, IfOk, OnErr, OnOk};
ghost use Rattle.metrics_core.specs.Outside.{Rose, GrewByPrefix};
ghost use Rattle.prom_format.specs.Pages.{page_text};
ghost use Rattle.prom_exporter.specs.Exporter.{page_families};
ghost use Rattle.dsd_exporter.specs.Resting.{AllRest as LinesRest};
ghost use Rattle.script_player.specs.Faults.{IsPlayFault};
ghost use Rattle.script_player.specs.Rounds.{BothRestOn, CanShow, EndsBoth, IsShown, RestsOn};

use crate::both::join_if;
use crate::flushes::Flushes;
use drive_script::DriveFault;
use dsd_exporter::State;
use metrics_core::{Sink, write_whole};
use prom_exporter::{BuildError, PrometheusState};
use std::alloc::Global;
use std::sync::Wait;
use std::thread::Threads;

/// From how many series and calls on the flush of a round is made beside its page. Fewer aren't worth a thread.
const MANY: usize = 4096;

/// Writes the page at a moment, and the flush into payloads, and answers how many of its points were left out, modulo 2^64. For much
/// work, counted in series and calls, the flush is made beside the page.
pub(crate) fn write_both<R: Threads + Wait + Sync, K: Sink>(
    rt: &R,
    alloc: Global,
    moment: u64,
    work: usize,
    pages: &mut PrometheusState,
    lines: &mut State,
    flushes: &mut Flushes,
    out: &mut K,
) -> Result<u64, DriveFault>
    requires pages { CanShow moment pages.old }
    requires lines { LinesRest lines.old }
    ensures rest { BothRestOn pages.old pages.new lines.old lines.new flushes.old flushes.new }
    ensures ended { IfOk result (EndsBoth moment pages.old pages.new lines.old lines.new
        flushes.old flushes.new (K.written out.old) (K.written out.new)) }
    ensures prefix { OnErr result
        (GrewByPrefix (K.written out.old) (K.written out.new) (page_text
        (page_families moment pages.old))) }
    ensures cause { IfErr result (IsPlayFault (Rose (K.faults out.old) (K.faults out.new))) }
    ensures never_falls { K.faults out.old ≤ K.faults out.new }
{
    let (flush, page) = join_if(
        rt,
        work >= MANY,
        &mut || flushes.write(rt, alloc, lines, moment),
        &mut || write_page(rt, alloc, moment, pages, out),
    );
    page?;
    Ok(flush?)
}

/// Writes the page at a moment, ended by the line `# EOF`.
fn write_page<R: Wait, K: Sink>(
    rt: &R,
    alloc: Global,
    moment: u64,
    pages: &mut PrometheusState,
    out: &mut K,
) -> Result<(), DriveFault>
    requires can { CanShow moment pages.old }
    ensures rests { RestsOn pages.old pages.new }
    ensures shown { OnOk result (IsShown moment pages.old pages.new
        (K.written out.old) (K.written out.new)) }
    ensures prefix { GrewByPrefix (K.written out.old) (K.written out.new) (page_text
        (page_families moment pages.old)) }
    ensures cause { IfErr result (IsPlayFault (Rose (K.faults out.old) (K.faults out.new))) }
    ensures never_falls { K.faults out.old ≤ K.faults out.new }
{
    match pages.render_to_write(rt, alloc, moment, out) {
        Ok(()) => (),
        Err(BuildError::WriteFault) => return Err(DriveFault::WriteFault),
        Err(_) => return Err(DriveFault::Memory),
    }
    match write_whole(out, b"# EOF\n") {
        Ok(()) => Ok(()),
        Err(_) => Err(DriveFault::WriteFault),
    }
}
