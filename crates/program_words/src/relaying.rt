//! The relay of pages: a stream of pages becomes one page.

ghost use Rattle.std.specs.Prelude.{IfErr, IfOk, OnOk};
ghost use Rattle.metrics_core.specs.Outside.{Rose};
ghost use Rattle.program_words.specs.Relay.{HasPages, HasRelayCause, IsRelayed, LeavesRelay};

use hash_starts::HashStart;
use metrics_core::Sink;
use page_relay::{RelayFault, merge, read_pages, write_page};
use std::alloc::Global;

/// Merges the pages of a stream into one page, and writes that to `out`. Answers how many pages the stream has. Nothing is
/// written before all pages were read and found to merge. Names and rows are looked up by hashes from a start.
pub fn relay<K: Sink>(
    alloc: Global,
    start: HashStart,
    bytes: &[u8],
    out: &mut K,
) -> Result<u64, RelayFault>
    ensures relayed { OnOk result (IsRelayed bytes.now (K.written out.old) (K.written out.new)) }
    ensures counted { IfOk result (HasPages bytes.now) }
    ensures cause { IfErr result
        (HasRelayCause bytes.now (Rose (K.faults out.old) (K.faults out.new))) }
    ensures leaves { IfErr result (LeavesRelay bytes.now (K.written out.old) (K.written out.new)) }
{
    let pages = read_pages(alloc, bytes)?;
    let page = merge(alloc, start, &pages)?;
    match write_page(alloc, &page, out) {
        Ok(()) => Ok(pages.len() as u64),
        Err(fault) => Err(fault),
    }
}
