//! The payloads of a writer, handed out one after another.

ghost use Rattle.std.specs.Prelude.{◌≡◌, [], ◌∷◌, ⊤, IfNone, MatchOption, drop, length, take};
ghost use Rattle.std.specs.Borrow.{sem, follows_so};
ghost use mathlib.Core.Option.{none};
ghost use Rattle.dsd_writer.specs.Cuts.{AreWithin, IsBestCut, full_cut};
ghost use Rattle.dsd_writer.specs.Lines.{payload_fits, payloads_of};
ghost use Rattle.dsd_writer.specs.Packing.{framed_payloads};
ghost use Rattle.dsd_writer.specs.Left.{payloads_left};
ghost use Rattle.dsd_writer.specs.Writers.{IsEmptied};
ghost use Rattle.dsd_writer.specs.contracts.writer.PayloadWriter.{the_row};

use crate::PayloadWriter;
use crate::packing::{PayloadBuffer, begin_anew, end_of, seal};

/// The payloads that are left of those that a writer packed. Each is whole lines; on a stream it is led by its length.
#[derive(Drop)]
pub struct Payloads<'a> {
    buffer: &'a PayloadBuffer,
    /// The place of the next one.
    next: usize,
}

/// The bytes from a place on up to another one, as far as they are there.
fn between(bytes: &[u8], start: usize, end: usize) -> &[u8]
    ensures { result.now ≡ drop start (take end bytes.now) }
{
    let end = end.min(bytes.len());
    &bytes[start.min(end)..end]
}

impl<'a> Payloads<'a> {
    /// How many payloads are left.
    pub fn len(&self) -> usize
        ensures { result ≡ length (payloads_left self.now) }
    {
        self.buffer.starts.len().saturating_sub(self.next)
    }

    /// The next payload; none exactly where none is left.
    pub fn next_payload(&mut self) -> Option<&'a [u8]>
        ensures next { MatchOption result (payloads_left self.old ≡ [])
            (λ payload. payloads_left self.old ≡ payload.now ∷ payloads_left self.new) }
        ensures none { IfNone result (payloads_left self.new ≡ []) }
    {
        let bytes = self.buffer.bytes.as_slice();
        let starts = self.buffer.starts.as_slice();
        if self.next >= starts.len() {
            return None;
        }
        let start = starts[self.next];
        let end = end_of(starts, self.next, bytes.len());
        self.next += 1;
        Some(between(bytes, start, end))
    }
}

impl PayloadWriter {
    /// All lines so far in the fewest payloads that keep their order, each within the limit. The writer has no lines then. It
    /// takes no memory.
    pub fn payloads(&mut self) -> Payloads<'_>
        ensures* empties { sem 𝓛 (follows_so the_row the_row self.entry.ghost_name none
            (λ _ _. ⊤) (λ after. IsEmptied self.old after)) }
        ensures payloads { let packed = payloads_of self.old.limit self.old.lines in
            payloads_left result ≡ framed_payloads self.old.on_stream packed }
        ensures best { let fits = payload_fits self.old.limit in
            IsBestCut fits self.old.lines (full_cut fits self.old.lines) }
        ensures within { AreWithin self.old.limit (payloads_of self.old.limit self.old.lines) }
    {
        begin_anew(
            &mut self.buffer.bytes,
            &mut self.buffer.starts,
            &mut self.lengths,
            &mut self.handed_out,
        );
        seal(
            &mut self.buffer.bytes,
            self.buffer.starts.as_slice(),
            self.on_stream,
        );
        self.handed_out = true;
        Payloads {
            buffer: &self.buffer,
            next: 0,
        }
    }
}
