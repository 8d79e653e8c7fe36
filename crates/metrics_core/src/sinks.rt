//! Where bytes go.

ghost use Rattle.std.specs.Prelude.{
  ◌≡◌,
  ℕ,
  ◌<◌,
  ◌≤◌,
  List,
  length,
  take,
  Option,
  IfOk,
  OnErr,
  OnOk,
};
ghost use Rattle.metrics_core.specs.Outside.{Rose, GrewBy, GrewByPrefix};

use crate::Failed;

/// Bytes that go out, in pieces of any size.
pub trait Sink {
    /// The bytes written, where the sink tells them.
    ghost written: { Self → Option (List ℕ) };

    /// How often the sink has failed. The count never falls.
    ghost faults: { Self → ℕ };

    /// Writes some bytes from the front of a piece, at least one where there is one, and answers how many. A failed
    /// write writes nothing.
    fn write(&mut self, piece: &[u8]) -> Result<usize, Failed>
        ensures bound { IfOk result (λ n. n ≤ length piece.now) }
        ensures some { IfOk result (λ n. 0 < length piece.now → 0 < n) }
        ensures grew { IfOk result (λ n. GrewBy (written self.old) (written self.new) (take n piece.now)) }
        ensures kept { OnErr result (written self.new ≡ written self.old) }
        ensures cause { OnErr result (Rose (faults self.old) (faults self.new)) }
        ensures never_falls { faults self.old ≤ faults self.new };
}

/// Writes a whole piece, in as many writes as the sink wants. Where a write fails, a prefix of the piece was written.
pub fn write_whole<K: Sink>(sink: &mut K, piece: &[u8]) -> Result<(), Failed>
    ensures whole { OnOk result (GrewBy (K.written sink.old) (K.written sink.new) piece.now) }
    ensures prefix { OnErr result (GrewByPrefix (K.written sink.old) (K.written sink.new) piece.now) }
    ensures cause { OnErr result (Rose (K.faults sink.old) (K.faults sink.new)) }
    ensures never_falls { K.faults sink.old ≤ K.faults sink.new }
{
    let mut rest = piece;
    while !rest.is_empty() {
        let count = sink.write(rest)?;
        rest = &rest[count..];
    }
    Ok(())
}
