//! Where bytes come from.

ghost use Rattle.std.specs.Prelude.{◌≡◌, ℕ, ◌≤◌, List, length, Option, IfSome, IfOk, OnErr};
ghost use Rattle.metrics_core.specs.Outside.{Rose, Moved};

/// A read or a write failed. What went wrong is the device's to say; here only its count of faults rises.
#[derive(Clone, Copy, Debug, PartialEq, Eq)]
pub struct Failed;

/// Bytes that come in, in pieces of any size.
pub trait Source {
    /// The bytes still to come, where the source tells them.
    ghost left: { Self → Option (List ℕ) };

    /// How often the source has failed. The count never falls.
    ghost faults: { Self → ℕ };

    /// Reads some bytes to the front of a buffer, and answers how many. For a buffer that isn't empty 0 is the end of
    /// the input. A failed read takes nothing.
    fn read(&mut self, buf: &mut [u8]) -> Result<usize, Failed>
        ensures bound { IfOk result (λ n. n ≤ length buf.old) }
        ensures moved { IfSome (left self.old) (λ bytes. IfOk result (Moved bytes (left self.new) buf.old buf.new)) }
        ensures kept { OnErr result (left self.new ≡ left self.old) }
        ensures cause { OnErr result (Rose (faults self.old) (faults self.new)) }
        ensures never_falls { faults self.old ≤ faults self.new };
}
