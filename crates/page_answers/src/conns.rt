//! Connections: what a peer sends, and what is sent to it.

ghost use Rattle.std.specs.Prelude.{◌≡◌, ℕ, ◌<◌, ◌≤◌, length, take, Option, IsSome, IfSome, IfOk, OnErr, OnOk};
ghost use Rattle.page_answers.specs.Connections.{Told, Took, Wrote, CountsFaults};
ghost use Rattle.std.specs.declared.net.ip_addr.IpAddr.{IpAddr};

use metrics_core::Failed;
use std::net::IpAddr;

/// A connection to a peer. One that tells goes on telling.
pub trait Conn {
    /// The peer's address, where it is known.
    ghost who: { Self → Option IpAddr };

    /// The bytes read of the connection, those read before its last read, those still to come and those written to it, where it
    /// tells them.
    ghost told: { Self → Option Told };

    /// How often the connection has failed, in either direction. The count never falls.
    ghost faults: { Self → ℕ };

    /// The peer's address, where it is known.
    fn peer(&self) -> Option<IpAddr>
        ensures { result ≡ who self.now };

    /// Reads some bytes to the front of a buffer, and answers how many. For a buffer that isn't empty 0 is the end of
    /// what the peer sends. A failed read takes nothing.
    fn read(&mut self, buf: &mut [u8]) -> Result<usize, Failed>
        ensures bound { IfOk result (λ n. n ≤ length buf.old) }
        ensures took { IfSome (told self.old)
            (λ before. IfOk result (Took before (told self.new) buf.old buf.new)) }
        ensures kept { OnErr result (told self.new ≡ told self.old) }
        ensures who { who self.new ≡ who self.old }
        ensures faults { CountsFaults result (faults self.old) (faults self.new) };

    /// Writes some bytes from the front of a piece, at least one where there is one, and answers how many. A failed
    /// write writes nothing.
    fn write(&mut self, piece: &[u8]) -> Result<usize, Failed>
        ensures bound { IfOk result (λ n. n ≤ length piece.now) }
        ensures some { IfOk result (λ n. 0 < length piece.now → 0 < n) }
        ensures wrote { IfOk result (λ n. Wrote (told self.old) (told self.new)
            (take n piece.now)) }
        ensures kept { OnErr result (told self.new ≡ told self.old) }
        ensures who { who self.new ≡ who self.old }
        ensures faults { CountsFaults result (faults self.old) (faults self.new) };
}

/// Writes a whole piece, in as many writes as the connection wants.
pub fn write_whole<C: Conn>(conn: &mut C, piece: &[u8]) -> Result<(), Failed>
    ensures wrote { OnOk result (Wrote (C.told conn.old) (C.told conn.new) piece.now) }
    ensures tells { IsSome (C.told conn.old) → IsSome (C.told conn.new) }
    ensures who { C.who conn.new ≡ C.who conn.old }
    ensures faults { CountsFaults result (C.faults conn.old) (C.faults conn.new) }
{
    let mut rest = piece;
    while !rest.is_empty() {
        let count = conn.write(rest)?;
        rest = &rest[count..];
    }
    Ok(())
}
