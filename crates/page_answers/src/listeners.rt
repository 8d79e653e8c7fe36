//! Listeners: where connections come from, and where they are given back.

ghost use Rattle.std.specs.Prelude.{◌≡◌, ℕ, ◌≤◌, List, [], ◌∷◌, Option, IfSome, IfOk, OnErr};
ghost use Rattle.metrics_core.specs.Outside.{Rose, GrewBy};
ghost use Rattle.page_answers.specs.Connections.{Ended, CountedOn, CountsGiven, IsNew, losses};

use crate::Conn;
use metrics_core::Failed;
use std::net::{Net, TcpListener, TcpStream};

/// What accepts connections and takes them back. One that tells goes on telling.
pub trait Listener {
    /// A connection of this listener.
    type Conn: Conn;

    /// How often the listener has failed. The count never falls.
    ghost faults: { Self → ℕ };

    /// How many connections it has given, modulo 2^64.
    ghost given: { Self → ℕ };

    /// How many connections were given back to it with a fault, modulo 2^64.
    ghost lost: { Self → ℕ };

    /// The connections that were given back, in order, where it tells them.
    ghost finished: { Self → Option (List Ended) };

    /// Waits for a connection. A new one has no faults, and where it tells nothing was read of it or written to it.
    fn accept<R: Net<Listener = TcpListener, Stream = TcpStream>>(
        &mut self,
        rt: &R,
    ) -> Result<Self::Conn, Failed>
        ensures fresh { IfOk result (λ conn. IsNew (finished self.old) (Self.Conn.told conn)
            (Self.Conn.faults conn)) }
        ensures given { CountsGiven result (given self.old) (given self.new) }
        ensures lost { lost self.new ≡ lost self.old }
        ensures finished { finished self.new ≡ finished self.old }
        ensures cause { OnErr result (Rose (faults self.old) (faults self.new)) }
        ensures never_falls { faults self.old ≤ faults self.new };

    /// Takes a connection back. It is lost exactly where it has failed.
    fn done(&mut self, conn: Self::Conn)
        ensures lost { CountedOn (lost self.old) (lost self.new) (losses (Self.Conn.faults conn)) }
        ensures finished { IfSome (Self.Conn.told conn)
            (λ told. GrewBy (finished self.old) (finished self.new)
            (record { who = Self.Conn.who conn; told = told; faults = Self.Conn.faults conn }
            ∷ [])) }
        ensures given { given self.new ≡ given self.old }
        ensures faults { faults self.new ≡ faults self.old };
}
