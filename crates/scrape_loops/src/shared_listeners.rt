//! A listener that threads share.

ghost use Rattle.std.specs.Prelude.{◌≡◌, None};

use crate::TurnConn;
use crate::turn_conns::next_conn;
use metrics_core::Failed;
use page_answers::Listener;
use service_loops::Stop;
use std::marker::Model;
use std::net::{Net, TcpListener, TcpStream};

/// One thread's share of a TCP listener. A contract sees it as its counts.
#[derive(Drop)]
pub struct SharedListener<'a> {
    listener: &'a TcpListener,
    stop: &'a Stop,
    faults: u64,
    given: u64,
    lost: u64,
}

impl<'a> Model for SharedListener<'a> {
    ghost use Rattle.page_answers.specs.Sockets.{CountsText};

    ghost Value = { CountsText };

    ghost view = { λ listener. record {
      faults = listener.faults;
      given = listener.given;
      lost
          = listener.lost;
    } };
}

impl<'a> SharedListener<'a> {
    /// A share of a listener that is bound.
    pub fn new(listener: &'a TcpListener, stop: &'a Stop) -> SharedListener<'a>
        ensures { result ≡ record { faults = 0; given = 0; lost = 0 } }
    {
        SharedListener {
            listener,
            stop,
            faults: 0,
            given: 0,
            lost: 0,
        }
    }
}

impl<'a> Listener for SharedListener<'a> {
    type Conn = TurnConn<'a>;

    ghost faults = { λ listener. listener.faults };

    ghost given = { λ listener. listener.given };

    ghost lost = { λ listener. listener.lost };

    ghost finished = { λ _. None };

    fn accept<R: Net<Listener = TcpListener, Stream = TcpStream>>(
        &mut self,
        _rt: &R,
    ) -> Result<TurnConn<'a>, Failed> {
        match next_conn(self.listener, self.stop) {
            Ok(conn) => {
                self.given = self.given.wrapping_add(1);
                Ok(conn)
            }
            Err(_) => {
                self.faults = self.faults.saturating_add(1);
                Err(Failed)
            }
        }
    }

    fn done(&mut self, conn: TurnConn<'a>) {
        if conn.has_failed() {
            self.lost = self.lost.wrapping_add(1);
        }
    }
}
