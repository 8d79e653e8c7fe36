//! The word that ends the loops.

use std::io;
use std::net::{Shutdown, TcpListener, TcpStream};
use std::os::fd::OwnedFd;
use std::sync::atomic::{AtomicU64, Ordering};
use std::sync::{Condvar, Mutex, Wait};
use std::time::{Clock, Duration};

/// A word that any thread may give once for all, and that each may ask for and wait for. No clause says that it was given: a flag is no
/// order of what threads do.
#[derive(Drop)]
pub struct Stop {
    ended: Mutex<bool>,
    /// 1 once the word was given: for those that can't wait for the lock.
    given: AtomicU64,
    told: Condvar,
    /// The socket that is shut once the word is given, where there is one.
    socket: Option<TcpStream>,
}

impl Stop {
    /// The word that was not given yet.
    pub fn new() -> Stop {
        Stop {
            ended: Mutex::new(false),
            given: AtomicU64::new(0),
            told: Condvar::new(),
            socket: None,
        }
    }

    /// The word that was not given yet, and that shuts a listener's socket once it is given: each `accept` that waits for a
    /// connection of it then fails, and so does each later one.
    pub fn shutting(listener: &TcpListener) -> io::Result<Stop> {
        // The socket of a listener can be shut as that of a stream.
        let socket = TcpStream::from(OwnedFd::from(listener.try_clone()?));
        Ok(Stop {
            ended: Mutex::new(false),
            given: AtomicU64::new(0),
            told: Condvar::new(),
            socket: Some(socket),
        })
    }

    /// Gives the word, ends all waits for it, and shuts the socket.
    pub fn end<R: Wait>(&self, rt: &R) {
        self.given.store(1, Ordering::SeqCst);
        *self.ended.lock(rt) = true;
        self.told.notify_all();
        if let Some(socket) = &self.socket {
            // Where it can't be shut, an `accept` that waits goes on to wait.
            let _ = socket.shutdown(Shutdown::Both);
        }
    }

    /// Whether the word was given.
    pub fn is_ended<R: Wait>(&self, rt: &R) -> bool {
        *self.ended.lock(rt)
    }

    /// Whether the word was given. It takes no lock.
    pub fn has_ended(&self) -> bool {
        self.given.load(Ordering::SeqCst) == 1
    }

    /// Waits for the word, at most so long, and answers whether it was given.
    pub fn wait<R: Wait + Clock>(&self, rt: &R, long: Duration) -> bool {
        let ended = self.ended.lock(rt);
        let (ended, _) = self
            .told
            .wait_timeout_while(rt, ended, long, |ended| !*ended);
        *ended
    }
}
