//! The link of a row: it keeps what it was sent, where it was aimed, and how many payloads it was handed.

use dsd_addresses::RemoteAddr;
use dsd_exporter::{Link, MemoryLink};
use metrics_core::{Failed, Memory};
use std::alloc::Global;
use std::marker::Model;

/// A link in memory that remembers each call.
#[derive(Drop)]
pub struct RowLink {
    link: MemoryLink,
    aims: Vec<RemoteAddr>,
    /// How many payloads it was handed, those that it refused included.
    tries: u64,
    /// Whether it was handed one before it was aimed.
    early: bool,
}

impl Model for RowLink {
    ghost use Rattle.dsd_exporter.specs.Links.{LinkText};

    ghost Value = { LinkText };

    ghost view = { λ row. row.link };
}

impl RowLink {
    /// The link that isn't aimed yet, and whose sends with these numbers fail.
    pub fn new(alloc: Global, failing: Vec<u64>) -> RowLink {
        RowLink {
            link: MemoryLink::new(alloc, failing),
            aims: Vec::new(alloc),
            tries: 0,
            early: false,
        }
    }

    /// The link that keeps what was sent.
    pub fn link(&self) -> &MemoryLink {
        &self.link
    }

    /// How many payloads it was handed.
    pub fn tries(&self) -> u64 {
        self.tries
    }

    /// Whether it was aimed once, at this address, and before the first payload.
    pub fn is_aimed_at(&self, to: &RemoteAddr) -> bool {
        match self.aims.as_slice() {
            [aimed] => aimed == to && !self.early,
            _ => false,
        }
    }

    /// Whether it was never aimed, and handed nothing.
    pub fn is_untouched(&self) -> bool {
        self.aims.is_empty() && self.tries == 0
    }
}

impl Link for RowLink {
    ghost use Rattle.std.specs.Prelude.{Some};

    ghost aimed = { λ link. link.aimed };

    ghost sent = { λ link. Some link.sent };

    ghost faults = { λ link. link.calls.faults };

    fn aim(&mut self, alloc: Global, to: &RemoteAddr) -> Result<(), Memory> {
        self.aims.push(to.clone(alloc)?)?;
        self.link.aim(alloc, to)
    }

    fn send(&mut self, payload: &[u8]) -> Result<(), Failed> {
        self.tries = self.tries.saturating_add(1);
        self.early = self.early || self.aims.is_empty();
        self.link.send(payload)
    }
}
