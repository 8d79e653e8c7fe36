//! Where payloads are handed to, and links in memory, for tests and for callers that have no network.

ghost use Rattle.std.specs.Prelude.{◌≡◌, ℕ, ◌≤◌, List, [], ◌∷◌, ◌++◌, Option, option_map, Some, None, OnErr, OnOk, IsOk, IfOk, false, is_err};
ghost use Rattle.metrics_core.specs.Outside.{Rose, GrewBy};
ghost use Rattle.metrics_core.specs.Devices.{after_call, is_listed};
ghost use Rattle.dsd_addresses.specs.Remotes.{RemoteText, remote_text};
ghost use Rattle.dsd_exporter.specs.Links.{SentText};

use dsd_addresses::RemoteAddr;
use metrics_core::{Failed, FailingCalls, Memory};
use std::alloc::Global;
use std::marker::Model;

/// What payloads are handed to, one by one, each whole.
pub trait Link {
    /// The address last given to `aim`.
    ghost aimed: { Self → Option RemoteText };

    /// The payloads sent, each with the address aimed at when it was sent, where the link tells them.
    ghost sent: { Self → Option (List SentText) };

    /// How often the link has failed. The count never falls.
    ghost faults: { Self → ℕ };

    /// Aims the link at an address, which it keeps: payloads go there from now on. A refused call changes nothing of what it aims at.
    fn aim(&mut self, alloc: Global, to: &RemoteAddr) -> Result<(), Memory>
        ensures aimed { OnOk result (aimed self.new ≡ Some (remote_text to.now)) }
        ensures refused { OnErr result (aimed self.new ≡ aimed self.old) }
        ensures sent { sent self.new ≡ sent self.old }
        ensures never_falls { faults self.old ≤ faults self.new };

    /// Sends a payload whole. A failed send sends nothing.
    fn send(&mut self, payload: &[u8]) -> Result<(), Failed>
        ensures grew { OnOk result (GrewBy (sent self.old) (sent self.new)
            (record { to = aimed self.old; payload = payload.now } ∷ [])) }
        ensures kept { OnErr result (sent self.new ≡ sent self.old) }
        ensures cause { OnErr result (Rose (faults self.old) (faults self.new)) }
        ensures never_falls { faults self.old ≤ faults self.new }
        ensures aimed { aimed self.new ≡ aimed self.old };
}

/// A payload that was sent, and where to.
#[derive(Drop)]
pub struct SentPayload {
    to: Option<RemoteAddr>,
    bytes: Vec<u8>,
}

impl Model for SentPayload {
    ghost use Rattle.std.specs.Prelude.{option_map};
    ghost use Rattle.dsd_addresses.specs.Remotes.{remote_text};
    ghost use Rattle.dsd_exporter.specs.Links.{SentText};

    ghost Value = { SentText };

    ghost view = { λ sent. record { to = option_map remote_text sent.to; payload = sent.bytes.items } };
}

impl SentPayload {
    /// The bytes of the payload.
    pub fn bytes(&self) -> &[u8]
        ensures { result.now ≡ self.now.payload }
    {
        self.bytes.as_slice()
    }
}

/// A link that keeps the payloads that it is sent, and fails at chosen sends.
#[derive(Drop)]
pub struct MemoryLink {
    alloc: Global,
    aimed: Option<RemoteAddr>,
    sent: Vec<SentPayload>,
    calls: FailingCalls,
}

impl Model for MemoryLink {
    ghost use Rattle.std.specs.Prelude.{option_map};
    ghost use Rattle.dsd_addresses.specs.Remotes.{remote_text};
    ghost use Rattle.dsd_exporter.specs.Links.{LinkText};

    ghost Value = { LinkText };

    ghost view = { λ link. record { aimed = option_map remote_text link.aimed; sent = link.sent.items; calls = link.calls } };
}

/// The same address, where there is one.
fn copied(alloc: Global, address: &Option<RemoteAddr>) -> Result<Option<RemoteAddr>, Memory>
    ensures { IfOk result (λ copy. option_map remote_text copy ≡ option_map remote_text address.now) }
{
    match address {
        Some(address) => Ok(Some(address.clone(alloc)?)),
        None => Ok(None),
    }
}

impl MemoryLink {
    /// The link that isn't aimed yet, has sent nothing, and whose sends with the numbers in `failing`, counted from 0, fail.
    pub fn new(alloc: Global, failing: Vec<u64>) -> MemoryLink
        ensures { result ≡ record {
          aimed = None;
          sent = [];
          calls = record
              { failing = failing.items; number = 0; faults = 0 };
        } }
    {
        MemoryLink {
            alloc,
            aimed: None,
            sent: Vec::new(alloc),
            calls: FailingCalls::new(failing),
        }
    }

    /// The payloads that were sent, in order.
    pub fn sent(&self) -> &[SentPayload]
        ensures { result.now ≡ self.now.sent }
    {
        self.sent.as_slice()
    }

    /// How many sends failed, those that were refused memory included.
    pub fn faults(&self) -> u64
        ensures { result ≡ self.now.calls.faults }
    {
        self.calls.faults()
    }

    /// Keeps a payload with the address that the link is aimed at.
    fn keep(&mut self, payload: &[u8]) -> Result<(), Memory>
        ensures kept { OnOk result (self.new
            ≡ record self.old
            { sent = self.old.sent ++ record { to = self.old.aimed; payload = payload.now } ∷ [] }) }
        ensures refused { OnErr result (self.new ≡ self.old) }
    {
        let to = copied(self.alloc, &self.aimed)?;
        let bytes = Vec::from_slice(self.alloc, payload)?;
        self.sent.push(SentPayload { to, bytes })?;
        Ok(())
    }
}

impl Link for MemoryLink {
    ghost aimed = { λ link. link.aimed };

    ghost sent = { λ link. Some link.sent };

    ghost faults = { λ link. link.calls.faults };

    fn aim(&mut self, alloc: Global, to: &RemoteAddr) -> Result<(), Memory>
        ensures aimed { OnOk result (self.new
            ≡ record self.old { aimed = Some (remote_text to.now) }) }
        ensures refused { OnErr result (self.new ≡ self.old) }
        ensures sent { self.new.sent ≡ self.old.sent }
        ensures never_falls { self.old.calls.faults ≤ self.new.calls.faults }
    {
        self.aimed = Some(to.clone(alloc)?);
        Ok(())
    }

    /// Fails where the number of this send is in the list, and where the room for the payload is refused.
    fn send(&mut self, payload: &[u8]) -> Result<(), Failed>
        ensures grew { OnOk result (self.new.sent
            ≡ self.old.sent ++ record { to = self.old.aimed; payload = payload.now } ∷ []) }
        ensures kept { OnErr result (self.new.sent ≡ self.old.sent) }
        ensures cause { OnErr result (Rose self.old.calls.faults self.new.calls.faults) }
        ensures never_falls { self.old.calls.faults ≤ self.new.calls.faults }
        ensures aimed { self.new.aimed ≡ self.old.aimed }
        ensures fails { OnOk result
            (is_listed self.old.calls.failing self.old.calls.number ≡ false) }
        ensures after { self.new.calls ≡ after_call (is_err result) self.old.calls }
    {
        if self.calls.next_fails() {
            self.calls.fault();
            return Err(Failed);
        }
        if self.keep(payload).is_err() {
            self.calls.fault();
            return Err(Failed);
        }
        Ok(())
    }
}

/// A link that takes all payloads and keeps none. It never fails, keeps the address that it is aimed at, and tells nothing of what it was sent.
#[derive(Drop)]
pub struct DiscardLink {
    aimed: Option<RemoteAddr>,
}

impl Model for DiscardLink {
    ghost use Rattle.std.specs.Prelude.{Option, option_map};
    ghost use Rattle.dsd_addresses.specs.Remotes.{RemoteText, remote_text};

    ghost Value = { Option RemoteText };

    ghost view = { λ link. option_map remote_text link.aimed };
}

impl DiscardLink {
    /// The link that isn't aimed yet.
    pub fn new() -> DiscardLink
        ensures { result ≡ None }
    {
        DiscardLink { aimed: None }
    }
}

impl Link for DiscardLink {
    ghost aimed = { λ aimed. aimed };

    ghost sent = { λ _. None };

    ghost faults = { λ _. 0 };

    fn aim(&mut self, alloc: Global, to: &RemoteAddr) -> Result<(), Memory> {
        self.aimed = Some(to.clone(alloc)?);
        Ok(())
    }

    /// Never fails.
    fn send(&mut self, _payload: &[u8]) -> Result<(), Failed>
        ensures never { IsOk result }
        ensures aimed { self.new ≡ self.old }
    {
        Ok(())
    }
}
