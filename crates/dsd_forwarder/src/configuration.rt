//! What a forwarder is made with.

ghost use Rattle.std.specs.Prelude.{◌≡◌};
ghost use Rattle.dsd_addresses.specs.Remotes.{remote_text};
ghost use Rattle.dsd_forwarder.specs.Forwarding.{is_stream};

use dsd_addresses::RemoteAddr;
use metrics_core::Label;

/// What a forwarder is made with. Durations are in nanoseconds.
#[derive(Debug, Drop)]
pub struct ForwarderConfiguration {
    /// Where payloads are sent.
    pub remote_addr: RemoteAddr,
    /// The payload limit, in bytes.
    pub max_payload_len: u64,
    /// How long to wait between two flushes. No timer of this crate acts on it.
    pub flush_interval: u64,
    /// How long a write may take. No timer of this crate acts on it.
    pub write_timeout: u64,
    /// The labels that every line has, behind those of its series.
    pub global_labels: Vec<Label>,
}

impl ForwarderConfiguration {
    /// Whether each payload is led by its length: on a Unix stream alone.
    pub fn is_length_prefixed(&self) -> bool
        ensures { result ≡ is_stream (remote_text self.now.remote_addr) }
    {
        match self.remote_addr {
            RemoteAddr::Unix(_) => true,
            RemoteAddr::Udp(_) | RemoteAddr::Unixgram(_) => false,
        }
    }
}
