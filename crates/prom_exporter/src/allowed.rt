//! Which peers may have pages.

ghost use Rattle.std.specs.Prelude.{◌≡◌, None, option_copied, OnOk};
ghost use Rattle.prom_exporter.specs.Builder.{allowed_with};

use metrics_core::{Memory, Network};
use std::alloc::Global;
use std::marker::Model;

/// The networks whose peers may have pages. Where no network was added, every peer may. A contract sees the networks in the
/// order in which they were added.
#[derive(Drop)]
pub(crate) struct AllowedNetworks {
    networks: Option<Vec<Network>>,
}

impl Model for AllowedNetworks {
    ghost use Rattle.std.specs.Prelude.{Option, List, option_map};
    ghost use Rattle.net_addresses.specs.Addresses.{NetworkText};

    ghost Value = { Option (List NetworkText) };

    ghost view = { λ allowed. option_map (λ networks. networks.items) allowed.networks };
}

impl AllowedNetworks {
    /// Every peer.
    pub(crate) fn new() -> AllowedNetworks
        ensures { result ≡ None }
    {
        AllowedNetworks { networks: None }
    }

    /// Adds a network.
    pub(crate) fn add(&mut self, alloc: Global, network: Network) -> Result<(), Memory>
        ensures { OnOk result (self.new ≡ allowed_with network self.old) }
    {
        match &mut self.networks {
            Some(networks) => networks.push(network)?,
            None => self.networks = Some(Vec::from_array(alloc, [network])?),
        }
        Ok(())
    }

    /// The networks, or none where every peer may have pages.
    pub(crate) fn networks(&self) -> Option<&[Network]>
        ensures { option_copied result ≡ self.now }
    {
        match &self.networks {
            Some(networks) => Some(networks.as_slice()),
            None => None,
        }
    }
}
