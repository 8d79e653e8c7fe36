//! Who is shown the page.

ghost use Rattle.std.specs.Prelude.{◌↔◌, option_copied, IsTrue};
ghost use Rattle.net_addresses.specs.Addresses.{Holds};
ghost use Rattle.std.specs.List.{Any};
ghost use Rattle.page_answers.specs.Asking.{IsAllowed};

use net_addresses::Network;
use std::net::IpAddr;

/// Whether a peer is shown the page: each is where no list of networks is given, and otherwise one whose address a network
/// of the list holds.
pub fn is_allowed(networks: Option<&[Network]>, peer: Option<IpAddr>) -> bool
    ensures { IsTrue result ↔ IsAllowed (option_copied networks.entry) peer }
{
    match (networks, peer) {
        (None, _) => true,
        (Some(_), None) => false,
        (Some(networks), Some(address)) => is_held(networks, &address),
    }
}

/// Whether a network of a list holds an address.
fn is_held(networks: &[Network], address: &IpAddr) -> bool
    ensures { IsTrue result ↔ Any (λ network. Holds network address.now) networks.now }
{
    networks.iter().any(|network| network.holds(address))
}
