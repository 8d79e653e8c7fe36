//! Networks: the addresses of one family that begin with the same bits.

ghost use Rattle.std.specs.Prelude.{◌≡◌, ◌-◌, ◌/◌, ◌^◌, ◌<◌, ◌≤◌, ◌↔◌, IsTrue};
ghost use Rattle.net_addresses.specs.Readings.{Reads, HasOneReading};
ghost use Rattle.net_addresses.specs.Addresses.{IsNetwork, Holds, family_bits, prefix_bits};

use crate::numbers::read_number;
use crate::parts::parts_round;
use crate::read_ip;
use std::marker::Model;
use std::net::IpAddr;

/// The addresses of one family whose first bits are those of this address, as many as the prefix says.
#[derive(Clone, Copy, Debug, PartialEq, Eq)]
pub struct Network {
    address: IpAddr,
    prefix: u8,
}

impl Model for Network {
    ghost use Rattle.std.specs.Prelude.{◌≤◌};
    ghost use Rattle.net_addresses.specs.Addresses.{NetworkText, family_bits};

    ghost Value = { NetworkText };

    ghost view = { λ network. record { address = network.address; prefix = network.prefix } };

    ghost invariant = { λ network. network.prefix ≤ family_bits network.address };

    ghost inverse = { λ network. record { address = network.address; prefix = network.prefix } };
}

/// How many bits an address of this family has.
fn bits_of_family(address: IpAddr) -> u8
    ensures { result ≡ family_bits address }
{
    match address {
        IpAddr::V4(_) => 32,
        IpAddr::V6(_) => 128,
    }
}

/// The first bits of a number of so many bits, as a number.
fn first_bits(width: u8, prefix: u8, bits: u128) -> u128
    requires prefix { prefix ≤ width }
    requires width { width ≤ 128 }
    requires bits { bits < 2 ^ width }
    ensures { result ≡ prefix_bits width prefix bits }
{
    if prefix == 0 {
        0
    } else {
        bits >> (width - prefix)
    }
}

impl Network {
    ghost use Rattle.std.specs.Prelude.{MatchOption};
    ghost use Rattle.net_addresses.specs.Addresses.{NetworkText, IsNetworkOf};

    /// The network that a text writes, or none where it writes none: an address, or an address, `/` and a prefix length
    /// of at most 32 for IPv4 and at most 128 for IPv6, without zeros in front. Without it the prefix is the whole
    /// address.
    pub fn from_text(text: &str) -> Option<Network>
        ensures { Reads IsNetwork text.now result }
    {
        match parts_round(text, '/') {
            None => match read_ip(text) {
                Some(address) => Some(Network {
                    address,
                    prefix: bits_of_family(address),
                }),
                None => None,
            },
            Some((address, length)) => Network::from_parts(address, length),
        }
    }

    /// The network of an address and a prefix length, each as its text.
    fn from_parts(address: &str, length: &str) -> Option<Network>
        ensures { MatchOption result ((network : NetworkText) → ¬ (IsNetworkOf address.now length.now network))
            (IsNetworkOf address.now length.now) }
    {
        let Some(address) = read_ip(address) else {
            return None;
        };
        match read_number(length, u16::from(bits_of_family(address))) {
            Some(length) => Some(Network {
                address,
                prefix: length as u8,
            }),
            None => None,
        }
    }

    /// Whether an address is of the network's family and begins with the same bits. Bits behind the prefix don't count.
    pub fn holds(&self, address: &IpAddr) -> bool
        ensures { IsTrue result ↔ Holds self.now address.now }
    {
        match (self.address, *address) {
            (IpAddr::V4(own), IpAddr::V4(other)) => {
                let own = first_bits(32, self.prefix, u128::from(own.to_bits()));
                own == first_bits(32, self.prefix, u128::from(other.to_bits()))
            }
            (IpAddr::V6(own), IpAddr::V6(other)) => {
                let own = first_bits(128, self.prefix, own.to_bits());
                own == first_bits(128, self.prefix, other.to_bits())
            }
            _ => false,
        }
    }
}

/// A law: no text writes two networks.
pub fn network_texts_have_one_reading()
    ensures { HasOneReading IsNetwork }
{}
