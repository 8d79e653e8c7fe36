//! Addresses, sockets and networks.

use net_addresses::*;
use std::net::{IpAddr, SocketAddr};

fn v4(octets: [u8; 4]) -> Option<IpAddr> {
    Some(IpAddr::from(octets))
}

fn v6(groups: [u16; 8]) -> Option<IpAddr> {
    Some(IpAddr::from(groups))
}

fn socket(ip: Option<IpAddr>, port: u16) -> Option<SocketAddr> {
    Some(SocketAddr::new(ip?, port))
}

/// Whether a network holds an address, where both texts are ones.
fn held(network: &str, address: &str) -> Option<bool> {
    let network = Network::from_text(network)?;
    Some(network.holds(&read_ip(address)?))
}

#[test]
fn addresses_of_four_octets(rt: HostRuntime) {
    for (text, octets) in &[
        ("127.0.0.1", [127, 0, 0, 1]),
        ("255.0.10.9", [255, 0, 10, 9]),
    ] {
        assert!(rt; read_ip(text) == v4(*octets), "{text}");
    }
}

#[test]
fn addresses_of_eight_groups(rt: HostRuntime) {
    for (text, groups) in &[
        ("1:2:3:4:5:6:7:8", [1, 2, 3, 4, 5, 6, 7, 8]),
        ("2001:DB8::ff", [0x2001, 0xdb8, 0, 0, 0, 0, 0, 0xff]),
        ("::", [0, 0, 0, 0, 0, 0, 0, 0]),
        ("1::", [1, 0, 0, 0, 0, 0, 0, 0]),
        ("1:2:3:4:5:6:7::", [1, 2, 3, 4, 5, 6, 7, 0]),
        ("::ffff:10.2.3.4", [0, 0, 0, 0, 0, 0xffff, 0x0a02, 0x0304]),
        ("1:2:3:4:5:6:1.2.3.4", [1, 2, 3, 4, 5, 6, 0x0102, 0x0304]),
    ] {
        assert!(rt; read_ip(text) == v6(*groups), "{text}");
    }
}

#[test]
fn texts_that_are_no_address(rt: HostRuntime) {
    for text in &[
        "127.0.0.01",
        "127.0.0.256",
        "127.0.0",
        "1::2::3",
        "1:2:3:4:5:6:7:8:9",
        "1:2:3:4:5:6:7:8::",
        "1:2:3:4:5:6:7",
        "12345::",
        "1.2.3.4::",
        "",
    ] {
        assert!(rt; read_ip(text).is_none(), "{text}");
    }
}

#[test]
fn sockets(rt: HostRuntime) {
    for (text, port) in &[
        ("127.0.0.1:8125", 8125),
        ("127.0.0.1:0", 0),
        ("127.0.0.1:65535", 65535),
    ] {
        assert!(rt;
            read_socket(text) == socket(v4([127, 0, 0, 1]), *port),
            "{text}"
        );
    }
    assert!(rt; read_socket("[::1]:80") == socket(v6([0, 0, 0, 0, 0, 0, 0, 1]), 80));
}

#[test]
fn texts_that_are_no_socket(rt: HostRuntime) {
    for text in &[
        "127.0.0.1:65536",
        "127.0.0.1:08125",
        "127.0.0.1:+80",
        "127.0.0.1:",
        "127.0.0.1",
        "[::1%1]:80",
        "[::1]80",
        "[127.0.0.1]:80",
        "::1:80",
        "localhost:80",
    ] {
        assert!(rt; read_socket(text).is_none(), "{text}");
    }
}

#[test]
fn networks(rt: HostRuntime) {
    for (network, address, holds) in &[
        ("10.0.0.0/8", "10.2.3.4", true),
        ("10.9.9.9/8", "10.2.3.4", true),
        ("10.0.0.0/8", "11.2.3.4", false),
        ("10.0.0.0/8", "::ffff:10.2.3.4", false),
        ("0.0.0.0/0", "203.0.113.7", true),
        ("127.0.0.1", "127.0.0.1", true),
        ("127.0.0.1", "127.0.0.2", false),
        ("2001:db8::/33", "2001:db8:7fff::1", true),
        ("2001:db8::/33", "2001:db8:8000::1", false),
        ("::/0", "::1", true),
        ("::1/128", "::1", true),
    ] {
        assert!(rt; held(network, address) == Some(*holds), "{network}");
    }
}

#[test]
fn texts_that_are_no_network(rt: HostRuntime) {
    for network in &[
        "::1/33x",
        "::1/129",
        "10.0.0.0/33",
        "10.0.0.0/08",
        "10.0.0.0/",
        "/8",
    ] {
        assert!(rt; Network::from_text(network).is_none(), "{network}");
    }
}

#[test]
fn readings() {
    ip_texts_have_one_reading();
    socket_texts_have_one_reading();
    network_texts_have_one_reading();
}
