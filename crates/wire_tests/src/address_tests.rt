//! Worked examples of addresses to send to: with ample memory they are read and copied, or the reason why not is made.

use dsd_exporter::{BuildError, RemoteAddr};
use metrics_core::Memory;
use std::alloc::Global;
use std::test::Fail;

/// How the copy of an address is shown.
fn shown(alloc: Global, address: &RemoteAddr) -> Result<String, Memory> {
    let copy = address.clone(alloc)?;
    let transport = copy.transport_id();
    let limit = copy.default_max_payload_len();
    Ok(format!(in alloc; "{copy} {transport} {limit}")?)
}

/// How a refusal is shown.
fn refusal(alloc: Global, refused: &BuildError) -> Result<String, Memory> {
    Ok(format!(in alloc; "{refused}")?)
}

/// How the address of a text is shown, or why it is refused. Here alone addresses and refusals are dropped.
fn read(alloc: Global, text: &str) -> Result<String, Memory> {
    match RemoteAddr::from_text(alloc, text) {
        Ok(address) => shown(alloc, &address),
        Err(refused) => refusal(alloc, &refused),
    }
}

#[test]
fn texts_are_addresses_or_refused(rt: HostRuntime) -> Result<(), Fail> {
    let rows = [
        ("127.0.0.1:8125", "udp://127.0.0.1:8125 udp 1432"),
        ("udp://[::1]:8125", "udp://[::1]:8125 udp 1432"),
        ("unix:///tmp/s", "unix:///tmp/s uds-stream 8192"),
        ("unixgram:///tmp/s", "unixgram:///tmp/s uds 8192"),
        (
            "spongebob://127.0.0.1:8675",
            "invalid remote address: invalid scheme 'spongebob' (expected 'udp', 'unix', or 'unixgram')",
        ),
        (
            "localhost:8125",
            "invalid remote address: not a numeric address and port: 'localhost:8125'",
        ),
    ];
    for (text, expected) in rows {
        assert_eq!(rt; read(rt.alloc(), text)?.as_str(), expected);
    }
    Ok(())
}
