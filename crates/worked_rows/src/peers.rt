//! Those who fetch the page of a row, as its file writes them, and what they were answered.

use crate::row::{Device, add, count, sound_device};
use metrics_core::MemorySink;
use prom_serve::{Exchange, MemoryConn, MemoryListener};
use std::alloc::Global;
use std::io::ErrorKind;
use std::net::IpAddr;
use std::{io, str};

/// A peer of a row: what it sends, and how its connection behaves.
#[derive(Drop)]
struct Peer {
    address: Option<IpAddr>,
    request: Vec<u8>,
    /// How many bytes `\f` in its line fills.
    fill: usize,
    reads: Device,
    writes: Device,
}

/// Lets the peers of a file wait at a listener, in order, and answers how many they are.
pub fn add_peers(alloc: Global, listener: &mut MemoryListener, peers: &[u8]) -> io::Result<usize> {
    let Ok(peers) = str::from_utf8(peers) else {
        return Err(io::Error::from(ErrorKind::InvalidData));
    };
    for line in peers.lines() {
        add_peer(alloc, listener, read_peer(alloc, line)?)?;
    }
    Ok(peers.lines().count())
}

/// Lets a peer wait behind the others.
fn add_peer(alloc: Global, listener: &mut MemoryListener, peer: Peer) -> io::Result<()> {
    let Peer {
        address,
        request,
        fill: _,
        reads,
        writes,
    } = peer;
    let sink = MemorySink::new(alloc, writes.most.max(1), writes.failing);
    let exchange = Exchange::new(address, request, reads.most.max(1), reads.failing, sink);
    let added = match MemoryConn::new(alloc, exchange) {
        Ok(conn) => listener.add(conn),
        Err(refused) => Err(refused),
    };
    match added {
        Ok(()) => Ok(()),
        Err(_) => Err(io::Error::from(ErrorKind::OutOfMemory)),
    }
}

/// Reads a line of a file of peers.
fn read_peer(alloc: Global, line: &str) -> io::Result<Peer> {
    let (front, request) = line.split_once(" sends ").unwrap_or((line, ""));
    let (address, settings) = front.split_once(' ').unwrap_or((front, ""));
    let mut peer = Peer {
        address: read_address(address)?,
        request: Vec::new(alloc),
        fill: 0,
        reads: sound_device(alloc),
        writes: sound_device(alloc),
    };
    set_all(&mut peer, settings)?;
    read_request(&mut peer.request, peer.fill, request)?;
    Ok(peer)
}

/// The address that a word writes, or none where it is `-`.
fn read_address(word: &str) -> io::Result<Option<IpAddr>> {
    if word == "-" {
        return Ok(None);
    }
    match word.parse::<IpAddr>() {
        Ok(address) => Ok(Some(address)),
        Err(_) => Err(io::Error::from(ErrorKind::InvalidData)),
    }
}

/// Takes the settings of a peer over, one after another.
fn set_all(peer: &mut Peer, settings: &str) -> io::Result<()> {
    for setting in settings.split(' ') {
        if !setting.is_empty() {
            set(peer, setting)?;
        }
    }
    Ok(())
}

/// Takes one setting over.
fn set(peer: &mut Peer, setting: &str) -> io::Result<()> {
    let (name, value) = setting.split_once('=').unwrap_or((setting, ""));
    match name {
        "fill" => peer.fill = count(value)?,
        "reads-of" => peer.reads.most = count(value)?,
        "writes-of" => peer.writes.most = count(value)?,
        "read-fails" => add(&mut peer.reads.failing, value)?,
        "write-fails" => add(&mut peer.writes.failing, value)?,
        _ => return Err(io::Error::from(ErrorKind::InvalidData)),
    }
    Ok(())
}

/// Writes the bytes of a request, each backslash and the letter behind it as what they stand for.
fn read_request(request: &mut Vec<u8>, fill: usize, text: &str) -> io::Result<()> {
    let mut is_escaped = false;
    for byte in text.bytes() {
        if is_escaped {
            push_meant(request, fill, byte)?;
            is_escaped = false;
        } else if byte == b'\\' {
            is_escaped = true;
        } else {
            request.push(byte)?;
        }
    }
    Ok(())
}

/// Writes what a letter behind a backslash stands for: a byte, or letters `f` that fill so many bytes.
fn push_meant(request: &mut Vec<u8>, fill: usize, letter: u8) -> io::Result<()> {
    match letter {
        b'r' => request.push(b'\r')?,
        b'n' => request.push(b'\n')?,
        b't' => request.push(b'\t')?,
        b'0' => request.push(b'\0')?,
        b'\\' => request.push(b'\\')?,
        b'f' => {
            for _ in 0..fill {
                request.push(b'f')?;
            }
        }
        _ => return Err(io::Error::from(ErrorKind::InvalidData)),
    }
    Ok(())
}

/// What was written to each connection that a listener has back, of at most so many, in the order in which they were given back. Behind each
/// stands a line that tells how many bytes were read of it, and whether one of its calls failed.
pub fn answers_of(
    alloc: Global,
    listener: &mut MemoryListener,
    most: usize,
) -> io::Result<Vec<u8>> {
    let mut ended = Vec::new(alloc);
    for _ in 0..most {
        if let Some(exchange) = listener.take_finished() {
            ended.push(exchange)?;
        }
    }
    told(alloc, &ended)
}

/// What exchanges tell, the last one first.
fn told(alloc: Global, ended: &[Exchange]) -> io::Result<Vec<u8>> {
    let mut answers = Vec::new(alloc);
    for exchange in ended.iter().rev() {
        let length = exchange.taken().len();
        let failed = if exchange.has_failed() {
            ", failed"
        } else {
            ""
        };
        answers.extend_from_slice(exchange.written())?;
        answers.extend_from_slice(format!(in alloc; "\nread {length}{failed}\n")?.as_bytes())?;
    }
    Ok(answers)
}
