//! The reading of a head.

ghost use Rattle.std.specs.Prelude.{◌≡◌, ℕ, ◌≤◌, ◌⊎◌, length, take, MatchBool, IsSome, IfSome, IfOk, OnErr, OnOk};
ghost use Rattle.httparse.specs.Spans.{RequestExceeds};
ghost use Rattle.page_answers.specs.Connections.{CountsFaults};
ghost use Rattle.page_answers.specs.Readings.{AreDecided, CallForMore, WereRead};

use crate::Conn;
use httparse::spans::{EMPTY_HEADER_SPAN, HeaderSpan, parse_request};
use httparse::{Error, Status};
use metrics_core::{Failed, Memory};
use std::alloc::Global;
use std::marker::Model;

/// How many bytes are read of a head at most.
const MOST_BYTES: usize = 65_536;

/// More fields than so many bytes hold.
const MOST_FIELDS: usize = 32_768;

/// Whether some bytes begin with a complete head, or never will; where they don't, they call for more. Where there is no room for its
/// fields that isn't known.
fn are_decided(bytes: &[u8], fields: &mut [HeaderSpan]) -> bool
    ensures { MatchBool result (AreDecided bytes.now) (CallForMore bytes.now
        ⊎ RequestExceeds (length fields.old) bytes.now) }
{
    match parse_request(bytes, fields) {
        Ok(Status::Complete(_)) => true,
        Ok(Status::Partial) | Err(Error::TooManyHeaders) => false,
        Err(_) => true,
    }
}

/// Reads a head to the front of a buffer of 65,536 bytes, and answers how many bytes were read. The reading ends as soon as
/// the bytes begin with a complete head, or never will, or the buffer is full, or the input ends: nothing is read of a peer while
/// it waits for its answer.
///
/// A peer may send any number of bytes and then wait for the answer, so the bytes are looked at after each read. A read takes
/// all that has come, so a head that comes at once is looked at once; one that comes in pieces is looked at once a piece.
fn read_head<C: Conn>(
    conn: &mut C,
    bytes: &mut [u8],
    fields: &mut [HeaderSpan],
) -> Result<usize, Failed>
    requires room { length bytes.old ≡ 65536 }
    requires fields { length fields.old ≡ 32768 }
    ensures bound { IfOk result (λ n. n ≤ length bytes.old) }
    ensures read { IfSome (C.told conn.old)
        (λ before. IfOk result (λ n. WereRead before (C.told conn.new) (take n bytes.new))) }
    ensures tells { IsSome (C.told conn.old) → IsSome (C.told conn.new) }
    ensures who { C.who conn.new ≡ C.who conn.old }
    ensures faults { CountsFaults result (C.faults conn.old) (C.faults conn.new) }
{
    let mut length = 0;
    while length < bytes.len() {
        let count = conn.read(&mut bytes[length..])?;
        if count == 0 {
            return Ok(length);
        }
        length += count;
        if are_decided(&bytes[..length], fields) {
            return Ok(length);
        }
    }
    Ok(length)
}

/// The room in which heads are read, one after another.
#[derive(Drop)]
pub struct HeadRoom {
    bytes: Vec<u8>,
    fields: Vec<HeaderSpan>,
}

impl Model for HeadRoom {
    ghost use Rattle.std.specs.Prelude.{◌≡◌, ℕ, List, length};

    ghost Value = { List ℕ };

    ghost view = { λ room. room.bytes.items };

    ghost invariant = { λ room. (length room.bytes.items ≡ 65536)
        × (length room.fields.items ≡ 32768) };
}

impl HeadRoom {
    /// The room for heads of at most 65,536 bytes.
    pub fn new(alloc: Global) -> Result<HeadRoom, Memory> {
        Ok(HeadRoom {
            bytes: vec![in alloc; 0; MOST_BYTES]?,
            fields: vec![in alloc; EMPTY_HEADER_SPAN; MOST_FIELDS]?,
        })
    }

    /// Reads a head, and answers how many bytes were read.
    pub fn read<C: Conn>(&mut self, conn: &mut C) -> Result<usize, Failed>
        ensures bound { IfOk result (λ n. n ≤ length self.new) }
        ensures read { IfSome (C.told conn.old)
            (λ before. IfOk result (λ n. WereRead before (C.told conn.new) (take n self.new))) }
        ensures tells { IsSome (C.told conn.old) → IsSome (C.told conn.new) }
        ensures who { C.who conn.new ≡ C.who conn.old }
        ensures faults { CountsFaults result (C.faults conn.old) (C.faults conn.new) }
    {
        read_head(conn, self.bytes.as_mut_slice(), self.fields.as_mut_slice())
    }

    /// The first bytes that were read.
    pub fn head(&self, end: usize) -> &[u8]
        requires { end ≤ length self.now }
        ensures { result.now ≡ take end self.now }
    {
        &self.bytes[..end]
    }
}
