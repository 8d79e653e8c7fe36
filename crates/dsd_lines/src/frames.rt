//! Streams of payloads, each led by its length in four bytes, little-endian.

ghost use Rattle.std.specs.Prelude.{◌≡◌, ◌↔◌, ◌++◌, ◌∷◌, [], ℕ, List, true, IsTrue, MatchOption, IfOk, OnOk, OnErr};
ghost use Rattle.dsd_writer.specs.Lines.{framed};
ghost use Rattle.dsd_lines.specs.Frames.{AreFrames, BeginsNoFrame, BeginsFrame, Splits};

use metrics_core::Memory;
use std::alloc::Global;
use std::marker::Model;

/// How many bytes lead a payload.
const LEAD: usize = 4;

/// Cuts a stream into its payloads, whatever the pieces in which it comes. A contract sees the bytes that were fed and stand in no
/// payload that was taken.
#[derive(Drop)]
pub struct Frames {
    bytes: Vec<u8>,
    /// Where the bytes begin that are left.
    begin: usize,
}

impl Model for Frames {
    ghost use Rattle.std.specs.Prelude.{◌≤◌, ℕ, List, drop, length};

    ghost Value = { List ℕ };

    ghost view = { λ frames. drop frames.begin frames.bytes.items };

    ghost invariant = { λ frames. frames.begin ≤ length frames.bytes.items };
}

impl Frames {
    /// No bytes. It takes no memory.
    pub fn new(alloc: Global) -> Frames
        ensures empty { result ≡ [] }
        ensures split { Splits [] [] result }
    {
        Frames {
            bytes: Vec::new(alloc),
            begin: 0,
        }
    }

    /// The stream goes on with a piece.
    pub fn feed(&mut self, piece: &[u8]) -> Result<(), Memory>
        ensures fed { OnOk result (self.new ≡ self.old ++ piece.now) }
        ensures split { OnOk result ((bytes : List ℕ) (frames : List (List ℕ))
            → Splits bytes frames self.old → Splits (bytes ++ piece.now) frames self.new) }
        ensures refused { OnErr result (self.new ≡ self.old) }
    {
        self.forget_taken();
        self.bytes.extend_from_slice(piece)?;
        Ok(())
    }

    /// Takes the next payload, if the stream so far has it whole. That costs as much as the payload is long, however much stands
    /// behind it.
    pub fn next_frame(&mut self, alloc: Global) -> Result<Option<Vec<u8>>, Memory>
        ensures frame { IfOk result (λ next.
            MatchOption next (BeginsNoFrame self.old × (self.new ≡ self.old))
            (λ frame. self.old ≡ framed true frame.items ++ self.new)) }
        ensures split { IfOk result (λ next. (bytes : List ℕ) (frames : List (List ℕ))
            → Splits bytes frames self.old
            → MatchOption next (AreFrames bytes frames) (λ frame. Splits bytes (frames ++ frame.items ∷ []) self.new)) }
        ensures refused { OnErr result (self.new ≡ self.old) }
    {
        let Some(payload) = first_frame(&self.bytes.as_slice()[self.begin..]) else {
            return Ok(None);
        };
        let length = payload.len();
        let frame = Vec::from_slice(alloc, payload)?;
        self.begin += LEAD + length;
        Ok(Some(frame))
    }

    /// Whether nothing is left: each byte that was fed stands in a payload that was taken.
    pub fn is_empty(&self) -> bool
        ensures { IsTrue result ↔ (self.now ≡ []) }
    {
        self.bytes.as_slice()[self.begin..].is_empty()
    }

    /// Gives the room of what was taken to what comes, once that is half of all bytes or more: so each byte is moved once at most
    /// for each that was taken.
    fn forget_taken(&mut self)
        ensures { self.new ≡ self.old }
    {
        let left = self.bytes.len() - self.begin;
        if self.begin < left {
            return;
        }
        self.bytes.as_mut_slice().rotate_left(self.begin);
        self.bytes.truncate(left);
        self.begin = 0;
    }
}

/// The payload at the front, if it is whole.
fn first_frame(bytes: &[u8]) -> Option<&[u8]>
    ensures { MatchOption result (BeginsNoFrame bytes.now)
        (λ payload. BeginsFrame bytes.now payload.now) }
{
    if bytes.len() < LEAD {
        return None;
    }
    let (lead, rest) = bytes.split_at(LEAD);
    let length = u32::from_le_bytes([lead[0], lead[1], lead[2], lead[3]]) as usize;
    if rest.len() < length {
        return None;
    }
    Some(&rest[..length])
}
