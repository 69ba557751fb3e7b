//! A source and a sink in memory, which fail at chosen calls.
ghost use Rattle.std.specs.Prelude.{◌≡◌, ◌+◌, ◌<◌, ◌≤◌, ◌↔◌, [], ◌++◌, length, min, take, drop, Some, Contains, IsErr, IfOk, OnErr};
ghost use Rattle.std.specs.Io.{ReadsAtMost, WritesAtMost};
ghost use Rattle.std.specs.Io.KnownBytes.{ReadConsumes, WriteAppends};
ghost use Rattle.outside.specs.Bytes.{IsZeroAtEnd};
ghost use Rattle.outside.specs.Faults.{HasCause};
ghost use Rattle.outside.specs.Memory.{after_giving, after_refusing, given_count, after_taking, after_failing, taken_count, IsRefused};

use crate::faults::Failed;
use crate::traits::{Sink, Source};
use std::alloc::{AllocError, Global};
use std::marker::Model;

/// Gives the bytes of a vector in pieces. It fails exactly at the calls whose numbers are listed.
#[derive(Debug, Drop)]
pub struct MemSource {
    bytes: Vec<u8>,
    read: usize,
    failing: Vec<u64>,
    piece: usize,
    next: u64,
    faults: u64,
}

impl Model for MemSource {
    ghost use Rattle.std.specs.Prelude.{◌≤◌, drop, vec_len};
    ghost use Rattle.outside.specs.Memory.{Reading};

    ghost Value = { Reading };

    ghost view = { λ s. record { left = drop s.read s.bytes.items; failing = s.failing.items; piece = s.piece; next = s.next; faults = s.faults } };

    ghost invariant = { λ s. (s.read ≤ vec_len s.bytes) × (1 ≤ s.piece) };
}

impl MemSource {
    pub fn new(bytes: Vec<u8>, failing: Vec<u64>, piece: usize) -> MemSource
        requires { 1 ≤ piece }
        ensures { result
            ≡ record { left = bytes.items; failing = failing.items; piece = piece; next = 0; faults = 0 } }
    {
        MemSource {
            bytes,
            read: 0,
            failing,
            piece,
            next: 0,
            faults: 0,
        }
    }
}

// Copies as many bytes as both have, and at most `piece`, and answers how many.
fn copy_piece(from: &[u8], to: &mut [u8], piece: usize) -> usize
    ensures count { result ≡ min piece (min (length to.old) (length from.now)) }
    ensures copied { to.new ≡ take result from.now ++ drop result to.old }
    ensures front { take result to.new ≡ take result from.now }
{
    let n = piece.min(to.len().min(from.len()));
    to[..n].copy_from_slice(&from[..n]);
    n
}

impl Source for MemSource {
    ghost left = { λ s. Some s.left };

    ghost faults = { λ s. s.faults };

    fn read(&mut self, buffer: &mut [u8]) -> Result<usize, Failed>
        requires { 0 < length buffer.old }
        ensures bound { ReadsAtMost result buffer.new }
        ensures bytes { ReadConsumes (Some self.old.left) (Some self.new.left) result buffer.new }
        ensures end { IfOk result (IsZeroAtEnd (Some self.old.left)) }
        ensures unread { OnErr result (buffer.new ≡ buffer.old) }
        ensures cause { HasCause self.old.faults self.new.faults result }

        // What the source does, call by call.
        ensures fails { IsErr result ↔ Contains self.old.failing self.old.next }
        ensures count { IfOk result (λ n. n ≡ given_count (length buffer.old) self.old) }
        ensures copied { IfOk result (λ n. buffer.new ≡ take n self.old.left ++ drop n buffer.old) }
        ensures given { IfOk result (λ n. self.new ≡ after_giving n self.old) }
        ensures refused { OnErr result (self.new ≡ after_refusing self.old) }
    {
        let fails = self.failing.contains(&self.next);
        self.next = self.next.saturating_add(1);
        if fails {
            self.faults = self.faults.saturating_add(1);
            return Err(Failed);
        }
        let n = copy_piece(&self.bytes[self.read..], buffer, self.piece);
        self.read += n;
        Ok(n)
    }
}

/// Takes bytes in pieces, up to a number for which it has room from the start. It fails exactly where
/// it is full and at the calls whose numbers are listed.
#[derive(Debug, Drop)]
pub struct MemSink {
    bytes: Vec<u8>,
    room: usize,
    failing: Vec<u64>,
    piece: usize,
    next: u64,
    faults: u64,
}

impl Model for MemSink {
    ghost use Rattle.std.specs.Prelude.{◌≤◌, vec_len, vec_capacity};
    ghost use Rattle.outside.specs.Memory.{Writing};

    ghost Value = { Writing };

    ghost view = { λ s. record { taken = s.bytes.items; room = s.room; failing = s.failing.items; piece = s.piece; next = s.next; faults = s.faults } };

    ghost invariant = { λ s. (vec_len s.bytes ≤ s.room) × (s.room ≤ vec_capacity s.bytes) × (1 ≤ s.piece) };
}

impl MemSink {
    pub fn new(
        alloc: Global,
        room: usize,
        failing: Vec<u64>,
        piece: usize,
    ) -> Result<MemSink, AllocError>
        requires { 1 ≤ piece }
        ensures { IfOk result (λ s. s
            ≡ record { taken = []; room = room; failing = failing.items; piece = piece; next = 0; faults = 0 }) }
    {
        Ok(MemSink {
            bytes: Vec::with_capacity(alloc, room)?,
            room,
            failing,
            piece,
            next: 0,
            faults: 0,
        })
    }

    /// The bytes that it took, in order.
    pub fn taken(&self) -> &[u8]
        ensures { result.now ≡ self.now.taken }
    {
        self.bytes.as_slice()
    }
}

impl Sink for MemSink {
    ghost taken = { λ s. Some s.taken };

    ghost faults = { λ s. s.faults };

    fn write(&mut self, bytes: &[u8]) -> Result<usize, Failed>
        requires { 0 < length bytes.now }
        ensures bound { WritesAtMost result bytes.now }
        ensures some { IfOk result (λ n. 0 < n) }
        ensures bytes { WriteAppends (Some self.old.taken) (Some self.new.taken) result bytes.now }
        ensures cause { HasCause self.old.faults self.new.faults result }

        // What the sink does, call by call.
        ensures fails { IsErr result ↔ IsRefused self.old }
        ensures count { IfOk result (λ n. n ≡ taken_count bytes.now self.old) }
        ensures took { IfOk result (λ n. self.new ≡ after_taking n bytes.now self.old) }
        ensures refused { OnErr result (self.new ≡ after_failing self.old) }
    {
        let fails = self.failing.contains(&self.next);
        self.next = self.next.saturating_add(1);
        let room = self.room - self.bytes.len();
        if fails || room == 0 {
            self.faults = self.faults.saturating_add(1);
            return Err(Failed);
        }
        let n = self.piece.min(bytes.len().min(room));
        self.bytes.extend_from_slice(&bytes[..n]).unwrap();
        Ok(n)
    }
}
