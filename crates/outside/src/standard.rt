//! The edge to std's input and output. What the outside gives and takes is trusted: a source here tells
//! no bytes that are left, and a sink none that it took.
ghost use Rattle.std.specs.Prelude.{◌≡◌, ◌<◌, length, None, IfOk, OnErr};
ghost use Rattle.std.specs.Io.{ReadsAtMost, WritesAtMost};
ghost use Rattle.std.specs.Io.KnownBytes.{ReadConsumes, WriteAppends};
ghost use Rattle.outside.specs.Bytes.{IsZeroAtEnd};
ghost use Rattle.outside.specs.Faults.{HasCause, one_more};

use crate::faults::Failed;
use crate::traits::{Sink, Source};
use crate::whole::PIECE;
use std::io::{Error, Read, Write};
use std::marker::Model;

/// Reads from a reader of std's, as standard input. This is the trusted edge: the reader of standard
/// input tells no bytes, so nothing says which it gives. Each error of the reader is a fault.
#[derive(Drop)]
pub struct StdSource<I: Read> {
    input: I,
    faults: u64,
}

impl<I: Read> Model for StdSource<I> {
    ghost use Rattle.outside.specs.Edge.{Edge};

    ghost Value = { Edge };

    ghost view = { λ s. record { told = I.remaining s.input; faults = s.faults } };
}

impl<I: Read> StdSource<I> {
    pub fn new(input: I) -> StdSource<I>
        ensures { result ≡ record { told = I.remaining input; faults = 0 } }
    {
        StdSource { input, faults: 0 }
    }
}

// Reads by way of a piece of its own, since a reader of std's may write to the buffer and fail then.
fn read_piece<I: Read>(input: &mut I, piece: &mut [u8], buffer: &mut [u8]) -> Result<usize, Error>
    requires piece { 0 < length piece.old }
    requires room { 0 < length buffer.old }
    ensures bound { ReadsAtMost result buffer.new }
    ensures told { ReadConsumes (I.remaining input.old) (I.remaining input.new) result buffer.new }
    ensures unread { OnErr result (buffer.new ≡ buffer.old) }
{
    let room = piece.len().min(buffer.len());
    let front = &mut piece[..room];
    let n = input.read(front)?;
    buffer[..n].copy_from_slice(&front[..n]);
    Ok(n)
}

impl<I: Read> Source for StdSource<I> {
    ghost left = { λ _. None };

    ghost faults = { λ s. s.faults };

    fn read(&mut self, buffer: &mut [u8]) -> Result<usize, Failed>
        requires { 0 < length buffer.old }
        ensures bound { ReadsAtMost result buffer.new }
        ensures bytes { ReadConsumes None None result buffer.new }
        ensures end { IfOk result (IsZeroAtEnd None) }
        ensures unread { OnErr result (buffer.new ≡ buffer.old) }
        ensures cause { HasCause self.old.faults self.new.faults result }

        // What the reader tells is read, and the count rises by one where the call fails.
        ensures told { ReadConsumes self.old.told self.new.told result buffer.new }
        ensures err { OnErr result (self.new.faults ≡ one_more self.old.faults) }
    {
        let mut piece = [0u8; PIECE];
        match read_piece(&mut self.input, &mut piece, buffer) {
            Ok(n) => Ok(n),
            Err(_) => {
                self.faults = self.faults.saturating_add(1);
                Err(Failed)
            }
        }
    }
}

/// Writes to a writer of std's, as standard output. This is the trusted edge: the writer of standard
/// output tells no bytes, so nothing says where they go. Each error of the writer is a fault, and so is
/// an answer that it took no byte.
#[derive(Drop)]
pub struct StdSink<O: Write> {
    output: O,
    faults: u64,
}

impl<O: Write> Model for StdSink<O> {
    ghost use Rattle.outside.specs.Edge.{Edge};

    ghost Value = { Edge };

    ghost view = { λ s. record { told = O.contents s.output; faults = s.faults } };
}

impl<O: Write> StdSink<O> {
    pub fn new(output: O) -> StdSink<O>
        ensures { result ≡ record { told = O.contents output; faults = 0 } }
    {
        StdSink { output, faults: 0 }
    }
}

impl<O: Write> Sink for StdSink<O> {
    ghost taken = { λ _. None };

    ghost faults = { λ s. s.faults };

    fn write(&mut self, bytes: &[u8]) -> Result<usize, Failed>
        requires { 0 < length bytes.now }
        ensures bound { WritesAtMost result bytes.now }
        ensures some { IfOk result (λ n. 0 < n) }
        ensures bytes { WriteAppends None None result bytes.now }
        ensures cause { HasCause self.old.faults self.new.faults result }

        // What the writer tells is written, and the count rises by one where the call fails.
        ensures told { WriteAppends self.old.told self.new.told result bytes.now }
        ensures err { OnErr result (self.new.faults ≡ one_more self.old.faults) }
    {
        match self.output.write(bytes) {
            Ok(n) if n > 0 => Ok(n),
            _ => {
                self.faults = self.faults.saturating_add(1);
                Err(Failed)
            }
        }
    }
}
