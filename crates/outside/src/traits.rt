//! What a source and a sink of bytes promise.
ghost use Rattle.std.specs.Prelude.{◌≡◌, ℕ, List, ◌<◌, length, Option, IfOk, OnErr};
ghost use Rattle.std.specs.Io.{ReadsAtMost, WritesAtMost};
ghost use Rattle.std.specs.Io.KnownBytes.{ReadConsumes, WriteAppends};
ghost use Rattle.outside.specs.Bytes.{IsZeroAtEnd};
ghost use Rattle.outside.specs.Faults.{HasCause};

use crate::faults::Failed;

/// Where bytes are read from.
pub trait Source {
    // The bytes not yet read, where the source tells them.
    ghost left: { Self → Option (List ℕ) };

    // How many calls failed so far. The count stays at 2^64 - 1 once it is there.
    ghost faults: { Self → ℕ };

    /// Moves the first bytes that are left into the front of the buffer, and answers how many. Where it
    /// fails, the buffer is as it was.
    fn read(&mut self, buffer: &mut [u8]) -> Result<usize, Failed>
        requires { 0 < length buffer.old }
        ensures bound { ReadsAtMost result buffer.new }
        ensures bytes { ReadConsumes (left self.old) (left self.new) result buffer.new }
        ensures end { IfOk result (IsZeroAtEnd (left self.old)) }
        ensures unread { OnErr result (buffer.new ≡ buffer.old) }
        ensures cause { HasCause (faults self.old) (faults self.new) result };
}

/// Where bytes are written to.
pub trait Sink {
    // The bytes taken so far, where the sink tells them.
    ghost taken: { Self → Option (List ℕ) };

    // How many calls failed so far. The count stays at 2^64 - 1 once it is there.
    ghost faults: { Self → ℕ };

    /// Takes the first of these bytes, at least one, and answers how many.
    fn write(&mut self, bytes: &[u8]) -> Result<usize, Failed>
        requires { 0 < length bytes.now }
        ensures bound { WritesAtMost result bytes.now }
        ensures some { IfOk result (λ n. 0 < n) }
        ensures bytes { WriteAppends (taken self.old) (taken self.new) result bytes.now }
        ensures cause { HasCause (faults self.old) (faults self.new) result };
}
