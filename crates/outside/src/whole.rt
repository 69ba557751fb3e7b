//! Reading a source to its end, and writing bytes whole.
ghost use Rattle.std.specs.Prelude.{◌≡◌, ◌+◌, ◌^◌, ◌<◌, ◌≤◌, vec_len, IfOk, IfErr, IsErrOf, OnOk, OnErr};
ghost use Rattle.std.specs.Io.KnownBytes.{Appends, Consumes, IsAtEnd};
ghost use Rattle.outside.specs.Bytes.{AppendsPrefix, Took};
ghost use Rattle.outside.specs.Faults.{HasCause, Rose};

use crate::faults::{Failed, ReadError};
use crate::traits::{Sink, Source};
use std::alloc::Global;

/// The most bytes of one call to a source.
pub(crate) const PIECE: usize = 4096;

/// Reads all bytes up to the end of the source, of which there may be `limit`. It asks for at most one
/// more. The bytes that were taken before an error stay taken. No call of the source failed, but where
/// the answer says so.
pub fn read_all<S: Source>(
    alloc: Global,
    source: &mut S,
    limit: usize,
) -> Result<Vec<u8>, ReadError>
    requires { limit < 2 ^ 32 }
    ensures bytes { IfOk result (λ v. Consumes (S.left source.old) (S.left source.new) v.items) }
    ensures end { OnOk result (IsAtEnd (S.left source.new)) }
    ensures within { IfOk result (λ v. vec_len v ≤ limit) }
    ensures took { IfErr result (λ e. Took limit e (S.left source.old) (S.left source.new)) }
    ensures kept { S.faults source.old ≤ S.faults source.new }
    ensures steady { ¬ IsErrOf result ReadError.Failed → S.faults source.new ≡ S.faults source.old }
    ensures cause { IsErrOf result ReadError.Failed → Rose (S.faults source.old) (S.faults source.new) }
{
    let mut buffer = [0u8; PIECE];
    let mut bytes = Vec::new(alloc);
    // The test for too many bytes comes before the vector grows, so that memory is never what is wanting once they
    // were taken.
    for _turn in 0..limit + 1 {
        let room = buffer.len().min(limit + 1 - bytes.len());
        let piece = &mut buffer[..room];
        let n = source.read(piece)?;
        if n == 0 {
            return Ok(bytes);
        }
        if n > limit - bytes.len() {
            return Err(ReadError::TooLong);
        }
        bytes.extend_from_slice(&piece[..n])?;
    }
    unreachable!()
}

/// Writes all the bytes, in order. Where it fails, a prefix of them went out. It takes no memory.
pub fn write_all<K: Sink>(sink: &mut K, bytes: &[u8]) -> Result<(), Failed>
    ensures whole { OnOk result (Appends (K.taken sink.old) (K.taken sink.new) bytes.now) }
    ensures prefix { OnErr result (AppendsPrefix (K.taken sink.old) (K.taken sink.new) bytes.now) }
    ensures cause { HasCause (K.faults sink.old) (K.faults sink.new) result }
{
    let mut sent = 0;
    while sent < bytes.len() {
        sent += sink.write(&bytes[sent..])?;
    }
    Ok(())
}
