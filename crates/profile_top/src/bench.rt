//! What the tests hand to the calls.

use outside::{MemSink, MemSource};
use std::alloc::{AllocError, Global};

/// The words of a command line.
pub(crate) fn owned(alloc: Global, words: &[&str]) -> Result<Vec<String>, AllocError> {
    let mut all = Vec::new(alloc);
    for word in words {
        all.push(String::from_str(alloc, word)?)?;
    }
    Ok(all)
}

/// A source of these bytes. It gives 64 a call, and the calls of these numbers fail.
pub(crate) fn source_of(
    alloc: Global,
    bytes: &[u8],
    failing: &[u64],
) -> Result<MemSource, AllocError> {
    Ok(MemSource::new(bytes.to_vec(alloc)?, failing.to_vec(alloc)?, 64))
}

/// A sink that takes 8 bytes a call. The calls of these numbers fail.
pub(crate) fn sink_of(alloc: Global, failing: &[u64]) -> Result<MemSink, AllocError> {
    MemSink::new(alloc, 1_000, failing.to_vec(alloc)?, 8)
}
