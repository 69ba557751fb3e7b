ghost use Rattle.std.specs.Prelude.{ℕ, ◌≡◌, ◌*◌, ◌<◌, ◌≤◌, IfOk, false, length, position, replicate, slice_set};
ghost use Rattle.slab_cache.specs.Bits.{IsPut};

use buddy::{flip, is_set, least_run};
use std::alloc::{AllocError, Global};
use std::marker::Model;

/// A set of frames, with a bit for each.
#[derive(Debug, Drop)]
pub(crate) struct FrameSet {
    words: Vec<u64>,
    frames: u32,
}

impl Model for FrameSet {
    ghost use Rattle.std.specs.Prelude.{Bool, List};
    ghost use Rattle.slab_cache.specs.Bits.{IsFrameSet, set_bits};

    ghost Value = { List Bool };

    ghost view = { λ set. set_bits set.frames set.words.items };

    ghost invariant = { λ set. IsFrameSet set.words.items set.frames };
}

impl FrameSet {
    /// None of so many frames.
    pub fn new(alloc: Global, frames: u32) -> Result<FrameSet, AllocError>
        requires { frames ≤ 1024 }
        ensures { IfOk result (λ set. set ≡ replicate frames false) }
    {
        let words = vec![in alloc; 0; (frames / 64) as usize + 1]?;
        Ok(FrameSet { words, frames })
    }

    /// The lowest frame of the set.
    pub fn lowest(&self) -> Option<u32>
        ensures { result ≡ position (λ inside. inside) self.now }
    {
        least_run(&self.words, 0)
    }

    /// Puts a frame into the set, or takes it out.
    pub fn put(&mut self, frame: u32, inside: bool)
        requires { frame < length self.old }
        ensures { self.new ≡ slice_set self.old frame inside }
    {
        put_bit(&mut self.words, frame, inside);
    }
}

// Sets a bit of the words, or unsets it.
fn put_bit(words: &mut [u64], bit: u32, inside: bool)
    requires { bit < 64 * length words.old }
    ensures { IsPut words.old words.new bit inside }
{
    if is_set(words, bit) != inside {
        flip(words, bit, 0);
    }
}
