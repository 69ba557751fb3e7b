ghost use Rattle.std.specs.Prelude.{ℕ, ◌≡◌, ◌%◌, ◌^◌, ◌≤◌, true, false, not, Some, IsTrue, ◌↔◌, length, slice_get, replicate, count_by, MatchOption, IfSome, IsNone, IfOk};
ghost use Rattle.buddy.specs.Frames.{AllAre, HasNoStart, IsLeastStart, least_start, marked};

use crate::bits::{flip, is_set, least_run};
use std::alloc::{AllocError, Global};
use std::marker::Model;

/// Frames, each taken or free. Its room is made once, so only `new` takes memory.
#[derive(Debug, Drop)]
pub struct Zone {
    // A bit for each frame, set where it is free.
    words: Vec<u64>,
    frames: u32,
    free: u32,
}

impl Model for Zone {
    ghost use Rattle.std.specs.Prelude.{List, Bool};
    ghost use Rattle.buddy.specs.Bits.{frames_of, IsZone};

    ghost Value = { List Bool };

    ghost view = { λ zone. frames_of zone.frames zone.words.items };

    ghost invariant = { λ zone. IsZone zone.words.items zone.frames zone.free };
}

impl Zone {
    /// A zone of so many frames, all free.
    pub fn new(alloc: Global, frames: u32) -> Result<Zone, AllocError>
        requires { frames ≤ 1024 }
        ensures { IfOk result (λ zone. zone ≡ replicate frames false) }
    {
        let mut words = vec![in alloc; u64::MAX; (frames / 64) as usize]?;
        words.push((1 << (frames % 64)) - 1)?;
        Ok(Zone {
            words,
            frames,
            free: frames,
        })
    }

    /// Takes the least run of 2^order free frames that starts at a multiple of 2^order.
    pub fn take(&mut self, order: u32) -> Option<u32>
        requires { order ≤ 10 }
        ensures value { result ≡ least_start self.old order }
        ensures least { MatchOption result (HasNoStart self.old order) (IsLeastStart self.old order) }
        ensures taken { IfSome result (λ start. self.new ≡ marked true start order self.old) }
        ensures none { IsNone result → self.new ≡ self.old }
    {
        let start = least_run(&self.words, order)?;
        flip(&mut self.words, start, order);
        self.free -= 1 << order;
        Some(start)
    }

    /// Frees 2^order frames that were taken.
    pub fn give(&mut self, frame: u32, order: u32)
        requires small { order ≤ 10 }
        requires aligned { frame % 2 ^ order ≡ 0 }
        requires taken { AllAre true self.old frame order }
        ensures { self.new ≡ marked false frame order self.old }
    {
        flip(&mut self.words, frame, order);
        self.free += 1 << order;
    }

    /// Whether it is a frame of the zone, and taken.
    pub fn is_taken(&self, frame: u32) -> bool
        ensures { IsTrue result ↔ (slice_get self.now frame ≡ Some true) }
    {
        frame < self.frames && !is_set(&self.words, frame)
    }

    /// How many frames there are.
    pub fn frames(&self) -> u32
        ensures { result ≡ length self.now }
    {
        self.frames
    }

    /// How many frames are free.
    pub fn free_frames(&self) -> u32
        ensures { result ≡ count_by not self.now }
    {
        self.free
    }
}
