ghost use Rattle.std.specs.Prelude.{◌≡◌, ℕ, ◌*◌, ◌+◌, ◌<◌, List, length, replicate, IfOk, slice_index};
ghost use Rattle.tag_model.specs.StepRules.{raised, lowered};
ghost use Rattle.tag_model.specs.WordState.{word_place};

use std::alloc::{AllocError, Global};
use std::marker::Model;
use tag_model::Kind;

/// One CPU's words: for tag t its bytes at 2 t and its calls at 2 t + 1.
#[derive(Drop)]
pub struct CpuWords {
    words: Vec<u64>,
}

impl Model for CpuWords {
    ghost Value = { List ℕ };

    ghost view = { λ w. w.words.items };
}

/// Where a word stands.
fn place(kind: Kind, tag: u32) -> usize
    ensures { result ≡ word_place kind tag }
{
    let first = 2 * tag as usize;
    match kind {
        Kind::Bytes => first,
        Kind::Calls => first + 1,
    }
}

impl CpuWords {
    /// The words of so many tags, all 0.
    pub fn new(alloc: Global, tags: u32) -> Result<CpuWords, AllocError>
        ensures { IfOk result (λ w. w ≡ replicate (2 * tags) 0) }
    {
        Ok(CpuWords {
            words: vec![in alloc; 0; 2 * tags as usize]?,
        })
    }

    pub fn read(&self, kind: Kind, tag: u32) -> u64
        requires { word_place kind tag < length self.now }
        ensures { result ≡ slice_index self.now (word_place kind tag) }
    {
        self.words[place(kind, tag)]
    }

    /// Adds to a word, which wraps.
    pub fn raise(&mut self, kind: Kind, tag: u32, by: u64)
        requires { word_place kind tag < length self.old }
        ensures { self.new ≡ raised kind tag by self.old }
    {
        let at = place(kind, tag);
        self.words[at] = self.words[at].wrapping_add(by);
    }

    /// Subtracts from a word, which wraps.
    pub fn lower(&mut self, kind: Kind, tag: u32, by: u64)
        requires { word_place kind tag < length self.old }
        ensures { self.new ≡ lowered kind tag by self.old }
    {
        let at = place(kind, tag);
        self.words[at] = self.words[at].wrapping_sub(by);
    }
}
