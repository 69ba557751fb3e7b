//! Tables of states, by number.

ghost use Rattle.std.specs.Prelude.{◌≡◌, ◌<◌, replicate, slice_index_or, slice_set, IfOk};

use std::alloc::{AllocError, Global};
use std::marker::Model;

/// So many states, by number.
#[derive(Debug, Drop)]
pub struct Table<S, const COUNT: usize> {
    states: Vec<S>,
}

impl<S, const COUNT: usize> Model for Table<S, COUNT> {
    ghost use Rattle.std.specs.Prelude.{◌≡◌, List, vec_len};

    ghost Value = { List S };

    ghost view = { λ table. table.states.items };

    ghost invariant = { λ table. vec_len table.states ≡ COUNT };
}

impl<S: Copy, const COUNT: usize> Table<S, COUNT> {
    /// Each number has the state.
    pub(crate) fn of(alloc: Global, state: S) -> Result<Table<S, COUNT>, AllocError>
        ensures { IfOk result (λ table. table ≡ replicate COUNT state) }
    {
        let mut states = Vec::new(alloc);
        states.resize(COUNT, state)?;
        Ok(Table { states })
    }

    pub(crate) fn at(&self, number: u32) -> S
        requires { number < COUNT }
        ensures { (default : S) → result ≡ slice_index_or self.now number default }
    {
        self.states[number as usize]
    }

    pub(crate) fn set(&mut self, number: u32, state: S)
        requires { number < COUNT }
        ensures { self.new ≡ slice_set self.old number state }
    {
        self.states[number as usize] = state;
    }
}
