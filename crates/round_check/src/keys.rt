//! What each key names.

ghost use Rattle.std.specs.Prelude.{◌≡◌, IfOk};
ghost use Rattle.round_check.specs.Tables.{unbound_keys};

use crate::table::Table;
use std::alloc::{AllocError, Global};

/// A block, with so many pages of its accounted size left.
#[derive(Clone, Copy, Debug, PartialEq, Eq)]
pub struct Block {
    pub order: u32,
    pub pages: u32,
    pub trimmed: bool,
}

/// What a key is bound to.
#[derive(Clone, Copy, Debug, PartialEq, Eq)]
pub enum Bound {
    Object,
    Block(Block),
}

/// What a key is bound to, and the round and the CPU of the last line that named it.
#[derive(Clone, Copy, Debug, PartialEq, Eq)]
pub struct KeyState {
    pub bound: Option<Bound>,
    pub round: u32,
    pub cpu: u32,
}

/// The round and the CPU of a line.
#[derive(Clone, Copy, Debug, PartialEq, Eq)]
pub struct Turn {
    pub round: u32,
    pub cpu: u32,
}

/// One more than the greatest key.
pub(crate) const KEY_COUNT: usize = 65_536;

/// The states of all keys, by key.
pub type KeyTable = Table<KeyState, KEY_COUNT>;

/// No key is bound.
#[tactic(auto, unfolding(crate::specs::Tables::unbound_keys))]
pub(crate) fn unbound_keys(alloc: Global) -> Result<KeyTable, AllocError>
    ensures { IfOk result (λ keys. keys ≡ unbound_keys 65536) }
{
    Table::of(
        alloc,
        KeyState {
            bound: None,
            round: 0,
            cpu: 0,
        },
    )
}
