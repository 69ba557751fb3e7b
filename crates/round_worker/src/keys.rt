//! What each key is bound to.

ghost use Rattle.std.specs.Prelude.{◌≡◌, ◌==◌, ◌+◌, ◌≤◌, [], All, IsTrue, OnErr, OnOk, length, not, replicate};
ghost use Rattle.std.specs.FinMap.Entries.{find, is_sorted, put, where_key};
ghost use Rattle.std.specs.Ordering.{nat_cmp};
ghost use Rattle.tag_rule.specs.Shown.{Board};
ghost use Rattle.trace_play.specs.Live.{part_key};
ghost use Rattle.round_worker.specs.Kept.{AreEntriesOf, IsKept};
ghost use Rattle.round_worker.specs.Parting.{AreKept, blocks, with_parts};

use page_ext::Block;
use slab_cache::Obj;
use std::alloc::{AllocError, Global};
use std::collections::HashMap;
use std::collections::hash_map::IntoIter;
use std::marker::Model;

/// What a key is bound to.
#[derive(Drop)]
pub enum Kept {
    /// Its allocation found no frames; a block of this order was asked for.
    Nothing { order: u32 },
    /// A block, or an object that is too large for a slab.
    Block(Block),
    /// An object in a slab.
    Object(Obj),
}

/// The keys that are bound, each with what it is bound to.
#[derive(Drop)]
pub struct Keys {
    kept: HashMap<u32, Kept>,
}

impl Model for Keys {
    ghost use Rattle.round_worker.specs.Kept.{KeyList, by_key};

    ghost Value = { KeyList };

    ghost view = { λ keys. by_key keys.kept.entries };
}

impl Keys {
    /// No key is bound.
    pub fn new(alloc: Global) -> Keys
        ensures { result ≡ [] }
    {
        Keys {
            kept: HashMap::new(alloc),
        }
    }

    /// Unbinds a key, and tells what it was bound to.
    pub fn take(&mut self, key: u32) -> Option<Kept>
        ensures value { result ≡ find nat_cmp key self.old }
        ensures keys { self.new ≡ where_key nat_cmp (λ other. not (other == key)) self.old }
        ensures rises { IsTrue (is_sorted nat_cmp self.old) }
    {
        self.kept.remove(&key)
    }

    /// Binds a key.
    pub fn put(&mut self, key: u32, kept: Kept) -> Result<(), AllocError>
        ensures put { OnOk result (self.new ≡ put nat_cmp key kept self.old) }
        ensures err { OnErr result (self.new ≡ self.old) }
    {
        self.kept.insert(key, kept)?;
        Ok(())
    }

    /// Unbinds all keys, and tells each with what it was bound to, in no order.
    pub fn into_entries(self) -> IntoIter<u32, Kept>
        ensures { AreEntriesOf self result }
    {
        self.kept.into_iter()
    }

    /// Binds the key and new ones to the parts of a block, by rising frame.
    pub(crate) fn put_blocks(
        &mut self,
        key: u32,
        first: u32,
        parts: Vec<Block>,
    ) -> Result<(), AllocError>
        requires few { first + length parts.items ≤ 65537 }
        ensures put { OnOk result (self.new ≡ with_parts key first (blocks parts.items) 0 self.old) }
        ensures kept { (board : Board) → AreKept board self.old → All (IsKept board) (blocks parts.items) → AreKept board self.new }
    {
        let mut place = 0;
        for block in parts {
            self.put(part_key(key, first, place), Kept::Block(block))?;
            place += 1;
        }
        Ok(())
    }

    /// Binds the key and new ones to nothing, as the parts of nothing.
    pub(crate) fn put_nothings(
        &mut self,
        key: u32,
        first: u32,
        order: u32,
        count: u32,
    ) -> Result<(), AllocError>
        requires few { first + count ≤ 65537 }
        requires small { order ≤ 10 }
        ensures put { OnOk result (self.new ≡ with_parts key first (replicate count (Kept.Nothing order)) 0 self.old) }
        ensures kept { (board : Board) → AreKept board self.old → AreKept board self.new }
    {
        for place in 0..count {
            self.put(part_key(key, first, place), Kept::Nothing { order })?;
        }
        Ok(())
    }
}

// The key of a part: the lowest keeps the old one.
fn part_key(key: u32, first: u32, place: u32) -> u32
    requires { first + place ≤ 65537 }
    ensures { result ≡ part_key key first place }
{
    if place == 0 { key } else { first + place - 1 }
}
