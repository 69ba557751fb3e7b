//! What the checks of a line ask of its keys.

ghost use Rattle.std.specs.Prelude.{◌≡◌, ◌+◌, ◌-◌, ◌/◌, ◌^◌, ◌<◌, ◌≤◌, ◌∷◌, Some, None, length};
ghost use Rattle.std.specs.List.{range_with_len};
ghost use Rattle.round_check.specs.Keys.{own_key, bound_key, free_key, block_of, bind, own_keys, free_keys, bind_all, take_key, give_key, part_keys, split_key, swap_keys, trim_key, Settles};

use crate::keys::{Block, Bound, KeyState, KeyTable, Turn};
use input_form::{Code, need};

// No earlier line of this round, of another CPU, names the key.
#[tactic(auto, unfolding(crate::specs::Keys::own_key))]
fn own_key(keys: &KeyTable, turn: Turn, key: u32) -> Result<(), Code>
    requires { key < 65536 }
    ensures { result ≡ own_key keys.now turn key }
{
    let state = keys.at(key);
    need(
        !(state.round == turn.round && state.cpu != turn.cpu),
        Code::SharedKey(key),
    )
}

#[tactic(auto, unfolding(crate::specs::Keys::bound_key))]
fn bound_key(keys: &KeyTable, key: u32) -> Result<Bound, Code>
    requires { key < 65536 }
    ensures { result ≡ bound_key keys.now key }
{
    keys.at(key).bound.ok_or(Code::NoKey(key))
}

#[tactic(auto, unfolding(crate::specs::Keys::free_key))]
fn free_key(keys: &KeyTable, key: u32) -> Result<(), Code>
    requires { key < 65536 }
    ensures { result ≡ free_key keys.now key }
{
    need(keys.at(key).bound.is_none(), Code::Bound(key))
}

fn block_of(key: u32, bound: Bound) -> Result<Block, Code>
    ensures { result ≡ block_of key bound }
{
    match bound {
        Bound::Object => Err(Code::Kind(key)),
        Bound::Block(block) => Ok(block),
    }
}

fn bind(keys: &mut KeyTable, turn: Turn, bound: Option<Bound>, key: u32)
    requires { key < 65536 }
    ensures { keys.new ≡ bind keys.old turn bound key }
{
    keys.set(
        key,
        KeyState {
            bound,
            round: turn.round,
            cpu: turn.cpu,
        },
    );
}

fn own_keys(keys: &KeyTable, turn: Turn, first: u32, count: u32) -> Result<(), Code>
    requires { first + count ≤ 65536 }
    ensures { result ≡ own_keys keys.now turn (range_with_len first count) }
{
    for key in first..first + count {
        if let Err(code) = own_key(keys, turn, key) {
            return Err(code);
        }
    }
    Ok(())
}

fn free_keys(keys: &KeyTable, first: u32, count: u32) -> Result<(), Code>
    requires { first + count ≤ 65536 }
    ensures { result ≡ free_keys keys.now (range_with_len first count) }
{
    for key in first..first + count {
        if let Err(code) = free_key(keys, key) {
            return Err(code);
        }
    }
    Ok(())
}

fn bind_all(keys: &mut KeyTable, turn: Turn, bound: Option<Bound>, first: u32, count: u32)
    requires { first + count ≤ 65536 }
    ensures { keys.new ≡ bind_all keys.old turn bound (range_with_len first count) }
{
    for key in first..first + count {
        bind(keys, turn, bound, key);
    }
}

/// `page` and `kmalloc`
#[tactic(auto, unfolding(crate::specs::Keys::take_key))]
pub(crate) fn take_key(keys: &mut KeyTable, turn: Turn, key: u32, bound: Bound) -> Result<(), Code>
    requires { key < 65536 }
    ensures { Settles result keys.new (take_key keys.old turn key bound) }
{
    own_key(keys, turn, key)?;
    free_key(keys, key)?;
    bind(keys, turn, Some(bound), key);
    Ok(())
}

/// `free`
#[tactic(auto, unfolding(crate::specs::Keys::give_key))]
pub(crate) fn give_key(keys: &mut KeyTable, turn: Turn, key: u32) -> Result<(), Code>
    requires { key < 65536 }
    ensures { Settles result keys.new (give_key keys.old turn key) }
{
    own_key(keys, turn, key)?;
    let _bound = bound_key(keys, key)?;
    bind(keys, turn, None, key);
    Ok(())
}

/// The pages of a block of an order.
pub(crate) fn pages_of(order: u32) -> u32
    requires { order ≤ 10 }
    ensures value { result ≡ 2 ^ order }
    ensures some { 0 < result }
{
    1 << order
}

// The new keys of a split, once the split block is known.
#[tactic(auto, unfolding(crate::specs::Keys::part_keys))]
fn part_keys(
    keys: &mut KeyTable,
    turn: Turn,
    key: u32,
    order: u32,
    first: u32,
    count: u32,
) -> Result<(), Code>
    requires key { key < 65536 }
    requires order { order ≤ 10 }
    requires first { 1 ≤ first }
    ensures { Settles result keys.new (part_keys keys.old turn key order first count) }
{
    need(
        u64::from(first) + u64::from(count) - 1 <= 65_535,
        Code::Keys,
    )?;
    own_keys(keys, turn, first, count)?;
    free_keys(keys, first, count)?;
    let part = Some(Bound::Block(Block {
        order,
        pages: pages_of(order),
        trimmed: false,
    }));
    bind(keys, turn, part, key);
    bind_all(keys, turn, part, first, count);
    Ok(())
}

/// `split`
#[tactic(auto, unfolding(crate::specs::Keys::split_key))]
pub(crate) fn split_key(
    keys: &mut KeyTable,
    turn: Turn,
    key: u32,
    order: u32,
    first: u32,
) -> Result<(), Code>
    requires key { key < 65536 }
    requires order { order ≤ 10 }
    requires first { 1 ≤ first }
    ensures { Settles result keys.new (split_key keys.old turn key order first) }
{
    own_key(keys, turn, key)?;
    let bound = bound_key(keys, key)?;
    let block = block_of(key, bound)?;
    need(!block.trimmed, Code::Trimmed(key))?;
    need(order < block.order, Code::Orders)?;
    part_keys(
        keys,
        turn,
        key,
        order,
        first,
        (block.pages / pages_of(order)).saturating_sub(1),
    )
}

/// `swap`
#[tactic(auto, unfolding(crate::specs::Keys::swap_keys))]
pub(crate) fn swap_keys(keys: &mut KeyTable, turn: Turn, one: u32, two: u32) -> Result<(), Code>
    requires one { one < 65536 }
    requires two { two < 65536 }
    ensures { Settles result keys.new (swap_keys keys.old turn one two) }
{
    own_key(keys, turn, one)?;
    own_key(keys, turn, two)?;
    let first = bound_key(keys, one)?;
    let second = bound_key(keys, two)?;
    let block = block_of(one, first)?;
    let other = block_of(two, second)?;
    need(!block.trimmed, Code::Trimmed(one))?;
    need(!other.trimmed, Code::Trimmed(two))?;
    need(block.order == other.order, Code::Orders)?;
    bind(keys, turn, Some(first), one);
    bind(keys, turn, Some(second), two);
    Ok(())
}

/// `trim`
#[tactic(auto, unfolding(crate::specs::Keys::trim_key))]
pub(crate) fn trim_key(keys: &mut KeyTable, turn: Turn, key: u32, pages: u32) -> Result<(), Code>
    requires { key < 65536 }
    ensures { Settles result keys.new (trim_key keys.old turn key pages) }
{
    own_key(keys, turn, key)?;
    let bound = bound_key(keys, key)?;
    let block = block_of(key, bound)?;
    need(pages < block.pages, Code::Pages)?;
    let left = Block {
        order: block.order,
        pages: block.pages - pages,
        trimmed: true,
    };
    bind(keys, turn, Some(Bound::Block(left)), key);
    Ok(())
}
