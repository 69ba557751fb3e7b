//! How many rounds and ops a trace has.

ghost use Rattle.std.specs.Prelude.{◌≡◌, ◌≤◌, count_by, sum_by};
ghost use Rattle.trace.specs.Formed.{IsFormedTrace};
ghost use Rattle.trace_play.specs.Play.{is_round, ops_in};

use trace::{Item, Trace};

/// How many rounds the trace has.
pub fn rounds_in(trace: &Trace) -> u64
    ensures { result ≡ count_by is_round trace.now.body }
{
    rounds_among(trace.body.as_slice())
}

/// How many ops its rounds have.
pub fn ops_in(trace: &Trace) -> u64
    requires { IsFormedTrace trace.now }
    ensures { result ≡ sum_by ops_in trace.now.body }
{
    ops_among(trace.body.as_slice())
}

fn rounds_among(items: &[Item]) -> u64
    ensures { result ≡ count_by is_round items.now }
{
    let mut rounds: u64 = 0;
    for item in items {
        rounds += u64::from(is_round(item));
    }
    rounds
}

fn ops_among(items: &[Item]) -> u64
    requires { sum_by ops_in items.now ≤ 131071 }
    ensures { result ≡ sum_by ops_in items.now }
{
    let mut ops: u64 = 0;
    for item in items {
        ops += ops_of(item);
    }
    ops
}

fn is_round(item: &Item) -> bool
    ensures { result ≡ is_round item.now }
{
    match item {
        Item::Round { .. } => true,
        Item::Load { .. } => false,
        Item::Print => false,
        Item::Areas => false,
    }
}

fn ops_of(item: &Item) -> u64
    ensures { result ≡ ops_in item.now }
{
    match item {
        Item::Round { ops } => ops.as_slice().len() as u64,
        Item::Load { .. } => 0,
        Item::Print => 0,
        Item::Areas => 0,
    }
}
