//! The ops of each CPU.

ghost use Rattle.std.specs.Prelude.{◌≡◌, IfOk, [], map};
ghost use Rattle.lanes.specs.Lanes.{lanes_of};

use std::alloc::{AllocError, Global};
use trace::OnOp;

/// The ops of each of so many CPUs, in their order.
pub fn by_cpu(alloc: Global, count: u32, ops: &[OnOp]) -> Result<Vec<Vec<OnOp>>, AllocError>
    ensures { IfOk result (λ lanes. map (λ lane. lane.items) lanes.items ≡ lanes_of count ops.now) }
{
    let mut lanes = no_ops(alloc, count)?;
    for on in ops {
        if let Some(lane) = lanes.get_mut(on.cpu as usize) {
            lane.push(*on)?;
        }
    }
    Ok(lanes)
}

// So many lanes with no op.
fn no_ops(alloc: Global, count: u32) -> Result<Vec<Vec<OnOp>>, AllocError>
    ensures { IfOk result (λ lanes. map (λ lane. lane.items) lanes.items ≡ lanes_of count []) }
{
    let mut lanes = Vec::with_capacity(alloc, count as usize)?;
    for _cpu in 0..count {
        lanes.push(Vec::new(alloc))?;
    }
    Ok(lanes)
}
