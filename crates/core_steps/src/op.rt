//! What actors do.

ghost use Rattle.std.specs.Prelude.{◌≡◌};
ghost use Rattle.core_steps.specs.CoreState.{cpu_op, manager_op};

use cpu_ops::CpuOp;
pub use cpu_ops::{KEY_END, MAX_PARTS, MAX_QUEUED, QueueError, StepRefused};
use module_ops::ManagerOp;
pub use module_ops::{Cause, Event};

/// Who takes a step.
#[derive(Clone, Copy, Debug, PartialEq, Eq)]
pub enum Actor {
    Cpu(u32),
    /// Loads and unloads modules.
    Manager,
}

/// What an actor does, in several steps.
#[derive(Clone, Copy, Debug, PartialEq, Eq)]
pub enum Op {
    /// An allocation under a tag of a section. The reference is kept under the key.
    Open {
        key: u32,
        section: u32,
        index: u32,
        size: u64,
    },
    /// A free of the key's reference.
    Close {
        key: u32,
    },
    /// The key's reference is split into so many equal parts. The first keeps the key, the others are put under
    /// FIRST and the keys behind it.
    Split {
        key: u32,
        parts: u32,
        first: u32,
    },
    /// Two keys exchange their references.
    Swap {
        one: u32,
        two: u32,
    },
    /// The size of the key's reference is lowered by so many bytes.
    Trim {
        key: u32,
        bytes: u64,
    },
    /// The CPU begins to run inside a section's module.
    Enter {
        section: u32,
    },
    /// The CPU ends to run inside a section's module.
    Leave {
        section: u32,
    },
    /// The manager loads a section as a module.
    Load {
        section: u32,
    },
    /// The manager marks a section's module dead, and sweeps it.
    Unload {
        section: u32,
    },
    /// The manager sweeps all dead modules.
    Clean,
}

impl Op {
    /// The op as one of a CPU.
    pub(crate) fn of_cpu(self) -> Option<CpuOp>
        ensures { result ≡ cpu_op self }
    {
        Some(match self {
            Op::Open {
                key,
                section,
                index,
                size,
            } => CpuOp::Open {
                key,
                section,
                index,
                size,
            },
            Op::Close { key } => CpuOp::Close { key },
            Op::Split { key, parts, first } => CpuOp::Split { key, parts, first },
            Op::Swap { one, two } => CpuOp::Swap { one, two },
            Op::Trim { key, bytes } => CpuOp::Trim { key, bytes },
            Op::Enter { section } => CpuOp::Enter { section },
            Op::Leave { section } => CpuOp::Leave { section },
            Op::Load { .. } | Op::Unload { .. } | Op::Clean => return None,
        })
    }

    /// The op as one of the manager.
    pub(crate) fn of_manager(self) -> Option<ManagerOp>
        ensures { result ≡ manager_op self }
    {
        match self {
            Op::Load { section } => Some(ManagerOp::Load { section }),
            Op::Unload { section } => Some(ManagerOp::Unload { section }),
            Op::Clean => Some(ManagerOp::Clean),
            _ => None,
        }
    }
}
