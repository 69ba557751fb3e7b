//! What a CPU does, in several steps.

ghost use Rattle.std.specs.Prelude.{◌≡◌};
ghost use Rattle.cpu_ops.specs.declared.op.TheConstants.{KEY_END, MAX_QUEUED, MAX_PARTS};
ghost use Rattle.cpu_ops.specs.Machine.{step_count};

/// Keys are from 1 up to, and without, this.
pub const KEY_END: u32 = 65_536;

/// The most ops that an actor has queued or under way.
pub const MAX_QUEUED: usize = 65_536;

/// The most parts of a split.
pub const MAX_PARTS: u32 = 1_024;

/// The limits, as numbers.
pub fn limits_are_these()
    ensures keys { KEY_END ≡ 65536 }
    ensures queued { MAX_QUEUED ≡ 65536 }
    ensures parts { MAX_PARTS ≡ 1024 }
{}

/// What a CPU does, in several steps.
#[derive(Clone, Copy, Debug, PartialEq, Eq)]
pub enum CpuOp {
    /// An allocation under a tag of a section. The reference is kept under the key.
    Open {
        key: u32,
        section: u32,
        index: u32,
        size: u64,
    },
    /// A free of the key's reference.
    Close {
        key: u32,
    },
    /// The key's reference is split into so many equal parts. The first keeps the key, the others are put under
    /// FIRST and the keys behind it.
    Split {
        key: u32,
        parts: u32,
        first: u32,
    },
    /// Two keys exchange their references.
    Swap {
        one: u32,
        two: u32,
    },
    /// The size of the key's reference is lowered by so many bytes.
    Trim {
        key: u32,
        bytes: u64,
    },
    /// The CPU begins to run inside a section's module.
    Enter {
        section: u32,
    },
    /// The CPU ends to run inside a section's module.
    Leave {
        section: u32,
    },
}

impl CpuOp {
    /// How many steps the op takes.
    pub fn step_count(self) -> u64
        ensures { result ≡ step_count self }
    {
        match self {
            CpuOp::Split { parts, .. } => 2 * u64::from(parts),
            CpuOp::Enter { .. } | CpuOp::Leave { .. } => 1,
            CpuOp::Open { .. } | CpuOp::Close { .. } | CpuOp::Swap { .. } | CpuOp::Trim { .. } => 3,
        }
    }
}
