//! Every limit of the model, in one place.

ghost use Rattle.std.specs.Prelude.{◌≡◌, ◌^◌};

/// CPUs of a machine.
pub const MAX_CPUS: u32 = 64;

/// Tags, of the kernel's section and the module area together.
pub const MAX_TAGS: u32 = 1_024;

/// Tags that the program gives to the kernel's section.
pub const KERNEL_TAGS: u32 = 128;

/// Tags that the program gives to the module area.
pub const AREA_TAGS: u32 = 896;

/// Page frames of a CPU's node.
pub const MAX_FRAMES: u32 = 1_024;

/// Vectors of object cells of a CPU.
pub const MAX_VECTORS: u32 = 64;

/// Cells of a vector.
pub const VECTOR_CELLS: u32 = 64;

/// A reference's size, and the bytes in a hand, are below this.
pub const SIZE_END: u64 = 1 << 44;

/// The most calls that a hand holds.
pub const MAX_HAND_CALLS: u32 = 1_024;

/// The most places that hold references.
pub const MAX_PLACES: u32 = 327_680;

/// The limits, as numbers.
pub fn limits_are_these()
    ensures cpus { MAX_CPUS ≡ 64 }
    ensures tags { MAX_TAGS ≡ 1024 }
    ensures kernel_tags { KERNEL_TAGS ≡ 128 }
    ensures area_tags { AREA_TAGS ≡ 896 }
    ensures frames { MAX_FRAMES ≡ 1024 }
    ensures vectors { MAX_VECTORS ≡ 64 }
    ensures vector_cells { VECTOR_CELLS ≡ 64 }
    ensures size_end { SIZE_END ≡ 2 ^ 44 }
    ensures hand_calls { MAX_HAND_CALLS ≡ 1024 }
    ensures places { MAX_PLACES ≡ 327680 }
{}
