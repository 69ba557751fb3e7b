//! What a trace says.

use input_form::Series;
use tag_section::Sections;

/// An op of a CPU. A section is a module's, and a tag is a section with an index in it.
#[derive(Clone, Copy, Debug, PartialEq, Eq)]
pub enum TraceOp {
    Page { key: u32, order: u32 },
    Kmalloc { key: u32, size: u64 },
    Free { key: u32 },
    Split { key: u32, order: u32, first: u32 },
    Swap { one: u32, two: u32 },
    Trim { key: u32, pages: u32 },
    Hook { section: u32, index: u32 },
    Unhook,
    Enter { section: u32 },
    Leave { section: u32 },
    Unload { section: u32 },
}

/// An `on` line, with its number in the input.
#[derive(Clone, Copy, Debug, PartialEq, Eq)]
pub struct OnOp {
    pub line: u32,
    pub cpu: u32,
    pub op: TraceOp,
}

/// The `on` lines of a round in their order.
pub type OnOps = Series<OnOp>;

/// A part of the body that runs as one.
#[derive(Debug, Drop)]
pub enum Item {
    Round { ops: OnOps },
    Load { line: u32, section: u32 },
    Print,
    Areas,
}

/// The body in its order.
pub type Items = Series<Item>;

/// A trace: the sizes, the sections of tags, and the body. Kept ranges are shown where its version is 1.1.
#[derive(Debug, Drop)]
pub struct Trace {
    pub shows_kept: bool,
    pub cpus: u32,
    pub area: u32,
    pub frames: u32,
    pub vectors: u32,
    pub sections: Sections,
    pub body: Items,
}
