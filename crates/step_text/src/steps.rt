//! What a schedule of the step language says.

use input_form::Series;
use tag_section::Sections;

/// Who takes the steps of an op.
#[derive(Clone, Copy, Debug, PartialEq, Eq)]
pub enum StepActor {
    Cpu(u32),
    Manager,
}

/// An op. A section is a module's, and a tag is a section with an index in it.
#[derive(Clone, Copy, Debug, PartialEq, Eq)]
pub enum StepOp {
    Open {
        key: u32,
        section: u32,
        index: u32,
        size: u64,
    },
    Close {
        key: u32,
    },
    Split {
        key: u32,
        parts: u32,
        first: u32,
    },
    Swap {
        one: u32,
        two: u32,
    },
    Trim {
        key: u32,
        bytes: u64,
    },
    Enter {
        section: u32,
    },
    Leave {
        section: u32,
    },
    Load {
        section: u32,
    },
    Unload {
        section: u32,
    },
    Clean,
}

/// What a body line asks for. A count of None is `all`.
#[derive(Clone, Copy, Debug, PartialEq, Eq)]
pub enum StepAct {
    Do {
        actor: StepActor,
        op: StepOp,
    },
    Go {
        actor: StepActor,
        count: Option<u32>,
    },
    Print,
    Words {
        section: u32,
        index: u32,
    },
}

/// A body line, with its number in the input.
#[derive(Clone, Copy, Debug, PartialEq, Eq)]
pub struct StepLine {
    pub line: u32,
    pub act: StepAct,
}

/// The body lines in their order.
pub type StepLines = Series<StepLine>;

/// A schedule: the sizes, the sections of tags, and the body.
#[derive(Debug, Drop)]
pub struct Steps {
    pub cpus: u32,
    pub area: u32,
    pub sections: Sections,
    pub body: StepLines,
}
