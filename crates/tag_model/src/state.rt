//! The word state: each CPU's words, hand, runs and notes, each place, and the module list.
//!
//! A state is a list of parts. Contracts alone speak of parts; no code makes one.

use std::collections::LinkedList;

/// An allocating source line, as the words know it. Module 0 is the kernel.
#[derive(Clone, Copy, Debug, PartialEq, Eq)]
pub struct Tag {
    pub number: u32,
    pub module: u32,
}

/// What a place holds: nothing, the mark of memory that is deliberately unaccounted, or a reference.
#[derive(Clone, Copy, Debug, PartialEq, Eq)]
pub enum Held {
    None,
    Empty,
    Counted { tag: Tag, size: u64 },
}

impl Held {
    ghost use Rattle.std.specs.Prelude.{◌≡◌};
    ghost use Rattle.tag_model.specs.Reference.{is_counted};

    /// Whether a place holds a reference.
    pub fn is_counted(self) -> bool
        ensures { result ≡ is_counted self }
    {
        matches!(self, Held::Counted { .. })
    }
}

/// Which of a tag's two words.
#[derive(Clone, Copy, Debug, PartialEq, Eq)]
pub enum Kind {
    Bytes,
    Calls,
}

/// What a CPU has counted and holds between two of its steps.
#[derive(Clone, Copy, Debug, PartialEq, Eq)]
pub struct Hand {
    pub tag: Tag,
    pub bytes: u64,
    pub calls: u32,
    /// Of an allocation whose cell isn't written yet.
    pub opening: bool,
}

/// A CPU runs inside a module.
#[derive(Clone, Copy, Debug, PartialEq, Eq)]
pub struct Run {
    pub id: u32,
    pub section: u32,
    pub start: u32,
    pub length: u32,
}

/// What a CPU knows of a record of the module list.
#[derive(Clone, Copy, Debug, PartialEq, Eq)]
pub struct Note {
    pub id: u32,
    pub section: u32,
    pub start: u32,
    pub length: u32,
    pub seen_dead: bool,
}

/// A module's range of tags in the module list.
#[derive(Clone, Copy, Debug, PartialEq, Eq)]
pub struct Record {
    pub id: u32,
    pub section: u32,
    pub start: u32,
    pub length: u32,
    pub dead: bool,
    /// The runs on it.
    pub users: u32,
}

/// Where a sweep stands: the record, tag and CPU whose word it reads next, and the sum of the words before it.
#[derive(Clone, Copy, Debug, PartialEq, Eq)]
pub struct Reader {
    pub pass: Kind,
    pub id: u32,
    pub tag: u32,
    pub cpu: u32,
    pub sum: u64,
}

/// The sweep of dead records: the ids that are left on its list, and whether it still reads.
pub enum Sweep {
    None,
    Reading {
        left: LinkedList<u32>,
        reader: Reader,
    },
    Done {
        left: LinkedList<u32>,
    },
}

/// Why a record left a sweep's list: the sum of this kind of this tag's words, not 0.
#[derive(Clone, Copy, Debug, PartialEq, Eq)]
pub struct Stop {
    pub id: u32,
    pub tag: u32,
    pub kind: Kind,
    pub sum: u64,
}

/// A CPU's share of the state. Its words are, for tag t, bytes at 2 t and calls at 2 t + 1.
pub struct CpuPart {
    pub number: u32,
    pub words: LinkedList<u64>,
    pub hand: Option<Hand>,
    pub runs: LinkedList<Run>,
    pub notes: LinkedList<Note>,
}

/// The module list's share of the state.
pub struct ListPart {
    pub records: LinkedList<Record>,
    pub sweep: Sweep,
    pub stops: LinkedList<Stop>,
    /// The words that sweeps have read.
    pub reads: u64,
    /// Runs on their way from the list to a CPU or back.
    pub away: LinkedList<Run>,
}

/// One share of the state.
pub enum Part {
    Cpu(CpuPart),
    Place { number: u64, held: Held },
    Modules(ListPart),
    /// The right to give the next id.
    NextId(u64),
}
