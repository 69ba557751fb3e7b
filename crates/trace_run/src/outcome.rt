//! What a run comes to.

use rounds::Desk;
use trace::Code;

/// A `load` that is refused.
#[derive(Clone, Copy, Debug)]
pub struct Refusal {
    pub line: u32,
    pub code: Code,
}

/// The desk as the items have left it, and the `load` that ended them, if one did.
#[derive(Drop)]
pub struct Outcome {
    pub desk: Desk,
    pub refused: Option<Refusal>,
}
