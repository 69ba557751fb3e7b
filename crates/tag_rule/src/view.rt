//! What a seat at the table knows: parts of the word state.

use std::collections::LinkedList;
use tag_model::Part;

/// The parts that a seat has. No code makes one.
pub struct View {
    pub parts: LinkedList<Part>,
}
