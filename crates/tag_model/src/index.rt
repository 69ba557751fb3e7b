//! Where each word and each cell of a machine stands in its one table of words.

ghost use Rattle.std.specs.Prelude.{◌*◌, ◌+◌, ◌<◌, ◌≡◌, ◌≤◌};
ghost use Rattle.tag_model.specs.Index.{IsSlot, Slot, index_of, object_index, page_index, program_shape, word_count, word_index};
ghost use Rattle.tag_model.specs.Index as index;
ghost use Rattle.tag_model.specs.Shape.{IsChecked};
ghost use Rattle.tag_model.specs.declared.shape.Shape.{Shape};
ghost use Rattle.tag_model.specs.declared.state.Kind.TheVariants.{Bytes, Calls};

use crate::limits::VECTOR_CELLS;
use crate::shape::Shape;

/// Where the words of a CPU begin.
fn first_word(shape: Shape, cpu: u32) -> usize
    requires checked { IsChecked shape }
    requires cpu { cpu ≤ shape.cpus }
    ensures { result ≡ index.first_word shape cpu }
{
    1 + cpu as usize * (2 * shape.tags as usize)
}

/// The CPU's byte word of a tag.
pub fn byte_word(shape: Shape, cpu: u32, tag: u32) -> usize
    requires checked { IsChecked shape }
    requires cpu { cpu < shape.cpus }
    requires tag { tag < shape.tags }
    ensures index { result ≡ word_index shape cpu Bytes tag }
    ensures value { result ≡ 1 + 2 * (cpu * shape.tags + tag) }
{
    first_word(shape, cpu) + 2 * tag as usize
}

/// The CPU's call word of a tag.
pub fn call_word(shape: Shape, cpu: u32, tag: u32) -> usize
    requires checked { IsChecked shape }
    requires cpu { cpu < shape.cpus }
    requires tag { tag < shape.tags }
    ensures index { result ≡ word_index shape cpu Calls tag }
    ensures value { result ≡ 2 + 2 * (cpu * shape.tags + tag) }
{
    byte_word(shape, cpu, tag) + 1
}

/// The cell of a page frame of a CPU's node.
pub fn page_cell(shape: Shape, cpu: u32, frame: u32) -> usize
    requires checked { IsChecked shape }
    requires cpu { cpu < shape.cpus }
    requires frame { frame < shape.frames }
    ensures index { result ≡ page_index shape cpu frame }
    ensures value { result ≡ 1 + 2 * shape.cpus * shape.tags + cpu * shape.frames + frame }
{
    first_word(shape, shape.cpus) + cpu as usize * shape.frames as usize + frame as usize
}

/// A cell of a vector of a CPU's node.
pub fn obj_cell(shape: Shape, cpu: u32, vector: u32, place: u32) -> usize
    requires checked { IsChecked shape }
    requires cpu { cpu < shape.cpus }
    requires vector { vector < shape.vectors }
    requires place { place < 64 }
    ensures index { result ≡ object_index shape cpu vector place }
    ensures value { result ≡ 1 + 2 * shape.cpus * shape.tags + shape.cpus * shape.frames + 64 * (cpu * shape.vectors + vector) + place }
{
    let first = first_word(shape, shape.cpus) + shape.cpus as usize * shape.frames as usize;
    first
        + VECTOR_CELLS as usize * (cpu as usize * shape.vectors as usize + vector as usize)
        + place as usize
}

/// No two words or cells have one index; each index is above 0 and below the number of words.
pub fn indexes_are_apart()
    ensures apart { (k : Shape) (a b : Slot) → IsSlot k a → IsSlot k b → index_of k a ≡ index_of k b → a ≡ b }
    ensures above_zero { (k : Shape) (a : Slot) → 0 < index_of k a }
    ensures below_count { (k : Shape) (a : Slot) → IsSlot k a → index_of k a < word_count k }
{}

/// Worked rows, of the program's shape.
pub fn rows_of_indexes()
    ensures words { word_count program_shape ≡ 458753 }
    ensures first { (word_index program_shape 0 Bytes 0 ≡ 1) × (word_index program_shape 0 Calls 0 ≡ 2) × (word_index program_shape 1 Bytes 0 ≡ 2049) }
    ensures cells { (page_index program_shape 0 0 ≡ 131073) × (page_index program_shape 1 0 ≡ 132097) × (object_index program_shape 0 0 0 ≡ 196609) × (object_index program_shape 0 1 0 ≡ 196673) }
    ensures last { (word_index program_shape 63 Calls 1023 ≡ 131072) × (page_index program_shape 63 1023 ≡ 196608) × (object_index program_shape 63 63 63 ≡ 458752) }
{}
