ghost use Rattle.std.specs.Prelude.{IfOk, ◌≡◌};
ghost use Rattle.tag_model.specs.Index.{program_shape, word_count};
ghost use Rattle.tag_model.specs.Shape.{checked, IsChecked};

use crate::limits::{KERNEL_TAGS, MAX_CPUS, MAX_FRAMES, MAX_TAGS, MAX_VECTORS, VECTOR_CELLS};
use thiserror::Error;

/// How large a machine is.
#[derive(Clone, Copy, Debug, PartialEq, Eq)]
pub struct Shape {
    pub cpus: u32,
    pub tags: u32,
    /// The tags of the kernel's section are those below this number.
    pub kernel_tags: u32,
    /// Per CPU.
    pub frames: u32,
    /// Per CPU.
    pub vectors: u32,
}

/// Why numbers are no shape.
#[derive(Clone, Copy, Debug, PartialEq, Eq, Error)]
pub enum ShapeError {
    #[error("a machine has a CPU")]
    NoCpu,
    #[error("too many CPUs")]
    TooManyCpus,
    #[error("the kernel has a tag")]
    NoKernelTag,
    #[error("too many tags")]
    TooManyTags,
    #[error("too many page frames")]
    TooManyFrames,
    #[error("too many vectors")]
    TooManyVectors,
}

impl Shape {
    /// The shape, where its numbers are within the limits.
    pub fn check(self) -> Result<Shape, ShapeError>
        ensures answer { result ≡ checked self }
        ensures checked { IfOk result IsChecked }
    {
        if self.cpus == 0 {
            return Err(ShapeError::NoCpu);
        }
        if self.cpus > MAX_CPUS {
            return Err(ShapeError::TooManyCpus);
        }
        if self.kernel_tags == 0 {
            return Err(ShapeError::NoKernelTag);
        }
        if self.tags > MAX_TAGS || self.kernel_tags > self.tags {
            return Err(ShapeError::TooManyTags);
        }
        if self.frames > MAX_FRAMES {
            return Err(ShapeError::TooManyFrames);
        }
        if self.vectors > MAX_VECTORS {
            return Err(ShapeError::TooManyVectors);
        }
        Ok(self)
    }
    /// The shape of the program's machine.
    pub fn program() -> Shape
        ensures numbers { result ≡ program_shape }
        ensures checked { IsChecked result }
    {
        Shape {
            cpus: MAX_CPUS,
            tags: MAX_TAGS,
            kernel_tags: KERNEL_TAGS,
            frames: MAX_FRAMES,
            vectors: MAX_VECTORS,
        }
    }

    /// How many words the machine has: one that is nobody's, two for each tag of a CPU, and one for each cell.
    pub fn words(self) -> usize
        requires { IsChecked self }
        ensures { result ≡ word_count self }
    {
        let cpus = self.cpus as usize;
        let cells = VECTOR_CELLS as usize;
        1 + 2 * cpus * self.tags as usize
            + cpus * self.frames as usize
            + cpus * self.vectors as usize * cells
    }
}

/// Worked rows: no CPU is refused and so are 65, also where a later number would be refused too.
pub fn rows_of_shapes()
    ensures program { checked program_shape ≡ Ok program_shape }
    ensures no_cpu { checked (record { cpus = 0; tags = 1024; kernel_tags = 128; frames = 1025; vectors = 64 }) ≡ Err ShapeError.NoCpu }
    ensures too_many_cpus { checked (record { cpus = 65; tags = 1024; kernel_tags = 0; frames = 1024; vectors = 64 }) ≡ Err ShapeError.TooManyCpus }
{}
