//! The classes of objects by size.

ghost use Rattle.std.specs.Prelude.{◌≡◌, ◌<◌, ◌≤◌, nat_le, option_map, position};
ghost use Rattle.slab_cache.specs.Classes as classes;
ghost use Rattle.slab_cache.specs.Classes.{class_of, objects_in, slab_order};
ghost use Rattle.slab_cache.specs.Bits.{class_at};

/// The bytes of each class.
pub(crate) const CLASSES: [u64; 13] = [
    8, 16, 32, 64, 96, 128, 192, 256, 512, 1_024, 2_048, 4_096, 8_192,
];

const PAGE_BYTES: u64 = 4_096;

/// The most objects of a slab, which is the number of a vector's cells.
const MOST_OBJECTS: u64 = 64;

/// A class, by its place among the classes.
#[derive(Clone, Copy, Debug, PartialEq, Eq)]
pub(crate) struct Class {
    pub index: usize,
    ghost known: { index < 13 },
}

impl Class {
    /// The least class of at least the size.
    pub fn of(size: u64) -> Option<Class>
        ensures { option_map (λ class. class_at class.index) result ≡ class_of size }
    {
        match least_class(size) {
            Some(index) => Some(Class { index }),
            None => None,
        }
    }

    /// The bytes of an object.
    pub fn bytes(self) -> u64
        ensures { result ≡ class_at self.index }
    {
        CLASSES[self.index]
    }

    /// The order of the block that is a slab.
    pub fn order(self) -> u32
        ensures value { result ≡ slab_order (class_at self.index) }
        ensures small { result ≤ 3 }
    {
        if self.bytes() < 1_024 { 0 } else { 3 }
    }

    /// How many objects a slab has.
    pub fn objects(self) -> u32
        ensures value { result ≡ objects_in (class_at self.index) }
        ensures some { 0 < result }
        ensures few { result ≤ 64 }
    {
        MOST_OBJECTS.min((PAGE_BYTES << self.order()) / self.bytes()) as u32
    }
}

// The number of the least class of at least the size.
fn least_class(size: u64) -> Option<usize>
    ensures { result ≡ position (nat_le size) classes.classes }
{
    CLASSES.iter().position(|bytes| size <= *bytes)
}

/// The least order whose block has at least so many bytes.
pub(crate) fn order_of(size: u64) -> u32
    ensures value { result ≡ classes.order_of size }
    ensures small { result ≤ 10 }
{
    for order in 0..10 {
        if size <= PAGE_BYTES << order {
            return order;
        }
    }
    10
}
