//! What the definitions of the classes come to. The functions do nothing.

ghost use Rattle.slab_cache.specs.Classes.{class_of, classes, objects_in, order_of, slab_order};
ghost use Rattle.std.specs.Prelude.{◌≡◌, ◌∷◌, [], None, Some, map};

/// The order of each class's slabs, and the number of their objects; of some sizes the class, and of some that
/// are too large for a class the order of the block.
pub fn the_classes()
    ensures orders { map slab_order classes ≡ 0 ∷ 0 ∷ 0 ∷ 0 ∷ 0 ∷ 0 ∷ 0 ∷ 0 ∷ 0 ∷ 3 ∷ 3 ∷ 3 ∷ 3 ∷ [] }
    ensures objects { map objects_in classes ≡ 64 ∷ 64 ∷ 64 ∷ 64 ∷ 42 ∷ 32 ∷ 21 ∷ 16 ∷ 8 ∷ 32 ∷ 16 ∷ 8 ∷ 4 ∷ [] }
    ensures class_of_size { map class_of (1 ∷ 8 ∷ 9 ∷ 65 ∷ 100 ∷ 193 ∷ 1100 ∷ 8192 ∷ 8193 ∷ []) ≡ Some 8 ∷ Some 8 ∷ Some 16 ∷ Some 96 ∷ Some 128 ∷ Some 256 ∷ Some 2048 ∷ Some 8192 ∷ None ∷ [] }
    ensures order_of_size { map order_of (8193 ∷ 9000 ∷ 16384 ∷ 16385 ∷ 4194304 ∷ []) ≡ 2 ∷ 2 ∷ 2 ∷ 3 ∷ 10 ∷ [] }
{}
