//! The definitions at a worked row.

ghost use Rattle.std.specs.Prelude.{◌≡◌, true, false, replicate, Some, None, count_by, not};
ghost use Rattle.buddy.specs.Frames.{least_start, marked};

/// Eight frames: takes of the orders 1, 0 and 2 give 0, 2 and 4. Then one frame is free, which is no room for two.
/// Where the first two come back, they are given again.
pub fn worked_zone()
    ensures first { least_start (replicate 8 false) 1 ≡ Some 0 }
    ensures second { least_start (marked true 0 1 (replicate 8 false)) 0 ≡ Some 2 }
    ensures third { least_start (marked true 2 0 (marked true 0 1 (replicate 8 false))) 2 ≡ Some 4 }
    ensures none { least_start (marked true 4 2 (marked true 2 0 (marked true 0 1 (replicate 8 false)))) 1 ≡ None }
    ensures left { count_by not (marked true 4 2 (marked true 2 0 (marked true 0 1 (replicate 8 false)))) ≡ 1 }
    ensures again { least_start (marked false 0 1 (marked true 4 2 (marked true 2 0 (marked true 0 1 (replicate 8 false))))) 1 ≡ Some 0 }
{}
