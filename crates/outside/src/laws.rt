//! What is said of faults, of refused readings and of texts that went out in part, without the words that say it.
//! The functions do nothing: what they promise are facts of the definitions.

ghost use Rattle.std.specs.Prelude.{◌≡◌, ◌≢◌, ℕ, ◌+◌, ◌-◌, ◌^◌, ◌<◌, ◌≤◌, ◌++◌, List, length, take, Some};
ghost use Rattle.std.specs.declared.alloc.AllocError.{AllocError as Want};
ghost use Rattle.outside.specs.Bytes.{AppendsPrefix, Took, TookWithin};
ghost use Rattle.outside.specs.Faults.{Rose};
ghost use Rattle.outside.specs.declared.faults.ReadError.TheVariants.{Failed as read_failed, TooLong, Memory};

/// A count that rose is greater than before, where it isn't at its last value.
pub fn faults_are_counted()
    ensures { (before after : ℕ) → Rose before after → after ≢ 2 ^ 64 - 1 → before < after }
{}

/// Of bytes that are told, a refused reading took the first ones: one more than the limit where they are too many, and
/// else at most as many as the limit.
pub fn what_a_refused_reading_took()
    ensures too_long { (limit : ℕ) (left left_after : List ℕ) → Took limit TooLong (Some left) (Some left_after) → (bytes : List ℕ) × (left ≡ bytes ++ left_after) × (length bytes ≡ limit + 1) }
    ensures failed { (limit : ℕ) (left left_after : List ℕ) → Took limit read_failed (Some left) (Some left_after) → (bytes : List ℕ) × (left ≡ bytes ++ left_after) × (length bytes ≤ limit) }
    ensures memory { (limit : ℕ) (want : Want) (left left_after : List ℕ) → Took limit (Memory want) (Some left) (Some left_after) → (bytes : List ℕ) × (left ≡ bytes ++ left_after) × (length bytes ≤ limit) }
    ensures within { (limit : ℕ) (left left_after : List ℕ) → TookWithin limit (Some left) (Some left_after) → (bytes : List ℕ) × (left ≡ bytes ++ left_after) × (length bytes ≤ limit) }
{}

/// Of a sink that tells its bytes, a text that went out in part adds its first bytes.
pub fn what_went_out_in_part()
    ensures { (sent sent_after text : List ℕ) → AppendsPrefix (Some sent) (Some sent_after) text → (count : ℕ) × (sent_after ≡ sent ++ take count text) }
{}
