//! A reference as one word of 64 bits.

ghost use Rattle.std.specs.Prelude.{IsTrue, None, Some, false, if◌then◌else◌, ℕ, ◌+◌, ◌-◌, ◌<◌, ◌^◌, ◌≡◌};
ghost use Rattle.tag_model.specs.Reference.{held_fits};
ghost use Rattle.tag_model.specs.RefWord.{IsRef, counted_word, held_word, is_ref_word, number_fits, ref_of, ref_word};
ghost use Rattle.tag_model.specs.declared.ref_word.Ref.{Ref};
ghost use Rattle.tag_model.specs.declared.state.Held.{Held};

use std::marker::Model;

/// What a word says of its cell: nothing, the mark of memory that is deliberately unaccounted, or a reference. The word
/// doesn't tell the tag's module.
#[derive(Clone, Copy, Debug, PartialEq, Eq)]
pub enum Ref {
    None,
    Empty,
    Counted { number: u32, size: u64 },
}

/// A word that is a reference's.
#[derive(Clone, Copy, Debug, PartialEq, Eq)]
pub struct RefWord {
    word: u64,
}

impl Model for RefWord {
    ghost use Rattle.std.specs.Prelude.{ℕ, IsTrue};

    ghost Value = { ℕ };

    ghost use Rattle.tag_model.specs.RefWord.{is_ref_word};

    ghost view = { λ r. r.word };

    ghost inverse = { λ word. record { word = word } };

    ghost invariant = { λ r. IsTrue (is_ref_word r.word) };
}

impl RefWord {
    /// The word of `size` bytes under a tag number.
    pub fn pack(number: u32, size: u64) -> RefWord
        requires number { number + 2 < 2 ^ 20 }
        requires some { 0 < size }
        requires fits { size < 2 ^ 44 }
        ensures { result ≡ counted_word number size }
    {
        RefWord {
            word: (size << 20) + number as u64 + 2,
        }
    }

    pub fn none() -> RefWord
        ensures { result ≡ 0 }
    {
        RefWord { word: 0 }
    }

    pub fn empty() -> RefWord
        ensures { result ≡ 1 }
    {
        RefWord { word: 1 }
    }

    /// The word, where it is a reference's.
    pub fn from_word(word: u64) -> Option<RefWord>
        ensures { result ≡ (if is_ref_word word then Some word else None) }
    {
        if word < 2 || (word % (1 << 20) >= 2 && word >> 20 > 0) {
            Some(RefWord { word })
        } else {
            None
        }
    }

    pub fn word(self) -> u64
        ensures word { result ≡ self }
        ensures is_a_references { IsTrue (is_ref_word result) }
    {
        self.word
    }

    /// What the word says.
    pub fn read(self) -> Ref
        ensures word { ref_word result ≡ self }
        ensures fits { IsRef result }
    {
        if self.word == 0 {
            return Ref::None;
        }
        if self.word == 1 {
            return Ref::Empty;
        }
        Ref::Counted {
            number: (self.word % (1 << 20)) as u32 - 2,
            size: self.word >> 20,
        }
    }
}

/// Each valid word is that of one reference and no other, and each reference within its bits has one.
pub fn words_are_references()
    ensures has_a_word { (r : Ref) → IsRef r → IsTrue (is_ref_word (ref_word r)) × (ref_word r < 2 ^ 64) }
    ensures is_a_reference { (word : ℕ) → word < 2 ^ 64 → IsTrue (is_ref_word word) → (r : Ref) × (IsRef r × (ref_word r ≡ word)) }
    ensures only_one { (a b : Ref) → IsRef a → IsRef b → ref_word a ≡ ref_word b → a ≡ b }
    ensures held { (h : Held) → held_word h ≡ ref_word (ref_of h) }
    ensures held_fits { (h : Held) → IsTrue (held_fits h) → IsTrue (number_fits h) → IsRef (ref_of h) }
{}

/// Worked rows: 4,096 bytes under tag 128; the words that a size alone or a tag alone would give are none.
pub fn rows_of_words()
    ensures packed { counted_word 128 4096 ≡ 0x0000000100000082 }
    ensures least { counted_word 0 1 ≡ 2 ^ 20 + 2 }
    ensures greatest { counted_word (2 ^ 20 - 3) (2 ^ 44 - 1) ≡ 2 ^ 64 - 1 }
    ensures valid { (IsTrue (is_ref_word 0)) × (IsTrue (is_ref_word 1)) × (IsTrue (is_ref_word 4294967426)) × (IsTrue (is_ref_word (2 ^ 64 - 1))) }
    ensures not_valid { (is_ref_word 2 ≡ false) × (is_ref_word (2 ^ 20 - 1) ≡ false) × (is_ref_word (2 ^ 20) ≡ false) × (is_ref_word (2 ^ 20 + 1) ≡ false) × (is_ref_word (2 ^ 64 - 2 ^ 20 + 1) ≡ false) }
{}
