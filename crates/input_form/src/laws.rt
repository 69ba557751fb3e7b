//! The limits of both languages, as lines at them and beyond them show.

ghost use Rattle.std.specs.Prelude.{◌≡◌, ◌∷◌, [], Ok, Err, codes, replicate};
ghost use Rattle.input_form.specs.declared.code.Code.TheVariants as code;
ghost use Rattle.input_form.specs.declared.head.Size.TheVariants as size;
ghost use Rattle.input_form.specs.Forms.{line_form, tail_form};
ghost use Rattle.input_form.specs.Words.{key_word};
ghost use Rattle.input_form.specs.Worked.{size_of, further, tagged};

/// How many lines, of how many bytes of which kind.
pub fn limits_of_lines_are_these()
    ensures lines { (line_form 131072 [] ≡ Ok tt) × (line_form 131073 [] ≡ Err code.Lines) }
    ensures length { (line_form 1 (replicate 300 97) ≡ Ok tt) × (line_form 1 (replicate 301 97) ≡ Err code.Long) }
    ensures bytes { (line_form 1 (32 ∷ 126 ∷ []) ≡ Ok tt) × (line_form 1 (31 ∷ []) ≡ Err code.Byte) × (line_form 1 (127 ∷ []) ≡ Err code.Byte) }
    ensures order { (line_form 131073 (replicate 301 31) ≡ Err code.Lines) × (line_form 1 (replicate 301 31) ≡ Err code.Long) }
    ensures tails { (tail_form 131072 (97 ∷ []) ≡ Err code.Cut) × (tail_form 131073 (97 ∷ []) ≡ Err code.Lines) × (tail_form 131073 [] ≡ Ok tt) }
{}

/// The range of each size.
pub fn limits_of_sizes_are_these()
    ensures cpus { (size_of size.Cpus (codes "cpus 1") ≡ Ok 1) × (size_of size.Cpus (codes "cpus 64") ≡ Ok 64) × (size_of size.Cpus (codes "cpus 0") ≡ Err code.Number) × (size_of size.Cpus (codes "cpus 65") ≡ Err code.Number) }
    ensures area { (size_of size.Area (codes "area 0") ≡ Ok 0) × (size_of size.Area (codes "area 896") ≡ Ok 896) × (size_of size.Area (codes "area 897") ≡ Err code.Number) }
    ensures frames { (size_of size.Frames (codes "frames 1") ≡ Ok 1) × (size_of size.Frames (codes "frames 1024") ≡ Ok 1024) × (size_of size.Frames (codes "frames 0") ≡ Err code.Number) × (size_of size.Frames (codes "frames 1025") ≡ Err code.Number) }
    ensures vectors { (size_of size.Vectors (codes "vectors 0") ≡ Ok 0) × (size_of size.Vectors (codes "vectors 64") ≡ Ok 64) × (size_of size.Vectors (codes "vectors 65") ≡ Err code.Number) }
{}

/// The range of keys, how many sections there may be, and the range of a tag's line.
pub fn limits_of_words_are_these()
    ensures keys { (key_word (codes "1") ≡ Ok 1) × (key_word (codes "65535") ≡ Ok 65535) × (key_word (codes "0") ≡ Err code.Number) × (key_word (codes "65536") ≡ Err code.Number) }
    ensures sections { (further 64 ≡ Ok 64) × (further 65 ≡ Err code.Sections) }
    ensures tag_lines { (tagged (codes "tag a.c 1 f") ≡ Ok 1) × (tagged (codes "tag a.c 4294967295 f") ≡ Ok 1) × (tagged (codes "tag a.c 0 f") ≡ Err code.Number) × (tagged (codes "tag a.c 4294967296 f") ≡ Err code.Number) }
{}
