ghost use Rattle.std.specs.Prelude.{◌≡◌, ◌↔◌, IsTrue};
ghost use Rattle.std.specs.List.{list_all};
ghost use Rattle.codetag.specs.Names.{is_file_byte, is_function_byte, is_file, is_function, IsLine};

/// The most bytes of a file's name.
pub const FILE_LIMIT: usize = 127;

/// The most bytes of a function's name.
pub const FUNCTION_LIMIT: usize = 127;

/// The greatest number of a line.
pub const LINE_LIMIT: u64 = 4_294_967_295;

/// Whether a word is of a file's form: 1 to 127 bytes of letters, digits and `_ - . / +`.
#[tactic(auto, unfolding(crate::specs::Names::is_file))]
pub fn is_file(word: &[u8]) -> bool
    ensures { result ≡ is_file word.now }
{
    1 <= word.len() && word.len() <= FILE_LIMIT && has_file_bytes(word)
}

/// Whether a word is of a function's form: 1 to 127 bytes of letters, digits, `_` and `.`.
#[tactic(auto, unfolding(crate::specs::Names::is_function))]
pub fn is_function(word: &[u8]) -> bool
    ensures { result ≡ is_function word.now }
{
    1 <= word.len() && word.len() <= FUNCTION_LIMIT && has_function_bytes(word)
}

pub(crate) fn is_line(line: u64) -> bool
    ensures { IsTrue result ↔ IsLine line }
{
    1 <= line && line <= LINE_LIMIT
}

fn has_file_bytes(word: &[u8]) -> bool
    ensures { result ≡ list_all is_file_byte word.now }
{
    word.iter().all(|byte| is_file_byte(*byte))
}

fn has_function_bytes(word: &[u8]) -> bool
    ensures { result ≡ list_all is_function_byte word.now }
{
    word.iter().all(|byte| is_function_byte(*byte))
}

#[tactic(auto, unfolding(crate::specs::Names::is_file_byte))]
fn is_file_byte(byte: u8) -> bool
    ensures { result ≡ is_file_byte byte }
{
    byte.is_ascii_alphanumeric() || b"_-./+".contains(&byte)
}

#[tactic(auto, unfolding(crate::specs::Names::is_function_byte))]
fn is_function_byte(byte: u8) -> bool
    ensures { result ≡ is_function_byte byte }
{
    byte.is_ascii_alphanumeric() || b"_.".contains(&byte)
}
