ghost use Rattle.std.specs.Prelude.{◌≡◌};
ghost use Rattle.std.specs.List.{list_all};
ghost use Rattle.std.specs.Str.{bytes_eq};
ghost use Rattle.tag_section.specs.ModuleName.{kernel_name, is_module_byte, is_module_name};

/// The most bytes of a module's name.
pub const NAME_LIMIT: usize = 55;

/// Whether a word is of a module name's form: 1 to 55 bytes of letters, digits, `_` and `-`, and
/// not `kernel`.
#[tactic(auto, unfolding(crate::specs::ModuleName::is_module_name))]
pub fn is_module_name(word: &[u8]) -> bool
    ensures { result ≡ is_module_name word.now }
{
    1 <= word.len() && word.len() <= NAME_LIMIT && has_module_bytes(word) && !is_kernel(word)
}

/// Whether a word is the name of the kernel's section.
pub(crate) fn is_kernel(word: &[u8]) -> bool
    ensures { result ≡ bytes_eq word.now kernel_name }
{
    word == b"kernel".as_slice()
}

fn has_module_bytes(word: &[u8]) -> bool
    ensures { result ≡ list_all is_module_byte word.now }
{
    word.iter().all(|byte| is_module_byte(*byte))
}

#[tactic(auto, unfolding(crate::specs::ModuleName::is_module_byte))]
fn is_module_byte(byte: u8) -> bool
    ensures { result ≡ is_module_byte byte }
{
    byte.is_ascii_alphanumeric() || b"_-".contains(&byte)
}
