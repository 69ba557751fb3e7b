//! What an input is refused with.

use itoa::Buffer;
use std::alloc::AllocError;
use tag_section::Sections;
use thiserror::Error;

/// Why a line is refused. The number of a code is a key, the number of a module's section, or a count.
#[derive(Clone, Copy, Debug, PartialEq, Eq)]
pub enum Code {
    /// Line 131,073.
    Lines,
    /// A last line without its newline.
    Cut,
    /// More than 300 bytes.
    Long,
    /// A byte outside 32 to 126.
    Byte,
    /// The first line is none of the headers that are read.
    Header,
    /// An empty word, a word that the language does not have there, or a wrong number of words.
    Word,
    /// A line outside its part.
    Order,
    /// A section without a tag.
    Empty,
    /// A size a second time.
    Repeat,
    /// An `on` line outside a round.
    NoRound,
    /// A word that should be a number in its range and is not.
    Number,
    /// A module's name that is not of its form, or stands already.
    Name,
    /// A file that is not of its form.
    File,
    /// A function that is not of its form.
    Function,
    /// Not a tag word.
    Tag,
    /// Not a declared module.
    Module,
    /// Not a CPU, or not an actor.
    Cpu,
    /// The 65th `module` line.
    Sections,
    /// One tag more than a section may have.
    Tags,
    /// A swap of a key with itself.
    Same,
    /// The new keys of a split pass the last key, or have the split key among them.
    Keys,
    /// The 65th line that prints.
    Prints,
    /// The actor has as many ops as may be queued.
    Queue,
    /// The actor's queue is empty.
    NoStep,
    /// The module list is held.
    Held,
    /// The key names no counted reference, or is reserved.
    NotLive(u32),
    /// The key is used or reserved.
    KeyUsed(u32),
    /// The CPU is not inside the module.
    NotRunning(u32),
    /// The CPU is inside the module already.
    Inside(u32),
    /// The module is not loaded.
    NotLoaded(u32),
    /// The module is loaded already.
    AlreadyLoaded(u32),
    /// So many CPUs are inside the module.
    Busy(u32),
    /// The book of modules is full.
    Full,
    /// No gap of the area is long enough.
    NoRoom,
    /// The size is not a multiple of the number of parts.
    Uneven,
    /// The trim takes the whole size or more.
    TooSmall,
    /// Another CPU's line of the round names the key.
    SharedKey(u32),
    /// The key is not bound.
    NoKey(u32),
    /// The key is an object's.
    Kind(u32),
    /// The key's block was trimmed.
    Trimmed(u32),
    /// The orders of a swap differ, or a split's order is not below the block's.
    Orders,
    /// A new key is bound already.
    Bound(u32),
    /// The trim takes all pages that are left, or more.
    Pages,
    /// The round has another line of the module beside its unload.
    UnloadShared(u32),
    /// The CPU is not inside the module.
    NotInside(u32),
    /// A tag of the module is current on the CPU, or saved.
    Hooked(u32),
    /// Sixteen hooks are out.
    Deep,
    /// No hook is out.
    NoHook,
}

/// Why an input gave nothing.
#[derive(Debug, PartialEq, Eq, Error, Drop)]
pub enum TextError {
    #[error("line {line} is refused")]
    Refused { line: u32, code: Code },
    #[error("out of memory")]
    Memory(AllocError),
}

/// What stands behind the word of a code.
#[derive(Clone, Copy, Debug, PartialEq, Eq)]
pub(crate) enum Argument {
    Nothing,
    /// A key or a count.
    Number(u32),
    /// A module, by the number of its section.
    Module(u32),
}

impl Code {
    ghost use Rattle.std.specs.Prelude.{◌≡◌, ◌⊎◌, ◌++◌, ◌<◌, length, OnOk, OnErr};
    ghost use Rattle.codetag.specs.Prefix.{IsPrefix};
    ghost use Rattle.tag_section.specs.Section.{names_of};
    ghost use Rattle.input_form.specs.declared.code.Argument.TheVariants.{Nothing};
    ghost use Rattle.input_form.specs.Codes.{code_word, argument_of, code_text};

    /// Appends the text. The number of a module is that of its section; a module that is none of them has no name.
    pub fn to_text(&self, sections: &Sections, out: &mut Vec<u8>) -> Result<(), AllocError>
        ensures ok { OnOk result
            (out.new.items ≡ out.old.items ++ code_text (names_of sections.now) self.now) }
        ensures err { OnErr result (out.new.items ≡ out.old.items) }
    {
        let before = out.len();
        let done = self.append(sections, out);
        if done.is_err() {
            out.truncate(before);
        }
        done
    }

    // Appends the text, or a front of it.
    #[tactic(auto, using(std::proofs::lemmas::Grind::common_steps), unfolding(crate::specs::Codes::code_text))]
    fn append(&self, sections: &Sections, out: &mut Vec<u8>) -> Result<(), AllocError>
        ensures ok { OnOk result
            (out.new.items ≡ out.old.items ++ code_text (names_of sections.now) self.now) }
        ensures err { OnErr result (IsPrefix out.old.items out.new.items) }
    {
        out.extend_from_slice(self.word())?;
        match self.argument() {
            Argument::Nothing => Ok(()),
            Argument::Number(number) => {
                out.extend_from_slice(b" ")?;
                out.extend_from_slice(Buffer::new().format(number).as_bytes())
            }
            Argument::Module(section) => {
                out.extend_from_slice(b" ")?;
                if section < sections.count() {
                    out.extend_from_slice(sections.name(section))?;
                }
                Ok(())
            }
        }
    }

    pub(crate) fn word(&self) -> &'static [u8]
        ensures { result.now ≡ code_word self.now }
    {
        match self {
            Code::Lines => b"lines",
            Code::Cut => b"cut",
            Code::Long => b"long",
            Code::Byte => b"byte",
            Code::Header => b"header",
            Code::Word => b"word",
            Code::Order => b"order",
            Code::Empty => b"empty",
            Code::Repeat => b"repeat",
            Code::NoRound => b"no-round",
            Code::Number => b"number",
            Code::Name => b"name",
            Code::File => b"file",
            Code::Function => b"function",
            Code::Tag => b"tag",
            Code::Module => b"module",
            Code::Cpu => b"cpu",
            Code::Sections => b"sections",
            Code::Tags => b"tags",
            Code::Same => b"same",
            Code::Keys => b"keys",
            Code::Prints => b"prints",
            Code::Queue => b"queue",
            Code::NoStep => b"no-step",
            Code::Held => b"held",
            Code::Full => b"full",
            Code::NoRoom => b"no-room",
            Code::Uneven => b"uneven",
            Code::TooSmall => b"too-small",
            Code::Orders => b"orders",
            Code::Pages => b"pages",
            Code::Deep => b"deep",
            Code::NoHook => b"no-hook",
            _ => self.word_before_argument(),
        }
    }

    // The word of a code that has something behind it. Any other code has no word here.
    fn word_before_argument(&self) -> &'static [u8]
        ensures { (argument_of self.now ≡ Nothing) ⊎ (result.now ≡ code_word self.now) }
    {
        match self {
            Code::NotLive(_) => b"not-live",
            Code::KeyUsed(_) => b"key-used",
            Code::NotRunning(_) => b"not-running",
            Code::Inside(_) => b"inside",
            Code::NotLoaded(_) => b"not-loaded",
            Code::AlreadyLoaded(_) => b"already-loaded",
            Code::Busy(_) => b"busy",
            Code::SharedKey(_) => b"shared-key",
            Code::NoKey(_) => b"no-key",
            Code::Kind(_) => b"kind",
            Code::Trimmed(_) => b"trimmed",
            Code::Bound(_) => b"bound",
            Code::UnloadShared(_) => b"unload-shared",
            Code::NotInside(_) => b"not-inside",
            Code::Hooked(_) => b"hooked",
            _ => b"",
        }
    }

    pub(crate) fn argument(&self) -> Argument
        ensures { result ≡ argument_of self.now }
    {
        match self {
            Code::NotLive(number) => Argument::Number(*number),
            Code::KeyUsed(number) => Argument::Number(*number),
            Code::Busy(number) => Argument::Number(*number),
            Code::SharedKey(number) => Argument::Number(*number),
            Code::NoKey(number) => Argument::Number(*number),
            Code::Kind(number) => Argument::Number(*number),
            Code::Trimmed(number) => Argument::Number(*number),
            Code::Bound(number) => Argument::Number(*number),
            Code::NotRunning(section) => Argument::Module(*section),
            Code::Inside(section) => Argument::Module(*section),
            Code::NotLoaded(section) => Argument::Module(*section),
            Code::AlreadyLoaded(section) => Argument::Module(*section),
            Code::UnloadShared(section) => Argument::Module(*section),
            Code::NotInside(section) => Argument::Module(*section),
            Code::Hooked(section) => Argument::Module(*section),
            _ => Argument::Nothing,
        }
    }
}
