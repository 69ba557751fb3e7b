//! What the words of the command line ask for.

ghost use Rattle.std.specs.Prelude.{◌≡◌, ◌≤◌, length, map, IfOk};
ghost use Rattle.std.specs.String.{string_bytes};
ghost use Rattle.profile_top.specs.Answers.{Gives, answer_in, info_word, mode_word, mode_of};

use crate::answer::Answer;
use crate::check::check_answer;
use crate::groups::groups_answer;
use crate::step::step_answer;
use info_group::Key;
use std::alloc::{AllocError, Global};

/// The commands.
#[derive(Clone, Copy, Debug, PartialEq, Eq)]
pub enum Mode {
    Step,
    Check,
    Files,
    Modules,
}

/// The words that read allocinfo.
fn info_word(word: &[u8]) -> Option<Mode>
    ensures { result ≡ info_word word.now }
{
    if word == b"files".as_slice() {
        return Some(Mode::Files);
    }
    if word == b"modules".as_slice() {
        return Some(Mode::Modules);
    }
    None
}

fn mode_word(word: &[u8]) -> Option<Mode>
    ensures { result ≡ mode_word word.now }
{
    match word {
        b"step" => Some(Mode::Step),
        b"check" => Some(Mode::Check),
        _ => info_word(word),
    }
}

/// What the words ask for. None where they are not taken.
pub(crate) fn mode_of(words: &[String]) -> Option<Mode>
    ensures { result ≡ mode_of (map string_bytes words.now) }
{
    match words {
        [word] => mode_word(word.as_bytes()),
        _ => None,
    }
}

/// The answer to an input that is not too long.
pub(crate) fn answer_input(alloc: Global, mode: Mode, input: &[u8]) -> Result<Answer, AllocError>
    requires { length input.now ≤ 4194304 }
    ensures { IfOk result (λ answer. Gives answer (answer_in mode input.now)) }
{
    match mode {
        Mode::Step => step_answer(alloc, input),
        Mode::Check => check_answer(alloc, input),
        Mode::Files => groups_answer(alloc, input, Key::File),
        Mode::Modules => groups_answer(alloc, input, Key::Module),
    }
}
