//! The lines of a schedule's body.

ghost use Rattle.std.specs.Prelude.{◌≡◌, ◌≤◌, List};
ghost use Rattle.tag_section.specs.Section.{Section};
ghost use Rattle.step_text.specs.declared.step_words.OpName.TheVariants as name;
ghost use Rattle.step_text.specs.StepGrammar.{op_words, is_managers, belongs, actor_word, new_keys_fit, step_op, do_line, count_word, go_line, words_line};

use crate::step_words::{OpName, op_name};
use crate::steps::{StepAct, StepActor, StepOp};
use input_form::{
    Code, cpu_word, is_word, key_word, module_word, need, number_word, size_word, tag_word,
};
use tag_section::Sections;
use text_form::LineWords;

/// The greatest size of a reference.
const SIZE_LIMIT: u64 = 17_592_186_044_415;

/// The greatest key.
const KEY_LIMIT: u32 = 65_535;

// How many words a `do` line has.
fn op_words(name: OpName) -> usize
    ensures { result ≡ op_words name }
{
    match name {
        OpName::Open | OpName::Split => 6,
        OpName::Swap | OpName::Trim => 5,
        OpName::Close | OpName::Enter | OpName::Leave | OpName::Load | OpName::Unload => 4,
        OpName::Clean => 3,
    }
}

// Whether the op is the manager's.
fn is_managers(name: OpName) -> bool
    ensures { result ≡ is_managers name }
{
    matches!(name, OpName::Load | OpName::Unload | OpName::Clean)
}

fn belongs(name: OpName, actor: StepActor) -> bool
    ensures { result ≡ belongs name actor }
{
    match actor {
        StepActor::Manager => is_managers(name),
        StepActor::Cpu(_) => !is_managers(name),
    }
}

// A CPU's number, or `m`.
#[tactic(auto, unfolding(crate::specs::StepGrammar::actor_word))]
fn actor_word(word: &[u8], cpus: u32) -> Result<StepActor, Code>
    ensures { result ≡ actor_word cpus word.now }
{
    if is_word(word, b"m") {
        return Ok(StepActor::Manager);
    }
    let cpu = cpu_word(word, cpus)?;
    Ok(StepActor::Cpu(cpu))
}

// Whether the new keys of a split are keys, and not the split one.
fn new_keys_fit(key: u32, parts: u32, first: u32) -> bool
    requires parts { (2 ≤ parts) × (parts ≤ 1024) }
    requires first { first ≤ 65535 }
    ensures { result ≡ new_keys_fit key parts first }
{
    let last = first + parts - 2;
    last <= KEY_LIMIT && !(first <= key && key <= last)
}

// `open KEY TAG SIZE`
#[tactic(auto, unfolding(crate::specs::StepGrammar::step_op))]
fn open_op(sections: &Sections, line: &LineWords<'_>) -> Result<StepOp, Code>
    ensures { result ≡ step_op sections.now name.Open line.now }
{
    let key = key_word(line.at(3))?;
    let (section, index) = tag_word(sections, line.at(4))?;
    let size = size_word(line.at(5), 1, SIZE_LIMIT)?;
    Ok(StepOp::Open {
        key,
        section,
        index,
        size,
    })
}

// `split KEY PARTS FIRST`
#[tactic(auto, unfolding(crate::specs::StepGrammar::step_op))]
fn split_op(line: &LineWords<'_>) -> Result<StepOp, Code>
    ensures { (sections : List Section) → result ≡ step_op sections name.Split line.now }
{
    let key = key_word(line.at(3))?;
    let parts = number_word(line.at(4), 2, 1024)?;
    let first = key_word(line.at(5))?;
    need(new_keys_fit(key, parts, first), Code::Keys)?;
    Ok(StepOp::Split { key, parts, first })
}

// `swap ONE TWO`
#[tactic(auto, unfolding(crate::specs::StepGrammar::step_op))]
fn swap_op(line: &LineWords<'_>) -> Result<StepOp, Code>
    ensures { (sections : List Section) → result ≡ step_op sections name.Swap line.now }
{
    let one = key_word(line.at(3))?;
    let two = key_word(line.at(4))?;
    need(one != two, Code::Same)?;
    Ok(StepOp::Swap { one, two })
}

// `trim KEY BYTES`
#[tactic(auto, unfolding(crate::specs::StepGrammar::step_op))]
fn trim_op(line: &LineWords<'_>) -> Result<StepOp, Code>
    ensures { (sections : List Section) → result ≡ step_op sections name.Trim line.now }
{
    let key = key_word(line.at(3))?;
    let bytes = size_word(line.at(4), 1, SIZE_LIMIT)?;
    Ok(StepOp::Trim { key, bytes })
}

// The words of an op from the fourth on.
#[tactic(auto, unfolding(crate::specs::StepGrammar::step_op))]
fn step_op(sections: &Sections, name: OpName, line: &LineWords<'_>) -> Result<StepOp, Code>
    ensures { result ≡ step_op sections.now name line.now }
{
    match name {
        OpName::Open => open_op(sections, line),
        OpName::Close => {
            let key = key_word(line.at(3))?;
            Ok(StepOp::Close { key })
        }
        OpName::Split => split_op(line),
        OpName::Swap => swap_op(line),
        OpName::Trim => trim_op(line),
        OpName::Enter => {
            let section = module_word(sections, line.at(3))?;
            Ok(StepOp::Enter { section })
        }
        OpName::Leave => {
            let section = module_word(sections, line.at(3))?;
            Ok(StepOp::Leave { section })
        }
        OpName::Load => {
            let section = module_word(sections, line.at(3))?;
            Ok(StepOp::Load { section })
        }
        OpName::Unload => {
            let section = module_word(sections, line.at(3))?;
            Ok(StepOp::Unload { section })
        }
        OpName::Clean => Ok(StepOp::Clean),
    }
}

/// `do ACTOR OP ..`
#[tactic(auto, unfolding(crate::specs::StepGrammar::do_line))]
pub(crate) fn do_line(cpus: u32, sections: &Sections, line: &LineWords<'_>) -> Result<StepAct, Code>
    ensures { result ≡ do_line cpus sections.now line.now }
{
    let name = op_name(line.at(2))?;
    need(line.count() == op_words(name), Code::Word)?;
    let actor = actor_word(line.at(1), cpus)?;
    need(belongs(name, actor), Code::Word)?;
    let op = step_op(sections, name, line)?;
    Ok(StepAct::Do { actor, op })
}

// A number of steps, or `all`.
#[tactic(auto, unfolding(crate::specs::StepGrammar::count_word))]
fn count_word(word: &[u8]) -> Result<Option<u32>, Code>
    ensures { result ≡ count_word word.now }
{
    if is_word(word, b"all") {
        return Ok(None);
    }
    let count = number_word(word, 1, 1_048_576)?;
    Ok(Some(count))
}

/// `go ACTOR N`
#[tactic(auto, unfolding(crate::specs::StepGrammar::go_line))]
pub(crate) fn go_line(cpus: u32, line: &LineWords<'_>) -> Result<StepAct, Code>
    ensures { result ≡ go_line cpus line.now }
{
    need(line.count() == 3, Code::Word)?;
    let actor = actor_word(line.at(1), cpus)?;
    let count = count_word(line.at(2))?;
    Ok(StepAct::Go { actor, count })
}

/// `words TAG`
#[tactic(auto, unfolding(crate::specs::StepGrammar::words_line))]
pub(crate) fn words_line(sections: &Sections, line: &LineWords<'_>) -> Result<StepAct, Code>
    ensures { result ≡ words_line sections.now line.now }
{
    need(line.count() == 2, Code::Word)?;
    let (section, index) = tag_word(sections, line.at(1))?;
    Ok(StepAct::Words { section, index })
}
