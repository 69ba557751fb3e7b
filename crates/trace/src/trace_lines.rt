//! The lines of a trace's body.

ghost use Rattle.std.specs.Prelude.{◌≡◌, List};
ghost use Rattle.tag_section.specs.Section.{Section};
ghost use Rattle.trace.specs.declared.trace_words.OnName.TheVariants as name;
ghost use Rattle.trace.specs.TraceGrammar.{on_words, trace_op, on_line};

use crate::trace_words::{OnName, on_name};
use crate::traces::{OnOp, TraceOp};
use input_form::{Code, cpu_word, key_word, module_word, need, number_word, size_word, tag_word};
use tag_section::Sections;
use text_form::LineWords;

// How many words an `on` line has.
fn on_words(name: OnName) -> usize
    ensures { result ≡ on_words name }
{
    match name {
        OnName::Split => 6,
        OnName::Page | OnName::Kmalloc | OnName::Swap | OnName::Trim => 5,
        OnName::Free | OnName::Hook | OnName::Enter | OnName::Leave | OnName::Unload => 4,
        OnName::Unhook => 3,
    }
}

// `page KEY ORDER`
#[tactic(auto, unfolding(crate::specs::TraceGrammar::trace_op))]
fn page_op(line: &LineWords<'_>) -> Result<TraceOp, Code>
    ensures { (sections : List Section) → result ≡ trace_op sections name.Page line.now }
{
    let key = key_word(line.at(3))?;
    let order = number_word(line.at(4), 0, 10)?;
    Ok(TraceOp::Page { key, order })
}

// `kmalloc KEY SIZE`
#[tactic(auto, unfolding(crate::specs::TraceGrammar::trace_op))]
fn kmalloc_op(line: &LineWords<'_>) -> Result<TraceOp, Code>
    ensures { (sections : List Section) → result ≡ trace_op sections name.Kmalloc line.now }
{
    let key = key_word(line.at(3))?;
    let size = size_word(line.at(4), 1, 4_194_304)?;
    Ok(TraceOp::Kmalloc { key, size })
}

// `split KEY ORDER FIRST`
#[tactic(auto, unfolding(crate::specs::TraceGrammar::trace_op))]
fn split_op(line: &LineWords<'_>) -> Result<TraceOp, Code>
    ensures { (sections : List Section) → result ≡ trace_op sections name.Split line.now }
{
    let key = key_word(line.at(3))?;
    let order = number_word(line.at(4), 0, 9)?;
    let first = key_word(line.at(5))?;
    Ok(TraceOp::Split { key, order, first })
}

// `swap ONE TWO`
#[tactic(auto, unfolding(crate::specs::TraceGrammar::trace_op))]
fn swap_op(line: &LineWords<'_>) -> Result<TraceOp, Code>
    ensures { (sections : List Section) → result ≡ trace_op sections name.Swap line.now }
{
    let one = key_word(line.at(3))?;
    let two = key_word(line.at(4))?;
    need(one != two, Code::Same)?;
    Ok(TraceOp::Swap { one, two })
}

// `trim KEY PAGES`
#[tactic(auto, unfolding(crate::specs::TraceGrammar::trace_op))]
fn trim_op(line: &LineWords<'_>) -> Result<TraceOp, Code>
    ensures { (sections : List Section) → result ≡ trace_op sections name.Trim line.now }
{
    let key = key_word(line.at(3))?;
    let pages = number_word(line.at(4), 1, 1023)?;
    Ok(TraceOp::Trim { key, pages })
}

// The words of an op from the fourth on.
#[tactic(auto, unfolding(crate::specs::TraceGrammar::trace_op))]
fn trace_op(sections: &Sections, name: OnName, line: &LineWords<'_>) -> Result<TraceOp, Code>
    ensures { result ≡ trace_op sections.now name line.now }
{
    match name {
        OnName::Page => page_op(line),
        OnName::Kmalloc => kmalloc_op(line),
        OnName::Free => {
            let key = key_word(line.at(3))?;
            Ok(TraceOp::Free { key })
        }
        OnName::Split => split_op(line),
        OnName::Swap => swap_op(line),
        OnName::Trim => trim_op(line),
        OnName::Hook => {
            let (section, index) = tag_word(sections, line.at(3))?;
            Ok(TraceOp::Hook { section, index })
        }
        OnName::Unhook => Ok(TraceOp::Unhook),
        OnName::Enter => {
            let section = module_word(sections, line.at(3))?;
            Ok(TraceOp::Enter { section })
        }
        OnName::Leave => {
            let section = module_word(sections, line.at(3))?;
            Ok(TraceOp::Leave { section })
        }
        OnName::Unload => {
            let section = module_word(sections, line.at(3))?;
            Ok(TraceOp::Unload { section })
        }
    }
}

/// `on CPU OP ..`
#[tactic(auto, unfolding(crate::specs::TraceGrammar::on_line))]
pub(crate) fn on_line(
    cpus: u32,
    sections: &Sections,
    number: u32,
    line: &LineWords<'_>,
) -> Result<OnOp, Code>
    ensures { result ≡ on_line cpus sections.now number line.now }
{
    let name = on_name(line.at(2))?;
    need(line.count() == on_words(name), Code::Word)?;
    let cpu = cpu_word(line.at(1), cpus)?;
    let op = trace_op(sections, name, line)?;
    Ok(OnOp {
        line: number,
        cpu,
        op,
    })
}
