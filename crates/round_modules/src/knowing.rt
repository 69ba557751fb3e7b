//! What is known of the modules.

ghost use Rattle.std.specs.Prelude.{◌≡◌, List, ◌&&◌, ◌==◌, map, if◌then◌else◌, not};
ghost use Rattle.std.specs.List.{list_any};
ghost use Rattle.module_area.specs.Entries.{is_dead, is_loaded_as, kept};
ghost use Rattle.module_area.specs.declared.entry.Entry.{Entry};
ghost use Rattle.round_modules.specs.Known.{IsKnown, stays, unload_in, unloaded_by};

use module_area::{Entry, State};
use trace::{OnOp, TraceOp};

/// Marks what the round's ops unload.
pub fn unload_known(ops: &[OnOp], known: &mut [Entry])
    ensures marked { known.new ≡ unloaded_by ops.now known.old }
    ensures still { (book : List Entry) → IsKnown book known.old → IsKnown book known.new }
{
    for on in ops {
        unload_one(on.op, known);
    }
}

// Marks what the op unloads.
fn unload_one(op: TraceOp, known: &mut [Entry])
    ensures marked { known.new ≡ unload_in known.old op }
{
    if let TraceOp::Unload { section } = op {
        mark_section(section, known);
    }
}

// Marks the section's loaded module.
fn mark_section(section: u32, known: &mut [Entry])
    ensures { known.new ≡ map (λ entry. if is_loaded_as section entry then kept entry else entry) known.old }
{
    if let Some((first, rest)) = known.split_first_mut() {
        mark_entry(section, first);
        mark_section(section, rest);
    }
}

fn mark_entry(section: u32, entry: &mut Entry)
    ensures { entry.new ≡ (if is_loaded_as section entry.old then kept entry.old else entry.old) }
{
    if is_loaded(entry.state) && entry.section == section {
        entry.state = State::Dead;
    }
}

/// Whether a module of the state is loaded.
pub(crate) fn is_loaded(state: State) -> bool
    ensures { result ≡ not (is_dead state) }
{
    match state {
        State::Loaded => true,
        State::Dead => false,
    }
}

/// Whether a module that stays loaded has the id.
pub(crate) fn stays(known: &[Entry], id: u32) -> bool
    ensures { result ≡ stays known.now id }
{
    known
        .iter()
        .any(|entry| entry.id == id && is_loaded(entry.state))
}
