//! What stands of each module.

ghost use Rattle.std.specs.Prelude.{◌≡◌, IfOk};
ghost use Rattle.round_check.specs.Tables.{absent_modules};

use crate::table::Table;
use std::alloc::{AllocError, Global};

/// Whether a module is loaded, the last round that entered or left it, and the last one that unloaded it.
#[derive(Clone, Copy, Debug, PartialEq, Eq)]
pub struct ModuleState {
    pub loaded: bool,
    pub moved: u32,
    pub unloaded: u32,
}

/// The most sections.
pub(crate) const SECTION_COUNT: usize = 65;

/// The states of all modules, by section.
pub type ModuleTable = Table<ModuleState, SECTION_COUNT>;

/// No module is loaded.
#[tactic(auto, unfolding(crate::specs::Tables::absent_modules))]
pub(crate) fn absent_modules(alloc: Global) -> Result<ModuleTable, AllocError>
    ensures { IfOk result (λ modules. modules ≡ absent_modules 65) }
{
    Table::of(
        alloc,
        ModuleState {
            loaded: false,
            moved: 0,
            unloaded: 0,
        },
    )
}
