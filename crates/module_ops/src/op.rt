//! What the manager of modules does.

/// What the manager does, in several steps.
#[derive(Clone, Copy, Debug, PartialEq, Eq)]
pub enum ManagerOp {
    /// A section is loaded as a module.
    Load { section: u32 },
    /// A section's module is marked dead, and swept.
    Unload { section: u32 },
    /// All dead modules are swept.
    Clean,
}
