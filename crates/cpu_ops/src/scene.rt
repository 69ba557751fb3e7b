//! What a CPU sees of the modules.

ghost use Rattle.std.specs.Prelude.{◌≡◌};
ghost use Rattle.core_list.specs.ListState.{IsList, loaded_entry};
ghost use Rattle.cpu_ops.specs.Machine.{Scene};

use crate::inside::Inside;
use core_list::CoreList;
use module_area::Entry;
use std::marker::Model;

/// Whether the manager holds the module list, the list, and the CPU's own runs.
#[derive(Drop)]
pub struct Scene<'a> {
    held: bool,
    list: &'a CoreList,
    inside: &'a Inside,
}

impl<'a> Model for Scene<'a> {
    ghost use Rattle.cpu_ops.specs.Machine.{Scene};

    ghost Value = { Scene };

    ghost view = { λ s. record { held = s.held; list = s.list.now; inside = s.inside.now } };
}

impl<'a> Scene<'a> {
    pub fn new(held: bool, list: &'a CoreList, inside: &'a Inside) -> Scene<'a>
        ensures { result ≡ record { held = held; list = list.now; inside = inside.now } }
    {
        Scene { held, list, inside }
    }

    /// Whether the manager holds the module list.
    pub fn is_held(&self) -> bool
        ensures { result ≡ self.now.held }
    {
        self.held
    }

    /// The module list.
    pub fn list(&self) -> &CoreList
        ensures { result.now ≡ self.now.list }
    {
        self.list
    }

    /// The CPU's own runs.
    pub fn inside(&self) -> &Inside
        ensures { result.now ≡ self.now.inside }
    {
        self.inside
    }
}

/// The entry of the section's loaded module.
pub fn loaded(list: &CoreList, section: u32) -> Option<Entry>
    ensures value { result ≡ loaded_entry section list.now }
    ensures holds { IsList list.now }
{
    let book = list.book();
    match book.loaded(section) {
        Some(id) => book.get(id),
        None => None,
    }
}
