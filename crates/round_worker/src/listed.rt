//! Unloads.

use reclaim::ModuleList;
use std::sync::Wait;
use tag_rule::Name;

// Unloads the section's module, if one is loaded. What became of it is seen when the round ends.
pub(crate) fn unload<R: Wait, N: Name>(rt: &R, list: &ModuleList<N>, section: u32) {
    let mut listed = list.lock(rt);
    if let Some(id) = listed.loaded(section) {
        let _answer = listed.unload(id);
    }
}
