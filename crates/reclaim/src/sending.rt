//! The list may cross threads, and its lock may be shared by them.

use crate::{Listed, Locked, ModuleList};
use tag_rule::Name;

fn crosses<T: Send>() {}

fn is_shared<T: Sync>() {}

/// A list may be sent to another thread, alone or in its lock, and threads may share the lock.
pub fn lists_cross_threads<N: Name + Send + Sync>() {
    crosses::<Locked>();
    crosses::<Listed<N>>();
    crosses::<ModuleList<N>>();
    is_shared::<ModuleList<N>>();
}
