//! A worker may cross threads.

use round_worker::Worker;

fn crosses<T: Send>() {}

/// A worker may be sent to another thread.
pub fn workers_cross_threads() {
    crosses::<Worker>();
}
