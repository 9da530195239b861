//! What goes between threads.

use crate::state::State;
use std::sync::Arc;

fn needs_both<T: Send + Sync + Drop>(_: T) {}

/// A shared state may be sent to another thread, and read by several.
pub fn states_go_between_threads(state: Arc<State>) {
    needs_both(state);
}
