//! What goes between threads.

use crate::entry::Entry;
use crate::kept::{Found, Kept};
use crate::key::Key;
use std::sync::Arc;

fn needs_both<T: Send + Sync + Drop>(_: T) {}

/// What is kept, shared, may be sent to another thread and read by several.
pub fn entries_go_between_threads(entry: Arc<Entry>) {
    needs_both(entry);
}

/// A key may be sent to another thread, and read by several.
pub fn keys_go_between_threads(key: Key) {
    needs_both(key);
}

/// What is to be kept, and what was found, may be sent to another thread and read by several.
pub fn what_is_kept_goes_between_threads(kept: Kept, found: Found) {
    needs_both(kept);
    needs_both(found);
}
