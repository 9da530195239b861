//! What goes between threads.

use crate::bins::Bins;

fn needs_both<T: Send + Sync + Drop>(_: T) {}

/// Bins may be sent to another thread, and read by several.
pub fn bins_go_between_threads(bins: Bins) {
    needs_both(bins);
}
