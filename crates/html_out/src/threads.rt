//! What goes between threads.

use crate::list::Segments;
use crate::shared::Bytes;
use std::sync::Arc;

fn needs_both<T: Send + Sync + Drop>(_: T) {}

/// Shared bytes may be sent to another thread, and read by several.
pub fn bytes_go_between_threads(bytes: Arc<Bytes>) {
    needs_both(bytes);
}

/// Segments may be sent to another thread, and read by several, where their holes may.
pub fn segments_go_between_threads<T: Send + Sync + Drop>(segments: Segments<T>) {
    needs_both(segments);
}
