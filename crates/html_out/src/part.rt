//! A segment of a page.

use crate::shared::Bytes;
use std::sync::Arc;

/// Shared bytes, or a hole that is filled later. A clause compares segments by `part_of`, which reads the bytes and not
/// where they lie.
pub enum Segment<T> {
    /// Bytes as they are.
    Bytes(Arc<Bytes>),

    /// What is to be filled in here.
    Hole(T),
}

impl<T: Drop> Drop for Segment<T> {
    fn drop(self) {
        match self {
            Segment::Bytes(_) => {}
            Segment::Hole(_) => {}
        }
    }
}
