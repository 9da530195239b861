//! What an accepted edit changes.

use cacheability::Tag;
use content_rows::Items;
use indexed_rows::Write;

/// An accepted edit: its writes, to distinct cells, the tags that it invalidates besides, and the number of the pass
/// that made it.
pub struct Commit {
    pub writes: Items<Write>,
    pub extra: Items<Tag>,
    pub pass: u32,
}

impl Drop for Commit {
    fn drop(self) {
        let Commit {
            writes: _,
            extra: _,
            pass: _,
        } = self;
    }
}
