//! What the texts of rows are found by.

use crate::unique::Unique;
use content_rows::Cell;

/// What a text is told by: what it is to its row, and its digest. Two texts may have one digest.
#[derive(Clone, Copy, Debug, PartialEq, Eq, PartialOrd, Ord)]
pub struct TextMark {
    pub what: Unique,
    pub digest: u64,
}

/// A text of a row, with the cell of the row.
#[derive(Clone, Copy, Debug, PartialEq, Eq, PartialOrd, Ord)]
pub struct TextKey {
    pub mark: TextMark,
    pub cell: Cell,
}
