//! The rows of a state, the indexes of them, and writes to both.
#![tactic(auto)]

mod indexed;
mod indexes;
mod rows;
mod text_key;
mod text_mark;
mod unique;
mod write;
mod writing;

pub use indexed::IndexedRows;
pub use indexes::Indexes;
pub use rows::{Rows, RowsInOrder, RowsIter};
pub use text_key::{OfMark, digest};
pub use text_mark::{TextKey, TextMark};
pub use unique::{Unique, text_of};
pub use write::Write;
