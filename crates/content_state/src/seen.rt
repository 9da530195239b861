//! What the rows that were looked at have, which no row after them may have.

use content_rows::Text;
use indexed_rows::Unique;

/// A text that no two rows may have, as a row has it.
#[derive(Clone, Copy, Debug, PartialEq, Eq, PartialOrd, Ord)]
pub struct Held<'a> {
    pub what: Unique,
    pub text: &'a Text,
}
