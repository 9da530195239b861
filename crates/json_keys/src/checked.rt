//! What an object says, or what is wrong with it.

use crate::rule::Rule;
use content_rows::Text;

/// What an object says, or the first rule that it breaks.
#[derive(Drop)]
pub enum Checked<T: Drop> {
    /// It breaks no rule.
    Right(T),
    /// The key and the rule.
    Broken(Text, Rule),
}
