//! What a piece of a page says about keeping it: the tags of what it was made from, the contexts
//! that it varies by, and how long it may be kept.
#![tactic(auto)]

mod cacheability;
mod context;
mod decimal;
mod max_age;
mod name;
mod op;
mod ordered_set;
mod tag;
mod written;

pub use cacheability::Cacheability;
pub use context::Context;
pub use max_age::MaxAge;
pub use name::{BadName, Name};
pub use op::Op;
pub use ordered_set::OrderedSet;
pub use tag::Tag;
