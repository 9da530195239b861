//! A sorted set whose keys stand in chunks: short lists that several sets share and that never change.
#![tactic(auto)]

mod chunk;
mod set;
mod span;
mod splice;
mod within;

pub use set::SharedSet;
pub use span::Span;
pub use within::Within;
