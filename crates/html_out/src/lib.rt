//! Bytes of pages: escaped, shared, and in lists with holes that are filled later.
#![tactic(auto)]

mod escaping;
mod flat;
mod list;
mod part;
mod shared;
mod threads;

pub use escaping::{escape, escaped_is_inert};
pub use flat::flatten;
pub use list::Segments;
pub use part::Segment;
pub use shared::Bytes;
pub use threads::{bytes_go_between_threads, segments_go_between_threads};
