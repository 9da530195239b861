//! What is told as JSON of nodes, terms, users and listings: each an object, compact, with its keys in the order of their bytes.
#![tactic(auto)]

mod listing;
mod node;
mod object;
mod people;
mod refusals;

pub use listing::listing_json;
pub use node::node_json;
pub use people::{term_json, user_json};
pub use refusals::{denied_json, no_target_json};
