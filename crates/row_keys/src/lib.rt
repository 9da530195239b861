//! The keys by which the rows of a state are found: nodes in the order of listings, of a type, or with a term, terms
//! under the terms above them, comments on their nodes, and blocks in their regions. Each key names the cell that it came from.
#![tactic(auto)]

mod blocks;
mod comments;
mod key;
mod nodes;
mod rank;
mod terms;

pub use blocks::{OfRegion, region_place};
pub use comments::{On, OnBefore};
pub use key::Key;
pub use nodes::{AllNodes, OfType, WithTerm};
pub use rank::{BlockKey, BlockRank, CommentKey, NodeRank, ParentKey, TermKey, TypeKey, node_rank};
pub use terms::{AllTerms, Under};
