//! What a page lists: the nodes of a listing and the pages that they fill, the links of a menu and the active trail
//! among them, and the blocks of a region with where and for whom each shows.
#![tactic(auto)]

mod below;
mod blocks;
mod chosen;
mod front;
mod laws;
mod listed;
mod names;
mod one_index;
mod paging;
mod query;
mod trail;
mod tree;
mod visible;

pub use blocks::blocks_of;
pub use laws::plans_answer;
pub use listed::{candidates, candidates_counted, list_tags, term_listing};
pub use paging::{Page, last_page, page_asked, page_at, page_of};
pub use query::query_value;
pub use row_keys::{BlockRank, NodeRank};
pub use trail::active_trail;
pub use tree::{MenuPlace, menu_tree};
pub use visible::block_visible;
