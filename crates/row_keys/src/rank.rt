//! What places nodes and blocks among others, and the keys of the indexes of rows.
ghost use Rattle.std.specs.Prelude.{◌≡◌};
ghost use Rattle.row_keys.specs.Ranks.{rank_of};

use cacheability::Name;
use content_rows::Node;
use std::cmp::Reverse;

/// What places a node in a listing: sticky ones come first, then those made later, then those of greater ids.
#[derive(Clone, Copy, Debug, PartialEq, Eq, PartialOrd, Ord)]
pub struct NodeRank {
    /// Whether it stands before others.
    pub sticky: Reverse<bool>,
    /// When it was made, in seconds since 1970.
    pub created: Reverse<u64>,
    /// Its id.
    pub id: Reverse<u32>,
}

/// What places a block in its region: the lesser weight comes first, then the lesser name.
#[derive(Clone, Copy, Debug, PartialEq, Eq, PartialOrd, Ord)]
pub struct BlockRank {
    /// Its weight.
    pub weight: i32,
    /// Its machine name.
    pub name: Name,
}

/// A published node of a type.
#[derive(Clone, Copy, Debug, PartialEq, Eq, PartialOrd, Ord)]
pub struct TypeKey {
    pub node_type: Name,
    pub rank: NodeRank,
}

/// A published node with a term.
#[derive(Clone, Copy, Debug, PartialEq, Eq, PartialOrd, Ord)]
pub struct TermKey {
    pub term: u32,
    pub rank: NodeRank,
}

/// A term under the one above it, if there is one.
#[derive(Clone, Copy, Debug, PartialEq, Eq, PartialOrd, Ord)]
pub struct ParentKey {
    /// The id of the term above it.
    pub parent: Option<u32>,
    /// Its own id.
    pub id: u32,
}

/// A comment on its node.
#[derive(Clone, Copy, Debug, PartialEq, Eq, PartialOrd, Ord)]
pub struct CommentKey {
    /// The id of its node.
    pub node: u32,
    /// Its own id.
    pub id: u32,
}

/// A block in its region.
#[derive(Clone, Copy, Debug, PartialEq, Eq, PartialOrd, Ord)]
pub struct BlockKey {
    /// The place of its region among all.
    pub region: u8,
    pub rank: BlockRank,
}

/// What places a node.
pub fn node_rank(id: u32, node: &Node) -> NodeRank
    ensures { result ≡ rank_of (id, node.now) }
{
    NodeRank {
        sticky: Reverse(node.sticky),
        created: Reverse(node.created),
        id: Reverse(id),
    }
}
