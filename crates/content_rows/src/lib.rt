//! The rows of a site: texts and lists, cells, one struct for each kind of row, what makes a row
//! right, and the eight rows that a new site begins with.
#![tactic(auto)]

mod cell;
mod duplicate;
mod id;
mod kinds;
mod permission;
mod right;
mod row;
mod starting;
mod text;

pub use cell::Cell;
pub use duplicate::Duplicate;
pub use id::{id_of, name_of};
pub use kinds::{
    has_hex_digits, has_line_bytes, has_text_bytes, has_uuid_bytes, is_block_path, is_reserved,
    is_target, is_utf8,
};
pub use permission::{Permissions, ViewGrants};
pub use right::{all_reach_top, have_distinct_ids, have_distinct_names, have_their_parents};
pub use row::{
    Block, BlockKind, Comment, FieldRow, FieldValue, Grant, GrantRow, Link, Listing, Menu, Node,
    NodeType, Region, Role, Row, Seq, Session, Site, Talk, Term, User,
};
pub use starting::starter;
pub use text::{Items, Text};
