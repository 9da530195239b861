//! The bodies of edits in JSON: for each its table of keys, and how it is read of an object.
//!
//! What is read of an object is a value for every object. Where the table of the body lets the
//! object through, it is what the object says; else it is shown to nobody. A key that may be left
//! out reads as what its absence says.
#![tactic(auto)]

mod bodies;
mod comment;
mod laws;
mod node;
mod read;
mod row;
mod tables;
mod term;
mod user;

pub use bodies::{
    comment_patch, new_comment, new_node, new_term, new_user, node_patch, term_patch, user_patch,
};
pub use laws::{
    comment_patches_come_back, new_comments_come_back, new_nodes_come_back, new_terms_come_back,
    new_users_come_back, node_patches_come_back, term_patches_come_back, user_patches_come_back,
};
pub use row::{config_row, settings_row};
