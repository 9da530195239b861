//! Access: who views, what a viewer may do, and why not, with all that each decision depends on.
#![tactic(auto)]

mod access;
mod account;
mod comment;
mod depends;
mod field;
mod laws;
mod node;
mod noting;
mod permission;
mod route;
mod shared;
mod term;
mod user;
mod viewer;
mod viewing;

pub use access::{create_access, field_access, node_access};
pub use account::Account;
pub use comment::{
    access_comments, administer_comments, comment_access, comment_plan_decides, edit_own_comments,
    post_comments, skip_comment_approval,
};
pub use field::field_in;
pub use laws::{decisions_are_exact, plans_answer};
pub use route::{route_access, route_plan_decides};
pub use shared::Shared;
pub use term::{term_access, term_plan_decides};
pub use user::{user_access, user_plan_decides};
pub use viewer::viewer_of;
