//! What the roles of a user give: their names, what they permit, whether a session is live, and
//! what guards its forms.
#![tactic(auto)]

mod csrf;
mod names;
mod permission;
mod session;
mod sorted;

pub use csrf::csrf_of;
pub use names::role_names;
pub use permission::{has, is_permitted, permissions_of};
pub use session::session_live;
