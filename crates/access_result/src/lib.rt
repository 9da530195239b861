//! What deciding about access gives: a verdict, why not, and what the decision depends on.
#![tactic(auto)]

mod access_result;
mod reason;
mod verdict;

pub use access_result::AccessResult;
pub use reason::{PermissionText, Reason};
pub use verdict::Verdict;
