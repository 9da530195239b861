//! A hall and its desk that callers in many threads share. Each has a pass of its own, and takes the hall out for a turn: for one call of
//! it, and never while a page is made or an edit is kept. For an edit it takes the desk out besides. What a caller sees through its pass is
//! a house.
#![tactic(auto)]

mod closing;
mod edit;
mod guest;
mod pass;
mod site;
mod workers;

pub use closing::Unclosed;
pub use guest::Guest;
pub use pass::Pass;
pub use site::Site;
pub use site_table::Room;
pub use workers::{Work, Worker, work_all};
