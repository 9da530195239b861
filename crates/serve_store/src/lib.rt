//! The job of serving: the site that a store holds is served at an address, by many workers.
#![tactic(auto)]

mod doors;
mod ending;
mod job;
mod opening;
mod serving;
mod texts;
mod warming;

pub use ending::ServeEnd;
pub use job::serve_store;
pub use serving::Serving;
