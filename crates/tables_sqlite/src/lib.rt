//! The store of two tables over a database of SQL.
#![tactic(auto)]

mod calls;
mod fault;
mod layout;
mod lines;
mod opening;
mod sqlite_six;
mod statements;

pub use fault::{NoKeeper, StoreTable};
pub use opening::{over, over_tables};
pub use sqlite_six::SqliteSix;
