//! What keeps a site's rows: all of them at once when a site is opened, and then a batch for each accepted edit.
//!
//! A keeper is a trait, so that the work above is proved for every keeper. It tells what it holds, or doesn't tell. The
//! one in memory tells.
#![tactic(auto)]

mod batch;
mod fault;
mod keeper;
mod laws;
mod making;
mod memory;
mod stored;

pub use batch::Batch;
pub use fault::KeeperFault;
pub use keeper::Keeper;
pub use laws::batches_keep_steps;
pub use making::batch_over;
pub use memory::{Fail, MemoryKeeper};
pub use stored::Stored;
