//! A store of two tables, as a trait: six statements and a transaction around those that write. It tells its tables, so that
//! what is built on it can say what it keeps, and what a crash may leave.
#![tactic(auto)]

mod fault;
mod line;
mod six;

pub use fault::StoreFault;
pub use line::Line;
pub use six::Six;
