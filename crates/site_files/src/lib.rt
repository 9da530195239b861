//! Files of rows: one row a line.
#![tactic(auto)]

mod chunk;
mod fault;
mod file;
mod line;
mod starter;

pub use fault::{LineFault, ReadFault};
pub use file::{read_rows, read_site};
pub use starter::STARTER;
