//! The program over a store in a database: what the tables stood for before, and what they stand for after.
#![tactic(auto)]

mod laws;
mod run;

pub use laws::stores_tell;
pub use run::run_over_tables;
