//! Cells as the keys of maps in buckets.
#![tactic(auto)]

mod key;

pub use key::CellKey;
