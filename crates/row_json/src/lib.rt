//! Rows in JSON: each object is read as a row with its cell, or the first rule that it breaks is
//! told; each row is written as one object.
#![tactic(auto)]

mod cell;
mod fault;
mod kind;
mod object;
mod whole;

pub use cell::cell_of;
pub use fault::RowFault;
pub use kind::Kind;
pub use object::{of_kind, reading, row_from_json, row_to_json};
pub use whole::whole_fault;
