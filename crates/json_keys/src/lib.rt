//! Objects of JSON by tables of keys: the first rule that an object breaks.
//!
//! What is asked of an object is a constant: its keys, each with what its value is to be. One
//! checker walks an object by any such table, so that a key costs a line.
#![tactic(auto)]

mod check;
mod checked;
mod form;
mod order;
mod rule;
mod shape;

pub use check::first_fault;
pub use checked::Checked;
pub use form::is_name;
pub use order::walk;
pub use rule::Rule;
pub use shape::{Ask, Column, Columns, Entry, Form, Key, Plain, Shape};
