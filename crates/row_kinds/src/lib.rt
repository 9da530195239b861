//! The kinds of rows in JSON: for each its table of keys, how it is read of an object, and how it
//! is written as one.
//!
//! What is read of an object is a value for every object. Where the table of the kind lets the
//! object through, it is what the object says; else it is shown to nobody. So reading has no
//! errors but want of memory, and a key costs a line.
#![tactic(auto)]

mod comments;
mod content;
mod field;
mod people;
mod structure;
mod tables;
mod texts;
mod words;

pub use field::{Read, Write, both, name_bytes, name_in, name_of, put_at, read_at, read_checked};
pub use tables::{
    BLOCK, COMMENT, LISTING, MENU, NODE, ROLE, SEQ, SESSION, SITE, TALK, TERM, TYPE, USER,
};
pub use texts::texts_at;
