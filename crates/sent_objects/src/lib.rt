//! Objects of JSON that are sent, read by the keys that edits know.
//!
//! A body may have a million bytes of keys that nobody asks for, and a map of them all costs more
//! than everything else that is done with it. What a command says of an object is decided by the
//! keys that some edit knows, by the least of the others, and by the first members of lists alone;
//! so only these are kept. All of the text is read: one that breaks the grammar is none.
#![tactic(auto)]

mod fronts;
mod inside;
mod keys;
mod members;
mod number;
mod object;
mod pairs;
mod skip;

pub use object::SentObject;
