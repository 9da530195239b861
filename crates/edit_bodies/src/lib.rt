//! Edits as commands: what the body of a request says, and the command that an edit with that body
//! is. A body that breaks a rule is no error: the first rule that it breaks stands in the command.
#![tactic(auto)]

mod body;
mod command;
mod keys;
mod words;

pub use body::{Body, Form, body_of};
pub use command::{command_of, draws};
pub use words::{Words, digits_of};
