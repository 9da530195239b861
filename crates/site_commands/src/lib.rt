//! Edits as commands, and what becomes of each: the definitions of all that may be edited, by whom, and why not.
#![tactic(auto)]

mod answer;
mod body;
mod command;

pub use answer::{Answer, Done, Refusal, Verdict};
pub use body::{
    CommentPatch, FieldChange, NewComment, NewNode, NewTerm, NewUser, NodePatch, TermPatch,
    UserPatch,
};
pub use command::{
    Command, CommentChange, CommentCreation, ConfigKind, Credentials, NodeChange, NodeCreation,
    NodeKeys, TermChange, UserChange, UserCreation, UserKeys,
};
