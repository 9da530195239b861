//! What becomes of an edit.

use access_result::Reason;
use cacheability::{Name, Tag};
use content_rows::{Cell, Text};
use content_state::Commit;
use json_keys::Rule;
use std::sync::Arc;

/// What an accepted edit did.
#[derive(Clone, Copy)]
pub enum Done {
    /// It made the node of this id, in version 1.
    NodeCreated(u32),
    /// It changed the node of this id, which is now in this version.
    NodeChanged(u32, u32),
    /// It made the term of this id.
    TermCreated(u32),
    /// It made the user of this id.
    UserCreated(u32),
    /// It made the comment of this id.
    CommentCreated(u32),
    /// It did what was asked, and there is nothing to tell.
    Saved,
    /// It logged the user of this id in, with a session of this token.
    LoggedIn(u32, Name),
    /// It ended the viewer's session.
    LoggedOut,
}

/// Why an edit is refused.
#[derive(Drop)]
pub enum Refusal {
    /// The viewer has a session, and the request lacks the value that guards its forms.
    Csrf,
    /// What is named is not there.
    NoTarget,
    /// The viewer may not do this.
    Denied(Reason),
    /// There is a session of the token already.
    TokenClash,
    /// This key breaks this rule.
    Broken(Text, Rule),
    /// The row of this id has the universal id.
    UuidTaken(u32),
    /// The node is in this version, which is another one than the edit was made of.
    Stale(u32),
    /// The row of this cell has the path.
    PathTaken(Cell),
    /// The count of this tag cannot be raised.
    CountFull(Tag),
    /// The log is as long as it can be.
    LogFull,
}

/// What is to become of an edit on a state.
#[derive(Drop)]
pub enum Verdict {
    /// It is accepted: this is to be kept, and this is done then.
    Commit(Arc<Commit>, Done),
    /// It is refused.
    Refused(Refusal),
}

/// What is answered to an edit. A number is that of the state on which it was refused, or that it made.
#[derive(Drop)]
pub enum Answer {
    /// It was accepted, kept and published.
    Done(Done, u64),
    /// It was refused.
    Refused(Refusal, u64),
    /// The keeper of the rows failed. Whether the edit is kept shows at the next one.
    Keeper,
    /// Memory is wanting: nothing of the edit is kept.
    OutOfMemory,
}
