//! What no two rows have in common.
ghost use Rattle.std.specs.Prelude.{◌≡◌};
ghost use Rattle.std.specs.Option.{option_copied};
ghost use Rattle.indexed_rows.specs.Texts.{text_of};

use content_rows::{Row, Text};

/// What no two rows have in common.
#[derive(Clone, Copy, Debug, PartialEq, Eq, PartialOrd, Ord)]
pub enum Unique {
    /// The universal id of a node.
    NodeUuid,
    /// The universal id of a term.
    TermUuid,
    /// The universal id of a user.
    UserUuid,
    /// The name of a user.
    UserName,
    /// The path of a node or of a listing.
    Path,
    /// The universal id of a comment.
    CommentUuid,
}

/// What a row has that no other row may have, if it has that.
pub fn text_of(what: Unique, row: &Row) -> Option<&Text>
    ensures { option_copied result ≡ text_of what row.now }
{
    match (what, row) {
        (Unique::NodeUuid, Row::Node(node)) => Some(&node.uuid),
        (Unique::TermUuid, Row::Term(term)) => Some(&term.uuid),
        (Unique::UserUuid, Row::User(user)) => Some(&user.uuid),
        (Unique::UserName, Row::User(user)) => Some(&user.name),
        (Unique::Path, Row::Node(node)) => node.path.as_ref(),
        (Unique::Path, Row::Listing(listing)) => listing.path.as_ref(),
        (Unique::CommentUuid, Row::Comment(comment)) => Some(&comment.uuid),
        _ => None,
    }
}
