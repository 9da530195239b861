//! Which comments a viewer may view, and which answer which.
ghost use Rattle.std.specs.Prelude.{◌≡◌};
ghost use Rattle.site_comments.specs.Viewed.{reads_some, may_view_comment, is_reply_to, is_shown};

use content_rows::Comment;

/// What of a viewer decides which comments it may view.
/// <https://www.drupal.org/docs/core-modules-and-themes/core-modules/comment-module>
#[derive(Clone, Copy, Debug)]
pub struct CommentReader {
    /// Whether it may administer comments, and so view each.
    pub administers: bool,
    /// Whether it may access comments, and so view each published one.
    pub accesses: bool,
}

impl CommentReader {
    /// Whether it may view some comments.
    pub fn reads_some(&self) -> bool
        ensures { result ≡ reads_some self.now }
    {
        self.administers || self.accesses
    }

    /// Whether it may view a comment.
    pub fn may_view(&self, comment: &Comment) -> bool
        ensures { result ≡ may_view_comment self.now comment.now }
    {
        self.administers || (self.accesses && comment.status)
    }

    /// Whether a comment stands right below the one of that number, or below none, and may be viewed.
    pub fn is_shown(&self, parent: Option<u32>, comment: &Comment) -> bool
        ensures { result ≡ is_shown self.now parent comment.now }
    {
        is_reply_to(comment, parent) && self.may_view(comment)
    }
}

/// Whether a comment answers the one of that number; of none, whether it answers none.
pub fn is_reply_to(comment: &Comment, parent: Option<u32>) -> bool
    ensures { result ≡ is_reply_to comment.now parent }
{
    match (comment.parent, parent) {
        (None, None) => true,
        (Some(one), Some(other)) => one == other,
        _ => false,
    }
}
