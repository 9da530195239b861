//! The comments of a node, by the index.
ghost use Rattle.std.specs.Prelude.{◌≡◌, ◌++◌, ◌∷◌, [], IfOk, OnOk, map};
ghost use Rattle.indexed_rows.specs.Rows.{comments_on};
ghost use Rattle.content_state.specs.Comments.{keys_before, keys_on, shown_comment};

use crate::state::State;
use content_rows::Comment;
use row_keys::{CommentKey, On, OnBefore};
use shared_set::Within;
use std::alloc::{AllocError, Global};

impl State {
    /// The comments of a node with their ids, in the order of the ids. `Err` only where memory is wanting.
    pub fn comments_on(&self, alloc: Global, nid: u32) -> Result<Vec<(u32, &Comment)>, AllocError>
        ensures { IfOk result (λ found. map shown_comment found.items ≡ comments_on self.now.rows nid) }
    {
        self.stands_in_order();
        let mut found = Vec::new(alloc);
        'keys: for key in self.comment_keys(nid) {
            if let Some(comment) = self.comment(key.id).0 {
                push(&mut found, key.id, comment)?;
            }
        }
        Ok(found)
    }

    /// The ids of the comments of a node, in their order.
    pub fn comment_keys(&self, nid: u32) -> Within<'_, CommentKey, On>
        ensures { result ≡ keys_on self.now.rows nid }
    {
        self.stands_in_order();
        self.indexes().comments.within(On(nid))
    }

    /// The ids of the comments of a node that are below the id of a comment, in their order.
    pub(crate) fn comments_before(&self, nid: u32, cid: u32) -> Within<'_, CommentKey, OnBefore>
        ensures { result ≡ keys_before self.now.rows nid cid }
    {
        self.stands_in_order();
        self.indexes()
            .comments
            .within(OnBefore { node: nid, id: cid })
    }
}

/// Puts a comment with its id behind others. `Err` only where memory is wanting.
fn push<'a>(
    found: &mut Vec<(u32, &'a Comment)>,
    cid: u32,
    comment: &'a Comment,
) -> Result<(), AllocError>
    ensures { OnOk result (map shown_comment found.new.items ≡ map shown_comment found.old.items ++ (cid, comment.now) ∷ []) }
{
    match found.push((cid, comment)) {
        Ok(()) => Ok(()),
        Err(_) => Err(AllocError),
    }
}
