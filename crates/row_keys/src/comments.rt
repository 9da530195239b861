//! The keys of comments.
ghost use Rattle.std.specs.Ordering.{nat_cmp};
ghost use Rattle.content_rows.specs.declared.cell.Cell.TheVariants as cell;
ghost use Rattle.row_keys.specs.Keys.{comment_keys};
ghost use Rattle.row_keys.specs.Exact.{comment_exact};
ghost use Rattle.row_keys.specs.Named.{comments_named};
ghost use Rattle.row_keys.specs.Spans.{comment_behind, comment_before, beside_part, part_behind, part_before};

use crate::key::Key;
use crate::rank::CommentKey;
use content_rows::{Cell, Row};
use shared_set::Span;
use std::alloc::AllocError;
use std::cmp::Ordering;

impl Key for CommentKey {
    ghost keys = { comment_keys };

    ghost owner = { λ k. cell.Comment k.id };

    fn add(found: &mut Vec<CommentKey>, cell: &Cell, row: &Row) -> Result<(), AllocError> {
        if let (Cell::Comment(id), Row::Comment(comment)) = (cell, row) {
            found.push(CommentKey {
                node: comment.node,
                id: *id,
            })?;
        }
        Ok(())
    }

    ghost exact = { comment_exact };

    ghost named = { comments_named };
}

/// The comments of a node.
#[derive(Clone, Copy, Debug)]
pub struct On(pub u32);

impl Span<CommentKey> for On {
    ghost beside = { λ s k. nat_cmp s.0 k.node };

    fn beside(&self, key: &CommentKey) -> Ordering {
        self.0.cmp(&key.node)
    }

    ghost behind = { λ s. comment_behind s.0 };

    ghost before = { λ s. comment_before s.0 };
}

/// The comments of a node that are below an id.
#[derive(Clone, Copy, Debug)]
pub struct OnBefore {
    pub node: u32,
    pub id: u32,
}

impl Span<CommentKey> for OnBefore {
    ghost beside = { λ s k. beside_part s.node s.id k };

    fn beside(&self, key: &CommentKey) -> Ordering {
        match self.node.cmp(&key.node) {
            Ordering::Equal if key.id < self.id => Ordering::Equal,
            Ordering::Equal => Ordering::Less,
            other => other,
        }
    }

    ghost behind = { λ s. part_behind s.node s.id };

    ghost before = { λ s. part_before s.node s.id };
}
