//! Comments to be made and to be changed.
ghost use Rattle.body_kinds.specs.Bodies.{new_comment_in, comment_patch_in};

use crate::read::{ReadBody, sent};
use row_kinds::read_at;
use serde_json::Value;
use site_commands::{CommentPatch, NewComment};
use std::alloc::{AllocError, Global};

impl ReadBody for NewComment {
    ghost of = { new_comment_in };

    fn read_body(alloc: Global, value: &Value) -> Result<Self, AllocError> {
        Ok(NewComment {
            body: read_at(alloc, value, "body")?,
            parent: read_at(alloc, value, "parent")?,
            uuid: read_at(alloc, value, "uuid")?,
        })
    }
}

impl ReadBody for CommentPatch {
    ghost of = { comment_patch_in };

    fn read_body(alloc: Global, value: &Value) -> Result<Self, AllocError> {
        Ok(CommentPatch {
            body: sent(alloc, value, "body")?,
            status: sent(alloc, value, "status")?,
        })
    }
}
