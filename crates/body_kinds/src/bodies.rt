//! Each kind of body, by its table of keys.
ghost use Rattle.std.specs.Prelude.{◌≡◌, IfOk};
ghost use Rattle.serde_json.specs.View.{view};
ghost use Rattle.json_keys.specs.Checked.{read_checked};
ghost use Rattle.body_kinds.specs.Bodies.{new_node_in, node_patch_in, new_term_in, term_patch_in, new_user_in, user_patch_in, new_comment_in, comment_patch_in};
ghost use Rattle.body_kinds.specs.Tables.{new_node_keys, node_patch_keys, new_term_keys, term_patch_keys, new_user_keys, user_patch_keys, new_comment_keys, comment_patch_keys};

use crate::read::body_read;
use crate::tables::{
    COMMENT_PATCH, NEW_COMMENT, NEW_NODE, NEW_TERM, NEW_USER, NODE_PATCH, TERM_PATCH, USER_PATCH,
};
use json_keys::Checked;
use serde_json::Value;
use site_commands::{
    CommentPatch, NewComment, NewNode, NewTerm, NewUser, NodePatch, TermPatch, UserPatch,
};
use std::alloc::{AllocError, Global};

/// What an object says as a node to be made, or the first rule that it breaks: of the keys that are there, in the order of their
/// bytes; then of those that are missing. `Err` only where memory is wanting.
pub fn new_node(alloc: Global, value: &Value) -> Result<Checked<NewNode>, AllocError>
    ensures { IfOk result (λ c. c ≡ read_checked new_node_in new_node_keys (view value.now)) }
{
    body_read(alloc, &NEW_NODE, value)
}

/// What an object says as a change of a node, or the first rule that it breaks: of the keys that are there, in the order of
/// their bytes; then of those that are missing. `Err` only where memory is wanting.
pub fn node_patch(alloc: Global, value: &Value) -> Result<Checked<NodePatch>, AllocError>
    ensures { IfOk result (λ c. c ≡ read_checked node_patch_in node_patch_keys (view value.now)) }
{
    body_read(alloc, &NODE_PATCH, value)
}

/// What an object says as a term to be made, or the first rule that it breaks: of the keys that are there, in the order of
/// their bytes; then of those that are missing. `Err` only where memory is wanting.
pub fn new_term(alloc: Global, value: &Value) -> Result<Checked<NewTerm>, AllocError>
    ensures { IfOk result (λ c. c ≡ read_checked new_term_in new_term_keys (view value.now)) }
{
    body_read(alloc, &NEW_TERM, value)
}

/// What an object says as a change of a term, or the first rule that it breaks: of the keys that are there, in the order of
/// their bytes; then of those that are missing. `Err` only where memory is wanting.
pub fn term_patch(alloc: Global, value: &Value) -> Result<Checked<TermPatch>, AllocError>
    ensures { IfOk result (λ c. c ≡ read_checked term_patch_in term_patch_keys (view value.now)) }
{
    body_read(alloc, &TERM_PATCH, value)
}

/// What an object says as a user to be made, or the first rule that it breaks: of the keys that are there, in the order of
/// their bytes; then of those that are missing. `Err` only where memory is wanting.
pub fn new_user(alloc: Global, value: &Value) -> Result<Checked<NewUser>, AllocError>
    ensures { IfOk result (λ c. c ≡ read_checked new_user_in new_user_keys (view value.now)) }
{
    body_read(alloc, &NEW_USER, value)
}

/// What an object says as a change of a user, or the first rule that it breaks: of the keys that are there, in the order of
/// their bytes; then of those that are missing. `Err` only where memory is wanting.
pub fn user_patch(alloc: Global, value: &Value) -> Result<Checked<UserPatch>, AllocError>
    ensures { IfOk result (λ c. c ≡ read_checked user_patch_in user_patch_keys (view value.now)) }
{
    body_read(alloc, &USER_PATCH, value)
}

/// What an object says as a comment to be made, or the first rule that it breaks: of the keys that are there, in the order of
/// their bytes; then of those that are missing. `Err` only where memory is wanting.
pub fn new_comment(alloc: Global, value: &Value) -> Result<Checked<NewComment>, AllocError>
    ensures { IfOk result (λ c. c ≡ read_checked new_comment_in new_comment_keys (view value.now)) }
{
    body_read(alloc, &NEW_COMMENT, value)
}

/// What an object says as a change of a comment, or the first rule that it breaks: of the keys that are there, in the order of
/// their bytes; then of those that are missing. `Err` only where memory is wanting.
pub fn comment_patch(alloc: Global, value: &Value) -> Result<Checked<CommentPatch>, AllocError>
    ensures { IfOk result (λ c. c ≡ read_checked comment_patch_in comment_patch_keys (view value.now)) }
{
    body_read(alloc, &COMMENT_PATCH, value)
}
