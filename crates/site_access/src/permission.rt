//! The texts of permissions.
ghost use Rattle.std.specs.Prelude.{◌≡◌, ◌++◌, IfOk};
ghost use Rattle.content_state.specs.Viewer.{bypass_node_access as bypass_text, access_content as content_text, view_own_unpublished as unpublished_text, administer_nodes as administer_text};
ghost use Rattle.site_access.specs.Access.{verb_any as any_text, verb_own as own_text, any_content as any_content_text, own_content as own_content_text, create_content as create_content_text, create_start, content_end};

use cacheability::{Name, Op};
use std::alloc::{AllocError, Global};

/// `bypass node access`.
#[tactic(auto, unfolding(content_state::specs::Viewer::bypass_node_access))]
pub fn bypass_node_access() -> &'static [u8]
    ensures { result.now ≡ bypass_text }
{
    b"bypass node access"
}

/// `access content`.
#[tactic(auto, unfolding(content_state::specs::Viewer::access_content))]
pub fn access_content() -> &'static [u8]
    ensures { result.now ≡ content_text }
{
    b"access content"
}

/// `view own unpublished content`.
#[tactic(auto, unfolding(content_state::specs::Viewer::view_own_unpublished))]
pub fn view_own_unpublished() -> &'static [u8]
    ensures { result.now ≡ unpublished_text }
{
    b"view own unpublished content"
}

/// `administer nodes`.
#[tactic(auto, unfolding(content_state::specs::Viewer::administer_nodes))]
pub fn administer_nodes() -> &'static [u8]
    ensures { result.now ≡ administer_text }
{
    b"administer nodes"
}

/// The permission to do something to all content of a type, as `edit any page content`. `Err` only
/// where memory is wanting.
pub fn any_content(alloc: Global, op: Op, node_type: &Name) -> Result<Vec<u8>, AllocError>
    ensures { IfOk result (λ text. text.items ≡ any_content_text op node_type.now) }
{
    of_content(alloc, verb_any(op), node_type)
}

/// The permission to do something to one's own content of a type, as `edit own page content`.
/// `Err` only where memory is wanting.
pub fn own_content(alloc: Global, op: Op, node_type: &Name) -> Result<Vec<u8>, AllocError>
    ensures { IfOk result (λ text. text.items ≡ own_content_text op node_type.now) }
{
    of_content(alloc, verb_own(op), node_type)
}

/// The permission to create content of a type, as `create page content`. `Err` only where memory
/// is wanting.
#[tactic(auto, unfolding(crate::specs::Access::create_start))]
pub fn create_content(alloc: Global, node_type: &Name) -> Result<Vec<u8>, AllocError>
    ensures { IfOk result (λ text. text.items ≡ create_content_text node_type.now) }
{
    of_content(alloc, b"create ", node_type)
}

/// What begins with a verb and names a type.
#[tactic(auto, unfolding(crate::specs::Access::content_end))]
fn of_content(alloc: Global, verb: &[u8], node_type: &Name) -> Result<Vec<u8>, AllocError>
    ensures { IfOk result (λ text. text.items ≡ verb.now ++ node_type.now ++ content_end) }
{
    let mut text = Vec::from_slice(alloc, verb)?;
    text.extend_from_slice(node_type.as_bytes())?;
    text.extend_from_slice(b" content")?;
    Ok(text)
}

/// How a permission to do something to all content of a type begins.
#[tactic(auto, unfolding(crate::specs::Access::verb_any))]
fn verb_any(op: Op) -> &'static [u8]
    ensures { result.now ≡ any_text op }
{
    match op {
        Op::View => b"view any ",
        Op::Update => b"edit any ",
        Op::Delete => b"delete any ",
    }
}

/// How a permission to do something to one's own content of a type begins.
#[tactic(auto, unfolding(crate::specs::Access::verb_own))]
fn verb_own(op: Op) -> &'static [u8]
    ensures { result.now ≡ own_text op }
{
    match op {
        Op::View => b"view own ",
        Op::Update => b"edit own ",
        Op::Delete => b"delete own ",
    }
}
