//! Heads of replies.
ghost use Rattle.std.specs.Prelude.{◌≡◌, IfOk, IsTrue};
ghost use Rattle.http_heads.specs.Reply.{head_text, is_reply_status};
ghost use Rattle.site_late.specs.Heads.{media_of};

use content_state::is_json;
use http_heads::{Media, ReplyHead, reply_head};
use std::alloc::{AllocError, Global};

/// More bytes than most heads have.
const HEAD_ROOM: usize = 320;

/// The text of a head. `Err` only where memory is wanting.
pub fn head_of(alloc: Global, head: &ReplyHead) -> Result<Vec<u8>, AllocError>
    requires { IsTrue (is_reply_status head.now.status) }
    ensures { IfOk result (λ v. v.items ≡ head_text head.now) }
{
    let mut text = Vec::with_capacity(alloc, HEAD_ROOM)?;
    reply_head(alloc, &mut text, head)?;
    Ok(text)
}

/// The media type of what is shown at a path (RFC 9110, section 8.3).
pub fn media_of(path: &[u8]) -> Media
    ensures { result ≡ media_of path.now }
{
    if is_json(path) {
        Media::Json
    } else {
        Media::Html
    }
}
