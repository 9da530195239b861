//! The replies that tell of no edit that was made.
ghost use Rattle.std.specs.Prelude.{◌≡◌, IfOk, IsTrue, length};
ghost use Rattle.http_heads.specs.Reply.{is_reply_status, reply_text};
ghost use Rattle.edit_replies.specs.Bodies.{refusal_status};
ghost use Rattle.edit_replies.specs.Texts.{json_head, refused_text, media_text, bad_json_text};

use crate::json::refusal_body;
use http_heads::{CookieOut, Media, ReplyHead, reply_head};
use site_commands::Refusal;
use std::alloc::{AllocError, Global};

/// A reply of this status with this body of JSON, and the number of a state.
fn json_text(
    alloc: Global,
    status: u16,
    body: &[u8],
    number: u64,
    closing: bool,
) -> Result<Vec<u8>, AllocError>
    requires { IsTrue (is_reply_status status) }
    ensures { IfOk result (λ t. t.items ≡ reply_text (json_head status (length body.now) number closing) body.now) }
{
    let head = ReplyHead {
        status,
        media: Media::Json,
        length: Some(body.len() as u128),
        location: None,
        cookie: CookieOut::Nothing,
        allow: false,
        state: Some(number),
        close: closing,
    };
    let mut text = Vec::new(alloc);
    reply_head(alloc, &mut text, &head)?;
    text.extend_from_slice(body)?;
    Ok(text)
}

/// The status of the reply of a refused edit (RFC 9110, sections 15.5.4, 15.5.5, 15.5.10 and 15.5.21).
fn refusal_status(refusal: &Refusal) -> u16
    ensures status { result ≡ refusal_status refusal.now }
    ensures of_replies { IsTrue (is_reply_status result) }
{
    match refusal {
        Refusal::Csrf | Refusal::Denied(_) => 403,
        Refusal::NoTarget => 404,
        Refusal::TokenClash | Refusal::UuidTaken(_) | Refusal::Stale(_) | Refusal::PathTaken(_) =>
            409,
        Refusal::Broken(..) | Refusal::CountFull(_) | Refusal::LogFull => 422,
    }
}

/// The reply of a refused edit: its status by what was refused, and a body of JSON that tells it by a code,
/// and beside the code what is to be known: the reason, the key and the rule, the holder, the version, the tag.
/// `number` is that of the state on which the edit was judged, and `closing` says whether the connection closes
/// after the reply. `Err` only where memory is wanting.
pub fn refused_text(
    alloc: Global,
    refusal: &Refusal,
    number: u64,
    closing: bool,
) -> Result<Vec<u8>, AllocError>
    ensures text { IfOk result (λ t. t.items ≡ refused_text refusal.now number closing) }
{
    let body = refusal_body(alloc, refusal)?;
    json_text(alloc, refusal_status(refusal), &body, number, closing)
}

/// The reply to an edit whose body is of another media type than those that the edit takes (RFC 9110, section
/// 15.5.16), with the number of a state. `Err` only where memory is wanting.
#[tactic(auto, unfolding(crate::specs::Texts::media_body))]
pub fn media_text(alloc: Global, number: u64, closing: bool) -> Result<Vec<u8>, AllocError>
    ensures text { IfOk result (λ t. t.items ≡ media_text number closing) }
{
    json_text(alloc, 415, b"{\"code\":\"media\"}", number, closing)
}

/// The reply to an edit whose body is no object of JSON (RFC 9110, section 15.5.1), with the number of a state.
/// `Err` only where memory is wanting.
#[tactic(auto, unfolding(crate::specs::Texts::bad_json_body))]
pub fn bad_json_text(alloc: Global, number: u64, closing: bool) -> Result<Vec<u8>, AllocError>
    ensures text { IfOk result (λ t. t.items ≡ bad_json_text number closing) }
{
    json_text(alloc, 400, b"{\"code\":\"bad-json\"}", number, closing)
}
