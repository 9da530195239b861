//! The head of a reply.
ghost use Rattle.std.specs.Prelude.{◌≡◌, ◌++◌, IsTrue, IfOk, OnOk, OnErr, decimal};
ghost use Rattle.http_heads.specs.Reply.{is_reply_status, phrase_of, line_end, version_mark, space, set_mark, set_end, number_text, status_text, media_text, length_text, location_text, cookie_text, allow_text, state_text, close_text, head_text};

use cacheability::Name;
use http::StatusCode;
use itoa::Buffer;
use std::alloc::{AllocError, Global};

/// What the body of a reply is.
#[derive(Clone, Copy, Debug, PartialEq, Eq)]
pub enum Media {
    /// `text/html; charset=UTF-8`
    Html,
    /// `application/json`
    Json,
}

/// What a reply does to the session's cookie (RFC 6265, section 4.1).
#[derive(Clone, Copy, Debug)]
pub enum CookieOut {
    /// Leaves it.
    Nothing,
    /// Sets it to a token.
    Set(Name),
    /// Has the client forget it.
    Clear,
}

/// The head of a reply: its status, and its fields in the order in which they are written. A field
/// that is `None`, `Nothing` or false is left out.
#[derive(Clone, Copy, Debug)]
pub struct ReplyHead {
    /// The status code.
    pub status: u16,
    /// Content-Type.
    pub media: Media,
    /// Content-Length, in bytes.
    pub length: Option<u128>,
    /// Location: the page of the user of this number.
    pub location: Option<u32>,
    /// Set-Cookie.
    pub cookie: CookieOut,
    /// Allow: the methods that are served.
    pub allow: bool,
    /// X-Site-State: the number of the state that is answered.
    pub state: Option<u64>,
    /// Connection: close.
    pub close: bool,
}

/// Whether a status is one that replies have: 200, 201, 303, 400, 403, 404, 405, 409, 413, 415,
/// 422, 431, 501, 503 or 507.
pub fn is_reply_status(status: u16) -> bool
    ensures { result ≡ is_reply_status status }
{
    matches!(
        status,
        200 | 201 | 303 | 400 | 403 | 404 | 405 | 409 | 413 | 415 | 422 | 431 | 501 | 503 | 507
    )
}

/// The phrase of a status (RFC 9110, section 15).
fn phrase(status: u16) -> &'static str
    requires { IsTrue (is_reply_status status) }
    ensures { result.now ≡ phrase_of status }
{
    match StatusCode::from_u16(status) {
        Ok(code) => code.canonical_reason().unwrap_or(""),
        Err(_) => unreachable!(),
    }
}

/// Appends a line end.
#[tactic(auto, unfolding(crate::specs::Reply::line_end))]
fn put_line_end(out: &mut Vec<u8>) -> Result<(), AllocError>
    ensures { OnOk result (out.new.items ≡ out.old.items ++ line_end) }
{
    out.extend_from_slice(b"\r\n")
}

/// Appends a number.
fn put_decimal(out: &mut Vec<u8>, number: u128) -> Result<(), AllocError>
    ensures { OnOk result (out.new.items ≡ out.old.items ++ decimal number) }
{
    let mut room = Buffer::new();
    out.extend_from_slice(room.format(number).as_bytes())
}

/// Appends the version and the space after it.
#[tactic(auto, unfolding(crate::specs::Reply::version_mark))]
fn put_version(out: &mut Vec<u8>) -> Result<(), AllocError>
    ensures { OnOk result (out.new.items ≡ out.old.items ++ version_mark) }
{
    out.extend_from_slice(b"HTTP/1.1 ")
}

/// Appends a space.
#[tactic(auto, unfolding(crate::specs::Reply::space))]
fn put_space(out: &mut Vec<u8>) -> Result<(), AllocError>
    ensures { OnOk result (out.new.items ≡ out.old.items ++ space) }
{
    out.extend_from_slice(b" ")
}

/// Appends the status line.
fn put_status(out: &mut Vec<u8>, status: u16) -> Result<(), AllocError>
    requires { IsTrue (is_reply_status status) }
    ensures { OnOk result (out.new.items ≡ out.old.items ++ status_text status) }
{
    put_version(out)?;
    put_decimal(out, u128::from(status))?;
    put_space(out)?;
    out.extend_from_slice(phrase(status).as_bytes())?;
    put_line_end(out)?;
    Ok(())
}

/// Appends a line of a field whose value ends in a number.
fn put_number(out: &mut Vec<u8>, mark: &[u8], number: u128) -> Result<(), AllocError>
    ensures { OnOk result (out.new.items ≡ out.old.items ++ number_text mark.now number) }
{
    out.extend_from_slice(mark)?;
    put_decimal(out, number)?;
    put_line_end(out)?;
    Ok(())
}

/// Appends Content-Type.
#[tactic(auto, unfolding(crate::specs::Reply::html_line, crate::specs::Reply::json_line))]
fn put_media(out: &mut Vec<u8>, media: Media) -> Result<(), AllocError>
    ensures { OnOk result (out.new.items ≡ out.old.items ++ media_text media) }
{
    match media {
        Media::Html => out.extend_from_slice(b"Content-Type: text/html; charset=UTF-8\r\n"),
        Media::Json => out.extend_from_slice(b"Content-Type: application/json\r\n"),
    }
}

/// Appends Content-Length.
#[tactic(auto, unfolding(crate::specs::Reply::length_mark))]
fn put_length(out: &mut Vec<u8>, length: Option<u128>) -> Result<(), AllocError>
    ensures { OnOk result (out.new.items ≡ out.old.items ++ length_text length) }
{
    match length {
        Some(number) => put_number(out, b"Content-Length: ", number),
        None => Ok(()),
    }
}

/// Appends Location.
#[tactic(auto, unfolding(crate::specs::Reply::location_mark))]
fn put_location(out: &mut Vec<u8>, location: Option<u32>) -> Result<(), AllocError>
    ensures { OnOk result (out.new.items ≡ out.old.items ++ location_text location) }
{
    match location {
        Some(user) => put_number(out, b"Location: /user/", u128::from(user)),
        None => Ok(()),
    }
}

/// Appends what stands before the token of a cookie that is set.
#[tactic(auto, unfolding(crate::specs::Reply::set_mark))]
fn put_set_mark(out: &mut Vec<u8>) -> Result<(), AllocError>
    ensures { OnOk result (out.new.items ≡ out.old.items ++ set_mark) }
{
    out.extend_from_slice(b"Set-Cookie: SESS=")
}

/// Appends what stands after the token of a cookie that is set.
#[tactic(auto, unfolding(crate::specs::Reply::set_end))]
fn put_set_end(out: &mut Vec<u8>) -> Result<(), AllocError>
    ensures { OnOk result (out.new.items ≡ out.old.items ++ set_end) }
{
    out.extend_from_slice(b"; Path=/; HttpOnly; SameSite=Lax\r\n")
}

/// Appends what sets the cookie to a token.
fn put_token(out: &mut Vec<u8>, token: &Name) -> Result<(), AllocError>
    ensures { OnOk result (out.new.items ≡ out.old.items ++ (set_mark ++ token.now ++ set_end)) }
{
    put_set_mark(out)?;
    out.extend_from_slice(token.as_bytes())?;
    put_set_end(out)?;
    Ok(())
}

/// Appends Set-Cookie.
#[tactic(auto, unfolding(crate::specs::Reply::clear_line))]
fn put_cookie(out: &mut Vec<u8>, cookie: CookieOut) -> Result<(), AllocError>
    ensures { OnOk result (out.new.items ≡ out.old.items ++ cookie_text cookie) }
{
    match cookie {
        CookieOut::Nothing => Ok(()),
        CookieOut::Set(token) => put_token(out, &token),
        CookieOut::Clear => out.extend_from_slice(b"Set-Cookie: SESS=; Path=/; Max-Age=0\r\n"),
    }
}

/// Appends Allow.
#[tactic(auto, unfolding(crate::specs::Reply::allow_line))]
fn put_allow(out: &mut Vec<u8>, allow: bool) -> Result<(), AllocError>
    ensures { OnOk result (out.new.items ≡ out.old.items ++ allow_text allow) }
{
    if allow {
        out.extend_from_slice(b"Allow: GET, POST, PATCH, DELETE\r\n")
    } else {
        Ok(())
    }
}

/// Appends X-Site-State.
#[tactic(auto, unfolding(crate::specs::Reply::state_mark))]
fn put_state(out: &mut Vec<u8>, state: Option<u64>) -> Result<(), AllocError>
    ensures { OnOk result (out.new.items ≡ out.old.items ++ state_text state) }
{
    match state {
        Some(number) => put_number(out, b"X-Site-State: ", u128::from(number)),
        None => Ok(()),
    }
}

/// Appends Connection.
#[tactic(auto, unfolding(crate::specs::Reply::close_line))]
fn put_close(out: &mut Vec<u8>, close: bool) -> Result<(), AllocError>
    ensures { OnOk result (out.new.items ≡ out.old.items ++ close_text close) }
{
    if close {
        out.extend_from_slice(b"Connection: close\r\n")
    } else {
        Ok(())
    }
}

/// More bytes than most heads have.
const ROOM: usize = 320;

/// The text of a reply's head.
#[tactic(auto, unfolding(crate::specs::Reply::head_text))]
fn head_of(alloc: Global, head: &ReplyHead) -> Result<Vec<u8>, AllocError>
    requires { IsTrue (is_reply_status head.now.status) }
    ensures { IfOk result (λ text. text.items ≡ head_text head.now) }
{
    let mut text = Vec::with_capacity(alloc, ROOM)?;
    let out = &mut text;
    put_status(out, head.status)?;
    put_media(out, head.media)?;
    put_length(out, head.length)?;
    put_location(out, head.location)?;
    put_cookie(out, head.cookie)?;
    put_allow(out, head.allow)?;
    put_state(out, head.state)?;
    put_close(out, head.close)?;
    put_line_end(out)?;
    Ok(text)
}

/// Appends the text of a reply's head, its empty line included (RFC 9112, section 4). The error is
/// want of memory alone, and then `out` is as it was.
pub fn reply_head(alloc: Global, out: &mut Vec<u8>, head: &ReplyHead) -> Result<(), AllocError>
    requires { IsTrue (is_reply_status head.now.status) }
    ensures ok { OnOk result (out.new.items ≡ out.old.items ++ head_text head.now) }
    ensures err { OnErr result (out.new.items ≡ out.old.items) }
{
    let text = head_of(alloc, head)?;
    out.extend_from_slice(&text)
}
