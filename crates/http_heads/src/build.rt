//! The request of a whole head and a body.
ghost use Rattle.std.specs.Prelude.{◌≡◌, ◌≤◌, IfOk, length, take, position};
ghost use Rattle.std.specs.Option.{option_map};
ghost use Rattle.percent_encoding.specs.Percent.{percent_decode};
ghost use Rattle.httparse.specs.Grammar.{RequestHead};
ghost use Rattle.httparse.specs.Spans.{IsWithin};
ghost use Rattle.http_heads.specs.Cookies.{NamesSession, token_of};
ghost use Rattle.http_heads.specs.Head.{version_of, closes_by, late_by, IsRequestOf};
ghost use Rattle.http_heads.specs.Target.{is_question, cut_before, cut_after, path_of, query_of};
ghost use Rattle.http_heads.specs.Lines.{lines, AreWithin, IsPartsOf};

use crate::fields::{asks_close, asks_late, content_type, csrf_token, session_token};
use crate::octets::Octets;
use crate::request::{Request, Version};
use cacheability::Name;
use httparse::spans::{HeaderSpan, RequestSpans};
use percent_encoding::percent_decode;
use std::alloc::{AllocError, Global};

/// Where the first question mark stands.
fn question_in(target: &[u8]) -> Option<usize>
    ensures { result ≡ position is_question target.now }
{
    target.iter().position(|b| *b == b'?')
}

/// What stands before the first question mark, or all.
fn before_question(target: &[u8]) -> &[u8]
    ensures { result.now ≡ cut_before target.now (position is_question target.now) }
{
    match question_in(target) {
        Some(i) => target.split_at(i).0,
        None => target,
    }
}

/// The path of a target.
fn path_of(alloc: Global, target: &[u8]) -> Result<Octets, AllocError>
    ensures { IfOk result (λ path. path ≡ path_of target.now) }
{
    let mut path = Vec::new(alloc);
    percent_decode(before_question(target)).append_to(&mut path)?;
    Ok(Octets::from_vec(path))
}

/// The query of a target.
fn query_of(target: &[u8]) -> &[u8]
    ensures { result.now ≡ query_of target.now }
{
    match question_in(target) {
        Some(i) => target.split_at(i + 1).1,
        None => target.split_at(target.len()).1,
    }
}

/// The version of a minor number.
fn version_of(minor: u8) -> Version
    ensures { result ≡ version_of minor }
{
    if minor == 0 {
        Version::Http10
    } else {
        Version::Http11
    }
}

/// Whether parts of the page are to be sent late.
#[tactic(auto, unfolding(crate::specs::Head::get))]
fn late(method: &[u8], bytes: &[u8], rows: &[HeaderSpan]) -> bool
    requires { AreWithin bytes.now rows.now }
    ensures { result ≡ late_by method.now (lines bytes.now rows.now) }
{
    method == b"GET".as_slice() && asks_late(bytes, rows)
}

/// Whether the connection is to close.
fn closes(minor: u8, method: &[u8], bytes: &[u8], rows: &[HeaderSpan]) -> bool
    requires { AreWithin bytes.now rows.now }
    ensures { result ≡ closes_by minor method.now (lines bytes.now rows.now) }
{
    minor == 0 || asks_close(bytes, rows) || late(method, bytes, rows)
}

/// A copy of a value, if there is one.
fn copied(alloc: Global, value: Option<&[u8]>) -> Result<Option<Octets>, AllocError>
    ensures { IfOk result (λ copy. copy ≡ option_map (λ v. v.now) value.entry) }
{
    match value {
        Some(bytes) => Ok(Some(Octets::copied(alloc, bytes)?)),
        None => Ok(None),
    }
}

/// Copies of two parts of a head.
fn both_copied(alloc: Global, first: &[u8], second: &[u8]) -> Result<(Octets, Octets), AllocError>
    ensures { IfOk result (λ copies. (copies.0 ≡ first.now) × (copies.1 ≡ second.now)) }
{
    Ok((
        Octets::copied(alloc, first)?,
        Octets::copied(alloc, second)?,
    ))
}

/// Copies of what there is of two values.
fn both_copied_if_any(
    alloc: Global,
    first: Option<&[u8]>,
    second: Option<&[u8]>,
) -> Result<(Option<Octets>, Option<Octets>), AllocError>
    ensures { IfOk result (λ copies. (copies.0 ≡ option_map (λ v. v.now) first.entry) × (copies.1 ≡ option_map (λ v. v.now) second.entry)) }
{
    Ok((copied(alloc, first)?, copied(alloc, second)?))
}

/// The session that the cookies name.
fn session_of(bytes: &[u8], rows: &[HeaderSpan]) -> Option<Name>
    requires { AreWithin bytes.now rows.now }
    ensures { NamesSession (token_of (lines bytes.now rows.now)) result }
{
    match session_token(bytes, rows) {
        Some(token) => match Name::new(token) {
            Ok(name) => Some(name),
            Err(_) => None,
        },
        None => None,
    }
}

/// The request of a head, whose parts the spans cover, and a body.
pub(crate) fn request_of(
    alloc: Global,
    bytes: &[u8],
    rows: &[HeaderSpan],
    head: &RequestSpans,
    body: &[u8],
) -> Result<Request, AllocError>
    requires method { IsWithin (length bytes.now) head.now.method }
    requires target { IsWithin (length bytes.now) head.now.path }
    requires rows { AreWithin bytes.now rows.now }
    ensures request { (h : RequestHead) → IsPartsOf bytes.now rows.now head.now h
        → IfOk result (λ r. IsRequestOf h r) }
    ensures body { IfOk result (λ r. r.body ≡ body.now) }
{
    let session = session_of(bytes, rows);
    let line = head.path.of(bytes);
    let name = head.method.of(bytes);
    let (method, body) = both_copied(alloc, name, body)?;
    let (target, query) = both_copied(alloc, line, query_of(line))?;
    let path = path_of(alloc, line)?;
    let (content_type, csrf) = both_copied_if_any(
        alloc,
        content_type(bytes, rows),
        csrf_token(bytes, rows),
    )?;
    Ok(Request {
        method,
        target,
        path,
        query,
        version: version_of(head.version),
        closes: closes(head.version, name, bytes, rows),
        late: late(name, bytes, rows),
        content_type,
        csrf,
        session,
        body,
    })
}
