//! What a request for a target asks for.
ghost use Rattle.std.specs.Prelude.{◌≡◌, IfOk, position};
ghost use Rattle.percent_encoding.specs.Percent.{percent_decode};
ghost use Rattle.content_state.specs.Ask.{is_question, cut_before, query_of};
ghost use Rattle.warm_pages.specs.Asked.{asked};

use content_rows::{Duplicate, Text};
use content_state::Ask;
use percent_encoding::percent_decode;
use std::alloc::{AllocError, Global};

/// Where the first question mark stands.
fn question_in(target: &[u8]) -> Option<usize>
    ensures { result ≡ position is_question target.now }
{
    target.iter().position(|b| *b == b'?')
}

/// A target's path, still encoded, and its query, empty where it has none (RFC 3986, sections 3.3 and 3.4).
fn cut(target: &[u8]) -> (&[u8], &[u8])
    ensures path { result.0.now ≡ cut_before target.now (position is_question target.now) }
    ensures query { result.1.now ≡ query_of target.now }
{
    match question_in(target) {
        Some(i) => (target.split_at(i).0, target.split_at(i + 1).1),
        None => target.split_at(target.len()),
    }
}

/// What percent-encoded bytes stand for (RFC 3986, section 2.1).
fn decoded(alloc: Global, bytes: &[u8]) -> Result<Text, AllocError>
    ensures { IfOk result (λ text. text ≡ percent_decode bytes.now) }
{
    let mut text = Vec::new(alloc);
    percent_decode(bytes).append_to(&mut text)?;
    Ok(Text::from_vec(text))
}

/// What a request for a target asks for that sends no cookie. Each text is the target of one. `Err` only where memory is wanting.
pub fn asked(alloc: Global, target: &Text) -> Result<Ask, AllocError>
    ensures { IfOk result (λ ask. ask ≡ asked target.now) }
{
    let (path, query) = cut(target.as_slice());
    Ok(Ask {
        target: target.duplicate(alloc)?,
        path: decoded(alloc, path)?,
        query: Text::copied(alloc, query)?,
        cookie: None,
    })
}
