//! What a requester asks for.
ghost use Rattle.std.specs.Prelude.{◌≡◌, IfOk, IfSome, position};
ghost use Rattle.percent_encoding.specs.Percent.{percent_decode};
ghost use Rattle.content_rows.specs.Kinds.{IsMoment};
ghost use Rattle.content_state.specs.Ask.{IsAsk, is_question, cut_before, query_of};

use crate::rehearsals::fault::Fault;
use cacheability::Name;
use case_files::number;
use content_rows::Text;
use content_state::Ask;
use percent_encoding::percent_decode;
use std::alloc::{AllocError, Global};

/// The first second of 2100, past which no moment is.
const LAST_MOMENT: u64 = 4_102_444_800;

/// The moment that these digits are.
pub fn moment(digits: &[u8]) -> Result<u64, Fault>
    ensures { IfOk result IsMoment }
{
    match number(digits) {
        Some(moment) if moment <= LAST_MOMENT => Ok(moment),
        _ => Err(Fault::Moment),
    }
}

/// The name that these bytes are.
pub fn name(bytes: &[u8]) -> Result<Name, Fault> {
    match Name::new(bytes) {
        Ok(name) => Ok(name),
        Err(_) => Err(Fault::Name),
    }
}

/// Where the first question mark stands.
fn question_in(target: &[u8]) -> Option<usize>
    ensures { result ≡ position is_question target.now }
{
    target.iter().position(|b| *b == b'?')
}

/// A target's path, still encoded, and its query, empty where it has none (RFC 3986, sections 3.3 and 3.4).
fn cut(target: &[u8]) -> (&[u8], &[u8])
    ensures path { result.0.now ≡ cut_before target.now (position is_question target.now) }
    ensures query { result.1.now ≡ query_of target.now }
{
    match question_in(target) {
        Some(i) => (target.split_at(i).0, target.split_at(i + 1).1),
        None => target.split_at(target.len()),
    }
}

/// What percent-encoded bytes stand for (RFC 3986, section 2.1).
pub fn decoded(alloc: Global, bytes: &[u8]) -> Result<Text, AllocError>
    ensures { IfOk result (λ text. text ≡ percent_decode bytes.now) }
{
    let mut text = Vec::new(alloc);
    percent_decode(bytes).append_to(&mut text)?;
    Ok(Text::from_vec(text))
}

/// What a request for a target with this session asks for.
pub fn ask(alloc: Global, target: &[u8], session: Name) -> Result<Ask, AllocError>
    ensures { IfOk result IsAsk }
{
    let (path, query) = cut(target);
    Ok(Ask {
        target: Text::copied(alloc, target)?,
        path: decoded(alloc, path)?,
        query: Text::copied(alloc, query)?,
        cookie: Some(session),
    })
}
