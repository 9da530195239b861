//! The values of a query.
ghost use Rattle.std.specs.Prelude.{◌≡◌, [], ◌∷◌, IfOk, option_map, map};
ghost use Rattle.std.specs.Option.{MatchOption};
ghost use Rattle.std.specs.Str.{bytes_eq};
ghost use Rattle.form_urlencoded.specs.Form.{decode, plus_to_space};
ghost use Rattle.percent_encoding.specs.Percent.{KeepsFirst};
ghost use Rattle.site_lists.specs.Paging.{value_in};

use form_urlencoded::raw_pairs;
use std::alloc::{AllocError, Global};

/// The first value of a name in a query, decoded, if there is one. `Err` only where memory is
/// wanting.
/// <https://url.spec.whatwg.org/#application/x-www-form-urlencoded>
pub fn query_value(alloc: Global, query: &[u8], name: &[u8]) -> Result<Option<Vec<u8>>, AllocError>
    ensures { IfOk result (λ value. option_map (λ v. v.items) value ≡ value_in query.now name.now) }
{
    'pairs: for (own, value) in raw_pairs(query) {
        if is_named(own, name) {
            return Ok(Some(decoded(alloc, value)?));
        }
    }
    Ok(None)
}

/// Whether an encoded name is this one. It is decoded byte by byte, up to the first that differs.
fn is_named(own: &[u8], name: &[u8]) -> bool
    ensures { result ≡ bytes_eq name.now (decode own.now) }
{
    let mut left = own;
    'name: for wanted in name {
        let Some((byte, rest)) = first_decoded(left) else {
            return false;
        };
        if byte != *wanted {
            return false;
        }
        left = rest;
    }
    left.is_empty()
}

/// The first byte that an encoded text stands for, and the text after it. `None` where there is
/// none.
fn first_decoded(text: &[u8]) -> Option<(u8, &[u8])>
    ensures { MatchOption result (text.now ≡ []) (λ first. decode text.now ≡ first.0 ∷ decode first.1.now) }
{
    if let Some(escaped) = first_escaped(text) {
        return Some(escaped);
    }
    let (byte, rest) = text.split_first()?;
    Some((with_space(*byte), rest))
}

/// The byte of the escape that a text begins with, and the text after it. `None` where it begins
/// with no escape.
fn first_escaped(text: &[u8]) -> Option<(u8, &[u8])>
    ensures { MatchOption result (KeepsFirst (map plus_to_space text.now))
        (λ first. decode text.now ≡ first.0 ∷ decode first.1.now) }
{
    let [b'%', high, low, rest @ ..] = text else {
        return None;
    };
    let high = char::from(*high).to_digit(16)?;
    let low = char::from(*low).to_digit(16)?;
    Some((high as u8 * 16 + low as u8, rest))
}

/// A space for a `+`, and any other byte as it is.
fn with_space(byte: u8) -> u8
    ensures { result ≡ plus_to_space byte }
{
    if byte == b'+' { b' ' } else { byte }
}

/// What an encoded name or value stands for.
fn decoded(alloc: Global, bytes: &[u8]) -> Result<Vec<u8>, AllocError>
    ensures { IfOk result (λ v. v.items ≡ decode bytes.now) }
{
    let mut out = Vec::new(alloc);
    let mut left = bytes;
    'bytes: while let Some((byte, rest)) = first_decoded(left) {
        out.push(byte)?;
        left = rest;
    }
    Ok(out)
}
