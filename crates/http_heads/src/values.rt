//! The parts of a field's value.
ghost use Rattle.std.specs.Prelude.{◌≡◌, reverse, IsTrue, length, ◌≤◌, drop};
ghost use Rattle.std.specs.Option.{option_map};
ghost use Rattle.httparse.specs.Grammar.{skip_ows, trim_ows};
ghost use Rattle.http_heads.specs.Cookies.{session_mark, is_session_pair, session_pair, token_in};
ghost use Rattle.http_heads.specs.Fields.{close, is_close, lists_close};

use crate::fields::same_name;
use httparse::is_space_or_tab;

/// The bytes from the first that is no space or tab.
fn trim_start(mut bytes: &[u8]) -> &[u8]
    ensures { result.now ≡ skip_ows bytes.now }
{
    while let [first, rest @ ..] = bytes
        && is_space_or_tab(*first)
    {
        bytes = rest;
    }
    bytes
}

/// The bytes up to the last that is no space or tab.
fn trim_end(mut bytes: &[u8]) -> &[u8]
    ensures { result.now ≡ reverse (skip_ows (reverse bytes.now)) }
{
    while let [rest @ .., last] = bytes
        && is_space_or_tab(*last)
    {
        bytes = rest;
    }
    bytes
}

/// The bytes without the spaces and tabs at both ends.
#[tactic(auto, unfolding(httparse::specs::Grammar::trim_ows))]
pub(crate) fn trim_ows(bytes: &[u8]) -> &[u8]
    ensures { result.now ≡ trim_ows bytes.now }
{
    trim_end(trim_start(bytes))
}

/// Whether an element is the option `close`, in any case.
#[tactic(auto, unfolding(crate::specs::Fields::close))]
fn is_close(element: &[u8]) -> bool
    ensures { result ≡ is_close element.now }
{
    same_name(trim_ows(element), b"close")
}

/// Whether a value lists the option `close`.
pub(crate) fn lists_close(value: &[u8]) -> bool
    ensures { result ≡ lists_close value.now }
{
    value.split(|b| *b == b',').any(|element| is_close(element))
}

/// Whether the cookie of a pair is named `SESS`.
#[tactic(auto, unfolding(crate::specs::Cookies::session_mark))]
fn is_session_pair(pair: &[u8]) -> bool
    ensures { result ≡ is_session_pair pair.now }
{
    trim_ows(pair).starts_with(b"SESS=")
}

/// The first session pair of a Cookie field's value.
fn session_pair(value: &[u8]) -> Option<&[u8]>
    ensures { option_map (λ p. p.now) result ≡ session_pair value.now }
{
    value
        .split(|b| *b == b';')
        .find(|pair| is_session_pair(pair))
}

/// The bytes past the first five.
fn past_five(bytes: &[u8]) -> &[u8]
    ensures { result.now ≡ drop 5 bytes.now }
{
    match bytes {
        [_, _, _, _, _, rest @ ..] => rest,
        _ => bytes.split_at(bytes.len()).1,
    }
}

/// The token of the first session pair of a Cookie field's value.
pub(crate) fn token_in(value: &[u8]) -> Option<&[u8]>
    ensures { option_map (λ t. t.now) result ≡ token_in value.now }
{
    match session_pair(value) {
        Some(pair) => Some(past_five(trim_ows(pair))),
        None => None,
    }
}
