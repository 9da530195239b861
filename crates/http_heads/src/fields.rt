//! The fields of a head, by the spans that cover them.
ghost use Rattle.std.specs.Prelude.{◌≡◌, ◌<◌, ◌≤◌, length, count_by, map};
ghost use Rattle.std.specs.Option.{option_map};
ghost use Rattle.std.specs.Str.{str_eq_ignore_ascii_case};
ghost use Rattle.httparse.specs.Spans.{header_bytes, IsHeaderWithin};
ghost use Rattle.http_heads.specs.Fields.{is_named, stands, first_value, is_closing, asks_close, is_late, asks_late, connection, cookie, content_length, transfer_encoding, content_type, csrf_token};
ghost use Rattle.http_heads.specs.Cookies.{field_token, token_of};
ghost use Rattle.http_heads.specs.Lines.{lines, AreWithin};

use crate::values::{lists_close, token_in};
use httparse::spans::HeaderSpan;

/// Whether two names or options are equal but for ASCII case.
pub(crate) fn same_name(a: &[u8], b: &[u8]) -> bool
    ensures { result ≡ str_eq_ignore_ascii_case a.now b.now }
{
    a.eq_ignore_ascii_case(b)
}

/// Whether a field has the name.
pub(crate) fn is_named(bytes: &[u8], row: HeaderSpan, name: &[u8]) -> bool
    requires { IsHeaderWithin (length bytes.now) row }
    ensures { result ≡ is_named name.now (header_bytes bytes.now row) }
{
    same_name(row.name.of(bytes), name)
}

/// Whether a field of the name stands.
pub(crate) fn stands(bytes: &[u8], rows: &[HeaderSpan], name: &[u8]) -> bool
    requires { AreWithin bytes.now rows.now }
    ensures { result ≡ stands name.now (lines bytes.now rows.now) }
{
    'rows: for row in rows {
        if is_named(bytes, *row, name) {
            return true;
        }
    }
    false
}

/// How many fields have the name.
pub(crate) fn count_named(bytes: &[u8], rows: &[HeaderSpan], name: &[u8]) -> usize
    requires { AreWithin bytes.now rows.now }
    ensures { result ≡ count_by (is_named name.now) (lines bytes.now rows.now) }
{
    let mut count = 0;
    'rows: for row in rows {
        if is_named(bytes, *row, name) {
            count += 1;
        }
    }
    count
}

/// The value of the first field of the name.
pub(crate) fn first_value<'b>(bytes: &'b [u8], rows: &[HeaderSpan], name: &[u8]) -> Option<&'b [u8]>
    requires { AreWithin bytes.now rows.now }
    ensures { option_map (λ v. v.now) result ≡ first_value name.now (lines bytes.now rows.now) }
{
    'rows: for row in rows {
        if is_named(bytes, *row, name) {
            return Some(row.value.of(bytes));
        }
    }
    None
}

/// Whether a field is a Connection field that lists `close`.
#[tactic(auto, unfolding(crate::specs::Fields::connection))]
fn is_closing(bytes: &[u8], row: HeaderSpan) -> bool
    requires { IsHeaderWithin (length bytes.now) row }
    ensures { result ≡ is_closing (header_bytes bytes.now row) }
{
    is_named(bytes, row, b"Connection") && lists_close(row.value.of(bytes))
}

/// Whether some Connection field lists `close`.
pub(crate) fn asks_close(bytes: &[u8], rows: &[HeaderSpan]) -> bool
    requires { AreWithin bytes.now rows.now }
    ensures { result ≡ asks_close (lines bytes.now rows.now) }
{
    'rows: for row in rows {
        if is_closing(bytes, *row) {
            return true;
        }
    }
    false
}

/// Whether a field is an X-Late field whose value is `1`.
#[tactic(auto, unfolding(crate::specs::Fields::late, crate::specs::Fields::late_value))]
fn is_late(bytes: &[u8], row: HeaderSpan) -> bool
    requires { IsHeaderWithin (length bytes.now) row }
    ensures { result ≡ is_late (header_bytes bytes.now row) }
{
    is_named(bytes, row, b"X-Late") && row.value.of(bytes) == b"1".as_slice()
}

/// Whether the value of some X-Late field is `1`.
pub(crate) fn asks_late(bytes: &[u8], rows: &[HeaderSpan]) -> bool
    requires { AreWithin bytes.now rows.now }
    ensures { result ≡ asks_late (lines bytes.now rows.now) }
{
    'rows: for row in rows {
        if is_late(bytes, *row) {
            return true;
        }
    }
    false
}

/// The session token of one field, if it is a Cookie field that has one.
#[tactic(auto, unfolding(crate::specs::Fields::cookie))]
fn field_token(bytes: &[u8], row: HeaderSpan) -> Option<&[u8]>
    requires { IsHeaderWithin (length bytes.now) row }
    ensures { option_map (λ t. t.now) result ≡ field_token (header_bytes bytes.now row) }
{
    if is_named(bytes, row, b"Cookie") {
        token_in(row.value.of(bytes))
    } else {
        None
    }
}

/// The first session token over all Cookie fields.
pub(crate) fn session_token<'b>(bytes: &'b [u8], rows: &[HeaderSpan]) -> Option<&'b [u8]>
    requires { AreWithin bytes.now rows.now }
    ensures { option_map (λ t. t.now) result ≡ token_of (lines bytes.now rows.now) }
{
    'rows: for row in rows {
        if let Some(token) = field_token(bytes, *row) {
            return Some(token);
        }
    }
    None
}

/// How many Content-Length fields stand.
#[tactic(auto, unfolding(crate::specs::Fields::content_length))]
pub(crate) fn count_lengths(bytes: &[u8], rows: &[HeaderSpan]) -> usize
    requires { AreWithin bytes.now rows.now }
    ensures { result ≡ count_by (is_named content_length) (lines bytes.now rows.now) }
{
    count_named(bytes, rows, b"Content-Length")
}

/// The value of the first Content-Length field.
#[tactic(auto, unfolding(crate::specs::Fields::content_length))]
pub(crate) fn first_length<'b>(bytes: &'b [u8], rows: &[HeaderSpan]) -> Option<&'b [u8]>
    requires { AreWithin bytes.now rows.now }
    ensures { option_map (λ v. v.now) result ≡ first_value content_length (lines bytes.now rows.now) }
{
    first_value(bytes, rows, b"Content-Length")
}

/// Whether a Transfer-Encoding field stands.
#[tactic(auto, unfolding(crate::specs::Fields::transfer_encoding))]
pub(crate) fn has_coding(bytes: &[u8], rows: &[HeaderSpan]) -> bool
    requires { AreWithin bytes.now rows.now }
    ensures { result ≡ stands transfer_encoding (lines bytes.now rows.now) }
{
    stands(bytes, rows, b"Transfer-Encoding")
}

/// The value of the first Content-Type field.
#[tactic(auto, unfolding(crate::specs::Fields::content_type))]
pub(crate) fn content_type<'b>(bytes: &'b [u8], rows: &[HeaderSpan]) -> Option<&'b [u8]>
    requires { AreWithin bytes.now rows.now }
    ensures { option_map (λ v. v.now) result ≡ first_value content_type (lines bytes.now rows.now) }
{
    first_value(bytes, rows, b"Content-Type")
}

/// The value of the first X-CSRF-Token field.
#[tactic(auto, unfolding(crate::specs::Fields::csrf_token))]
pub(crate) fn csrf_token<'b>(bytes: &'b [u8], rows: &[HeaderSpan]) -> Option<&'b [u8]>
    requires { AreWithin bytes.now rows.now }
    ensures { option_map (λ v. v.now) result ≡ first_value csrf_token (lines bytes.now rows.now) }
{
    first_value(bytes, rows, b"X-CSRF-Token")
}
