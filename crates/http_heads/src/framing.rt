//! What is made of a whole head: the length of its body, or the code that refuses it.
ghost use Rattle.std.specs.Prelude.{◌≡◌, ◌≤◌, IsTrue, length, nat_lt};
ghost use Rattle.std.specs.List.{list_all};
ghost use Rattle.std.specs.Char.{is_ascii_digit};
ghost use Rattle.std.specs.Str.Parse.{digits_value};
ghost use Rattle.http_heads.specs.Framing.{field_limit, body_limit, is_length, value_length, body_length, begins_slash, sized, judged_parts};
ghost use Rattle.http_heads.specs.Lines.{lines, AreWithin};

use crate::fields::{count_lengths, first_length, has_coding};
use httparse::spans::HeaderSpan;

/// Whether each byte is a digit.
fn are_digits(value: &[u8]) -> bool
    ensures { result ≡ list_all is_ascii_digit value.now }
{
    value.iter().all(|b| b.is_ascii_digit())
}

/// Whether a value is 1 to 10 digits.
fn is_length(value: &[u8]) -> bool
    ensures { result ≡ is_length value.now }
{
    !value.is_empty() && value.len() <= 10 && are_digits(value)
}

/// The number that at most 10 digits write.
fn number(value: &[u8]) -> u64
    requires short { length value.now ≤ 10 }
    requires digits { IsTrue (list_all is_ascii_digit value.now) }
    ensures { result ≡ digits_value 10 value.now }
{
    let mut n: u64 = 0;
    'digits: for b in value {
        n = n * 10 + u64::from(*b - b'0');
    }
    n
}

/// The number of a Content-Length field's value.
fn value_length(value: &[u8]) -> Option<u64>
    ensures { result ≡ value_length value.now }
{
    if is_length(value) {
        Some(number(value))
    } else {
        None
    }
}

/// The length of the body; none where it is ill-formed or stands more than once.
fn body_length(bytes: &[u8], rows: &[HeaderSpan]) -> Option<u64>
    requires { AreWithin bytes.now rows.now }
    ensures { result ≡ body_length (lines bytes.now rows.now) }
{
    if 1 < count_lengths(bytes, rows) {
        return None;
    }
    match first_length(bytes, rows) {
        Some(value) => value_length(value),
        None => Some(0),
    }
}

/// Whether there are too many fields.
#[tactic(auto, unfolding(crate::specs::Framing::field_limit))]
fn are_too_many(rows: &[HeaderSpan]) -> bool
    ensures { result ≡ nat_lt field_limit (length rows.now) }
{
    64 < rows.len()
}

/// Whether a body is too large.
#[tactic(auto, unfolding(crate::specs::Framing::body_limit))]
fn is_too_large(length: u64) -> bool
    ensures { result ≡ nat_lt body_limit length }
{
    1_048_576 < length
}

/// Whether the first byte is `/`.
fn begins_slash(target: &[u8]) -> bool
    ensures { result ≡ begins_slash target.now }
{
    match target {
        [] => false,
        [b, ..] => *b == b'/',
    }
}

/// The length of the body, or the code, of a length and a target.
fn sized(length: Option<u64>, target: &[u8]) -> Result<u64, u16>
    ensures { result ≡ sized length target.now }
{
    match length {
        None => Err(400),
        Some(n) => {
            if is_too_large(n) {
                Err(413)
            } else if begins_slash(target) {
                Ok(n)
            } else {
                Err(400)
            }
        }
    }
}

/// The length of the body, or the code that refuses the head: 431 for more than 64 fields, 501 for
/// a coding, 400 for an ill-formed or repeated length, 413 for a body past 1,048,576 bytes, 400 for
/// a target that doesn't begin with `/`.
pub(crate) fn judged(bytes: &[u8], rows: &[HeaderSpan], target: &[u8]) -> Result<u64, u16>
    requires { AreWithin bytes.now rows.now }
    ensures { result ≡ judged_parts (lines bytes.now rows.now) target.now }
{
    if are_too_many(rows) {
        return Err(431);
    }
    if has_coding(bytes, rows) {
        return Err(501);
    }
    sized(body_length(bytes, rows), target)
}
