//! Whether bytes end inside a request's target.
ghost use Rattle.std.specs.Prelude.{◌≡◌, true, false};
ghost use Rattle.httparse.specs.Grammar.{EndsInTarget};
ghost use Rattle.http_heads.specs.InTarget.{step, accepts};
ghost use Rattle.http_heads.specs.declared.in_target.Place.TheVariants as place;

use httparse::{is_method_token, is_uri_token};

/// Where in a request line bytes end (RFC 9112, section 3).
#[derive(Clone, Copy, Debug, PartialEq, Eq)]
enum Place {
    /// Before the method, at the start of a line.
    Start,
    /// After the CR of an empty line.
    AfterCr,
    /// Inside the method.
    Method,
    /// Inside the target, or right before it.
    Target,
    /// Past the target, or in no request line.
    Elsewhere,
}

/// One byte further.
fn next(place: Place, byte: u8) -> Place
    ensures { result ≡ step place byte }
{
    match place {
        Place::Start => {
            if is_method_token(byte) {
                Place::Method
            } else if byte == b'\r' {
                Place::AfterCr
            } else if byte == b'\n' {
                Place::Start
            } else {
                Place::Elsewhere
            }
        }
        Place::AfterCr => {
            if byte == b'\n' {
                Place::Start
            } else {
                Place::Elsewhere
            }
        }
        Place::Method => {
            if is_method_token(byte) {
                Place::Method
            } else if byte == b' ' {
                Place::Target
            } else {
                Place::Elsewhere
            }
        }
        Place::Target => {
            if is_uri_token(byte) {
                Place::Target
            } else {
                Place::Elsewhere
            }
        }
        Place::Elsewhere => Place::Elsewhere,
    }
}

/// Whether the bytes, read from the left, end inside a target.
fn scan(bytes: &[u8]) -> bool
    ensures { result ≡ accepts place.Start bytes.now }
{
    let mut at = Place::Start;
    'bytes: for i in 0..bytes.len() {
        at = next(at, bytes[i]);
    }
    match at {
        Place::Target => true,
        _ => false,
    }
}

/// Whether the bytes end inside a target, or right before one: empty lines, a method and a space
/// come first, and each byte of the target so far may stand in one.
pub(crate) fn ends_in_target(bytes: &[u8]) -> bool
    ensures is { result ≡ true → EndsInTarget bytes.now }
    ensures is_not { result ≡ false → ¬ (EndsInTarget bytes.now) }
{
    scan(bytes)
}
