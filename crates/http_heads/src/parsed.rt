//! What bytes begin with.

use crate::request::Request;

/// What the bytes of a connection begin with.
#[derive(Drop, Debug)]
pub enum Parsed {
    /// A whole request, and how many bytes it takes, head and body.
    Whole(Request, usize),
    /// A part of a request, or nothing: more bytes are wanted.
    More,
    /// No request that is served. The code is the status of the answer, after which the
    /// connection closes: 400, 413, 431 or 501.
    Refused(u16),
}
