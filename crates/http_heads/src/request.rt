//! What a client asks.

use crate::octets::Octets;
use cacheability::Name;

/// The version of a request (RFC 9112, section 2.3).
#[derive(Clone, Copy, Debug, PartialEq, Eq)]
pub enum Version {
    /// HTTP/1.0
    Http10,
    /// HTTP/1.1
    Http11,
}

/// A whole request.
#[derive(Drop, Debug)]
pub struct Request {
    /// The method as sent, any token; its case counts (RFC 9110, section 9.1).
    pub method: Octets,
    /// The whole target as sent.
    pub target: Octets,
    /// The target up to its first `?`, percent-decoded.
    pub path: Octets,
    /// The target past its first `?` as sent; empty where it has none.
    pub query: Octets,
    pub version: Version,
    /// The connection is to close after the reply: the request is HTTP/1.0, or a Connection field
    /// lists `close`, in any case (RFC 9112, section 9.6), or parts of the page are to be sent late.
    pub closes: bool,
    /// Parts of the page are to be sent late: the method is GET, and the value of some X-Late field,
    /// which is this site's own, is `1`.
    pub late: bool,
    /// The value of the first Content-Type field.
    pub content_type: Option<Octets>,
    /// The value of the first X-CSRF-Token field.
    pub csrf: Option<Octets>,
    /// The token of the first pair `SESS=TOKEN` over all Cookie fields (RFC 6265, section 5.4);
    /// none where that token is no name.
    pub session: Option<Name>,
    /// As many bytes as the Content-Length field says; none where no such field stands.
    pub body: Octets,
}
