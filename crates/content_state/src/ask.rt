//! What is asked, and by whom.

use cacheability::Name;
use content_rows::Text;

/// What a request asks for.
#[derive(Debug)]
pub struct Ask {
    /// The whole target, as it was sent (RFC 9112, section 3.2).
    pub target: Text,
    /// The target's path, percent-decoded (RFC 3986, section 3.3).
    pub path: Text,
    /// The target's query, as it was sent; empty where there is none (RFC 3986, section 3.4).
    pub query: Text,
    /// The token of the session cookie, where one was sent (RFC 6265, section 4.2).
    pub cookie: Option<Name>,
}

impl Drop for Ask {
    fn drop(self) {
        let Ask {
            target: _,
            path: _,
            query: _,
            cookie: _,
        } = self;
    }
}

/// Who views: a user by its id, 0 for nobody, and the live session by which the user is known.
#[derive(Clone, Copy, Debug)]
pub struct Viewer {
    pub uid: u32,
    pub session: Option<Name>,
}
