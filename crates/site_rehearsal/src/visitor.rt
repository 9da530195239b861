//! Who visits a page.

use content_state::{Ask, State, Viewer};

/// Who visits a page: on which state, who views it and asks for what, and when, in seconds since 1970.
#[derive(Clone, Copy)]
pub(crate) struct Visitor<'a> {
    pub(crate) state: &'a State,
    pub(crate) viewer: &'a Viewer,
    pub(crate) ask: &'a Ask,
    pub(crate) moment: u64,
}
