//! What building an element gives.

use cacheability::Cacheability;
use content_rows::Items;
use content_state::{Hole, Library};
use html_out::Segments;

/// What building an element gives.
#[derive(Drop)]
pub struct Built {
    /// What is shown: bytes, and places that are filled in later.
    pub segments: Segments<Hole>,
    /// The tags and the contexts that it depends on, and how long it may be kept: just those that were met.
    pub cacheability: Cacheability,
    /// The libraries that were attached, in that order, with repetitions.
    pub libraries: Items<Library>,
    /// The last moment at which it may be shown, in seconds since 1970.
    pub last: u64,
    /// The status of a page's reply (RFC 9110, section 15); none for what is no page.
    pub status: Option<u16>,
}
