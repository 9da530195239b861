//! What can be built.

use content_state::Fragment;

/// What can be built.
#[derive(Clone, Copy, Debug)]
pub enum Element {
    /// The page of the path that is asked for.
    Page,
    /// A fragment; nothing where what it shows isn't there or may not be viewed.
    Fragment(Fragment),
}
