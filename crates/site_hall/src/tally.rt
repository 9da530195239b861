//! How often what was built was found again.

/// How often something was sought among what is kept of pages, found there, and kept there.
#[derive(Clone, Copy, Debug, PartialEq, Eq)]
pub struct Tally {
    /// How often it was looked for.
    pub looks: u64,
    /// How often it was found.
    pub found: u64,
    /// How often it was kept.
    pub kept: u64,
}
