//! What lies in a bin, and what is found there.

use crate::entry::Entry;
use cacheability::{Context, OrderedSet};
use std::sync::Arc;

/// The bins: one for parts of pages, one for pages by their paths, and one for whole pages by their targets, of those who
/// have no session.
/// <https://www.drupal.org/docs/drupal-apis/cache-api/cache-api>
#[derive(Clone, Copy, Debug, PartialEq, Eq)]
pub enum Bin {
    Fragments,
    Dynamic,
    Anonymous,
}

/// What a bin keeps under a key: an entry, or a redirect to another key.
#[derive(Drop)]
pub enum Kept {
    /// What is shown.
    Entry(Arc<Entry>),
    /// That it stands under another key: the one with the values of these contexts.
    Redirect(Arc<OrderedSet<Context>>),
}

/// What a look into a bin finds under a key: an entry, a redirect to another key, or nothing.
#[derive(Drop)]
pub enum Found {
    /// What is shown, if it is fresh.
    Entry(Arc<Entry>),
    /// That it stands under another key: the one with the values of these contexts.
    Redirect(Arc<OrderedSet<Context>>),
    /// Nothing.
    Absent,
}
