//! What is done to an entity.

/// An operation on an entity or on a field of it.
/// <https://www.drupal.org/docs/8/api/entity-api/access-on-entities>
#[derive(Clone, Copy, Debug, PartialEq, Eq)]
pub enum Op {
    /// Sees it.
    View,
    /// Changes it.
    Update,
    /// Removes it.
    Delete,
}
