//! What the roles of a user give, as values.

use crate::row::Grant;
use crate::text::{Items, Text};

/// What a viewer is permitted to do.
/// <https://www.drupal.org/docs/user_guide/en/user-concept.html>
pub enum Permissions {
    /// Everything: user 1, and every holder of a role marked admin.
    All,
    /// These permissions, in the order of their bytes, each once.
    These(Items<Text>),
}

impl Drop for Permissions {
    fn drop(self) {
        match self {
            Permissions::All => {}
            Permissions::These(_) => {}
        }
    }
}

/// Which nodes' grant records let a viewer view them.
pub enum ViewGrants {
    /// Every node: access to nodes is bypassed.
    All,
    /// These grants, in their order, each once.
    These(Items<Grant>),
}

impl Drop for ViewGrants {
    fn drop(self) {
        match self {
            ViewGrants::All => {}
            ViewGrants::These(_) => {}
        }
    }
}
