//! A viewer with what it may do.
ghost use Rattle.std.specs.Prelude.{◌≡◌, IfOk, map, option_copied, if◌then◌else◌};
ghost use Rattle.std.specs.List.{filter_map};
ghost use Rattle.indexed_rows.specs.Rows.{role_of};
ghost use Rattle.content_state.specs.Viewer.{present_roles as roles_present, viewer_permissions, view_grants_of, may};
ghost use Rattle.content_rows.specs.Permission.{grants_of as grants_by};
ghost use Rattle.content_rows.specs.declared.permission.ViewGrants.TheVariants as view_grants_are;
ghost use Rattle.site_access.specs.Access.{owns};
ghost use Rattle.site_access.specs.Account.{IsAccountOf, OnRows};

use crate::permission;
use crate::shared::Shared;
use cacheability::Name;
use content_rows::{Permissions, Role, User, ViewGrants};
use content_state::{State, Viewer};
use node_grants::grants_of;
use std::alloc::{AllocError, Global};
use user_roles::{has, is_permitted, permissions_of, role_names};

/// A viewer with what it is permitted and granted: made once, and asked about each thing that is to
/// be shown or edited.
#[derive(Drop)]
pub struct Account {
    /// Who views.
    pub viewer: Viewer,
    /// What the viewer is permitted.
    pub permissions: Shared<Permissions>,
    /// Whether that is to bypass access to nodes, which each decision about a node asks.
    pub bypasses: bool,
    /// Whether that is to access content, which such a decision asks next.
    pub accesses: bool,
    /// The grants by which the viewer may view nodes.
    pub grants: Shared<ViewGrants>,
}

impl Account {
    /// The account of a viewer in a state. `Err` only where memory is wanting.
    pub fn new(alloc: Global, state: &State, viewer: &Viewer) -> Result<Account, AllocError>
        ensures { IfOk result (λ account. IsAccountOf state.now.rows viewer.now account) }
    {
        let (user, _) = state.user(viewer.uid);
        let roles = present_roles(alloc, state, viewer)?;
        let permissions = permissions_of(alloc, viewer.uid, roles.as_slice())?;
        let bypasses = has(&permissions, permission::bypass_node_access());
        let accesses = has(&permissions, permission::access_content());
        let grants = grants_with(alloc, bypasses, user, roles.as_slice())?;
        Ok(Account {
            viewer: *viewer,
            bypasses,
            accesses,
            permissions: Shared::new(alloc, permissions)?,
            grants: Shared::new(alloc, grants)?,
        })
    }

    /// Whether the viewer holds a permission.
    pub fn may(&self, permission: &[u8]) -> bool
        ensures { OnRows self.now (λ rows. result ≡ may rows self.now.viewer permission.now) }
    {
        has(self.permissions.get(), permission)
    }

    /// Whether the viewer is logged in and owns what belongs to this user.
    pub fn owns(&self, uid: u32) -> bool
        ensures { result ≡ owns self.now.viewer.uid uid }
    {
        self.viewer.uid != 0 && self.viewer.uid == uid
    }
}

/// The grants by which one with this row, if there is one, and these roles may view nodes: all, where
/// access to nodes is bypassed. `Err` only where memory is wanting.
fn grants_with(
    alloc: Global,
    bypasses: bool,
    user: Option<&User>,
    roles: &[&Role],
) -> Result<ViewGrants, AllocError>
    ensures { IfOk result (λ grants. grants ≡ (if bypasses then view_grants_are.All else view_grants_are.These (grants_by (option_copied user.entry) (map (λ role. role.now) roles.now)))) }
{
    if bypasses {
        return Ok(ViewGrants::All);
    }
    Ok(ViewGrants::These(grants_of(alloc, user, roles)?))
}

/// The roles of a viewer that are there. `Err` only where memory is wanting.
fn present_roles<'a>(
    alloc: Global,
    state: &'a State,
    viewer: &Viewer,
) -> Result<Vec<&'a Role>, AllocError>
    ensures { IfOk result (λ roles. map (λ role. role.now) roles.items ≡ roles_present state.now.rows viewer.now) }
{
    let (user, _) = state.user(viewer.uid);
    let names = role_names(alloc, viewer.uid, user)?;
    roles_named(alloc, state, names.as_slice())
}

/// The roles of these names that are there. `Err` only where memory is wanting.
fn roles_named<'a>(
    alloc: Global,
    state: &'a State,
    names: &[Name],
) -> Result<Vec<&'a Role>, AllocError>
    ensures { IfOk result (λ roles. map (λ role. role.now) roles.items ≡ filter_map (role_of state.now.rows) names.now) }
{
    let mut roles = Vec::new(alloc);
    'names: for &name in names {
        let (role, _) = state.role(name);
        if let Some(role) = role {
            roles.push(role)?;
        }
    }
    Ok(roles)
}
