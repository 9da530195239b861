//! Decisions about access, noted in what is being put together: no result is made of them, and what
//! they depend on goes straight to the rest.
ghost use Rattle.std.specs.Prelude.{◌≡◌, IfOk, OnOk, IsSome, is_some};
ghost use Rattle.access_result.specs.declared.reason.Reason.TheVariants as reason_is;
ghost use Rattle.cacheability.specs.Cacheability.{merged};
ghost use Rattle.indexed_rows.specs.Rows.{node_of, term_of, user_of};
ghost use Rattle.content_state.specs.There.{IsThere};
ghost use Rattle.site_access.specs.Access.{access_to_node, by_rules, access_to_field, access_to_field_of, field_permission as permission_of, field_of, node_type_of};
ghost use Rattle.site_access.specs.Plans.{grants_allow as grants_allow_by};
ghost use Rattle.site_access.specs.Depends.{node_depends, by_permissions as permissions_depend, votes_depend, asks_owner as is_owner_asked, field_of_depends, field_depends as depends_of_field};
ghost use Rattle.site_access.specs.Terms.{access_to_term, term_depends as depends_of_term};
ghost use Rattle.site_access.specs.Users.{access_to_user, user_depends, profile_depends as depends_of_profile};
ghost use Rattle.site_access.specs.Routes.{access_to_listing, access_to_route, route_depends};
ghost use Rattle.site_access.specs.Account.{IsAccountOf, OnRows};
ghost use Rattle.site_access.specs.Noting.{decision_of, by_two_votes};

use crate::account::Account;
use crate::field::{field_in, field_permission};
use crate::node::asks_owner;
use crate::permission;
use crate::term::administer_taxonomy;
use crate::user::{access_user_profiles, administer_users};
use access_result::{PermissionText, Reason};
use cacheability::{Cacheability, Context, Name, Op, Tag};
use content_rows::{FieldRow, Node};
use content_state::{Entity, Route, State};
use std::alloc::{AllocError, Global};

impl Account {
    /// Whether the viewer may do this to a node that is there, or else why not, as `node_access`
    /// decides. What that depends on is added to what is noted. `Err` only where memory is wanting:
    /// some of it may be noted then.
    /// <https://www.drupal.org/docs/8/api/entity-api/access-on-entities>
    pub fn note_node(
        &self,
        alloc: Global,
        state: &State,
        op: Op,
        n: u32,
        noted: &mut Cacheability,
    ) -> Result<Result<(), Reason>, AllocError>
        requires account { IsAccountOf state.now.rows self.now.viewer self.now }
        requires there { IsSome (node_of state.now.rows n) }
        ensures answer { IfOk result (λ d. decision_of d ≡ access_to_node state.now.rows self.now.viewer op n) }
        ensures depends { OnOk result (noted.new ≡ merged noted.old (node_depends state.now.rows self.now.viewer op n)) }
    {
        if self.bypasses {
            noted.add_context(Context::UserPermissions)?;
            return Ok(Ok(()));
        }
        if !self.accesses {
            noted.add_context(Context::UserPermissions)?;
            return Ok(Err(missing(alloc, permission::access_content())?));
        }
        match state.node(n) {
            (Some(node), _) => self.note_votes(alloc, op, n, node, noted),
            (None, _) => unreachable!(),
        }
    }

    /// What the rules of a node or its grants decide; what they depend on is noted. `Err` only where
    /// memory is wanting.
    fn note_votes(
        &self,
        alloc: Global,
        op: Op,
        n: u32,
        node: &Node,
        noted: &mut Cacheability,
    ) -> Result<Result<(), Reason>, AllocError>
        ensures answer { IfOk result (λ d. OnRows self.now (λ rows. decision_of d ≡ by_two_votes (by_rules rows self.now.viewer op node.now) (grants_allow_by op node.now self.now.grants) op n)) }
        ensures depends { OnOk result (noted.new ≡ merged noted.old (votes_depend n (is_owner_asked op node.now))) }
    {
        note_votes_depend(noted, n, asks_owner(op, node))?;
        if self.grants_allow(op, node) || self.rules_allow(alloc, op, node)? {
            return Ok(Ok(()));
        }
        Ok(Err(Reason::Grant(op, n)))
    }

    /// Whether the viewer may do this to the field of that name of a node, or else why not, as `field_access` decides. The node is
    /// there, and its type has the field. What the decision depends on is noted. `Err` only where memory is wanting.
    pub fn note_field(
        &self,
        alloc: Global,
        state: &State,
        op: Op,
        n: u32,
        name: &Name,
        noted: &mut Cacheability,
    ) -> Result<Result<(), Reason>, AllocError>
        requires account { IsAccountOf state.now.rows self.now.viewer self.now }
        requires there { IsSome (node_of state.now.rows n) }
        requires has_field { IsSome (field_of state.now.rows (node_type_of state.now.rows n) name.now) }
        ensures answer { IfOk result (λ d. decision_of d ≡ access_to_field_of state.now.rows self.now.viewer op n name.now) }
        ensures depends { OnOk result (noted.new ≡ merged noted.old (field_of_depends state.now.rows op n name.now)) }
    {
        let (node, _) = state.node(n);
        let Some(node) = node else { unreachable!() };
        let (node_type, _) = state.node_type(node.node_type);
        let Some(node_type) = node_type else {
            unreachable!()
        };
        let Some(field) = field_in(node_type, name) else {
            unreachable!()
        };
        self.note_found_field(alloc, op, n, node, field, noted)
    }

    /// Whether the viewer may do this to a field of this node, or else why not. Where its owner's rule and its permission both
    /// deny, the permission is the reason. What the decision depends on is noted. `Err` only where memory is wanting.
    fn note_found_field(
        &self,
        alloc: Global,
        op: Op,
        n: u32,
        node: &Node,
        field: &FieldRow,
        noted: &mut Cacheability,
    ) -> Result<Result<(), Reason>, AllocError>
        ensures answer { IfOk result (λ d. OnRows self.now (λ rows. decision_of d ≡ access_to_field rows self.now.viewer op node.now.uid field.now)) }
        ensures depends { OnOk result (noted.new ≡ merged noted.old (depends_of_field node.now.node_type n (is_some (permission_of op field.now)) field.now.owner)) }
    {
        let permission = field_permission(op, field);
        note_field_depends(noted, node.node_type, n, permission.is_some(), field.owner)?;
        let owned = !field.owner || self.owns(node.uid) || self.may(permission::administer_nodes());
        if let Some(permission) = permission {
            if !self.may(permission.as_slice()) {
                return Ok(Err(missing(alloc, permission.as_slice())?));
            }
        }
        if owned {
            return Ok(Ok(()));
        }
        Ok(Err(Reason::OwnerOnly(field.name)))
    }

    /// Whether the viewer may view a term that is there, or else why not, as `term_access` decides.
    /// What that depends on is noted. `Err` only where memory is wanting.
    /// <https://api.drupal.org/api/drupal/core!modules!taxonomy!src!TermAccessControlHandler.php/class/TermAccessControlHandler/10>
    pub fn note_term(
        &self,
        alloc: Global,
        state: &State,
        t: u32,
        noted: &mut Cacheability,
    ) -> Result<Result<(), Reason>, AllocError>
        requires account { IsAccountOf state.now.rows self.now.viewer self.now }
        requires there { IsSome (term_of state.now.rows t) }
        ensures answer { IfOk result (λ d. decision_of d ≡ access_to_term state.now.rows self.now.viewer t) }
        ensures depends { OnOk result (noted.new ≡ merged noted.old (depends_of_term t)) }
    {
        let (term, _) = state.term(t);
        let Some(term) = term else { unreachable!() };
        noted.add_tag(Tag::Term(t))?;
        noted.add_context(Context::UserPermissions)?;
        if self.may(administer_taxonomy()) {
            return Ok(Ok(()));
        }
        if !term.status {
            return Ok(Err(missing(alloc, administer_taxonomy())?));
        }
        if self.accesses {
            return Ok(Ok(()));
        }
        Ok(Err(missing(alloc, permission::access_content())?))
    }

    /// Whether the viewer may view the profile of a user that is there, or else why not, as `user_access` decides. What that
    /// depends on is noted. `Err` only where memory is wanting.
    /// <https://api.drupal.org/api/drupal/core!modules!user!src!UserAccessControlHandler.php/class/UserAccessControlHandler/10>
    pub fn note_user(
        &self,
        alloc: Global,
        state: &State,
        u: u32,
        noted: &mut Cacheability,
    ) -> Result<Result<(), Reason>, AllocError>
        requires account { IsAccountOf state.now.rows self.now.viewer self.now }
        requires there { IsSome (user_of state.now.rows u) }
        ensures answer { IfOk result (λ d. decision_of d ≡ access_to_user state.now.rows self.now.viewer u) }
        ensures depends { OnOk result (noted.new ≡ merged noted.old (user_depends state.now.rows self.now.viewer u)) }
    {
        let (user, _) = state.user(u);
        let Some(user) = user else { unreachable!() };
        let permitted = (user.status && self.may(access_user_profiles()))
            || self.may(administer_users());
        note_profile_depends(noted, u, permitted)?;
        if permitted || self.owns(u) {
            return Ok(Ok(()));
        }
        if user.status {
            return Ok(Err(missing(alloc, access_user_profiles())?));
        }
        Ok(Err(missing(alloc, administer_users())?))
    }

    /// Whether the viewer may view what a route leads to, which is there, or else why not, as `route_access` decides. What that
    /// depends on is noted. `Err` only where memory is wanting.
    /// <https://www.drupal.org/docs/drupal-apis/routing-system/access-checking-on-routes>
    pub fn note_route(
        &self,
        alloc: Global,
        state: &State,
        to: &Route,
        noted: &mut Cacheability,
    ) -> Result<Result<(), Reason>, AllocError>
        requires account { IsAccountOf state.now.rows self.now.viewer self.now }
        requires there { IsThere state.now.rows to.now }
        ensures answer { IfOk result (λ d. decision_of d ≡ access_to_route state.now.rows self.now.viewer to.now) }
        ensures depends { OnOk result (noted.new ≡ merged noted.old (route_depends state.now.rows self.now.viewer to.now)) }
    {
        match *to {
            Route::Node(n) | Route::Json(Entity::Node(n)) => {
                self.note_node(alloc, state, Op::View, n, noted)
            }
            Route::Term(t) | Route::Json(Entity::Term(t)) => {
                self.note_term(alloc, state, t, noted)
            }
            Route::User(u) | Route::Json(Entity::User(u)) => {
                self.note_user(alloc, state, u, noted)
            }
            Route::Listing(_) | Route::Json(Entity::Listing(_)) => self.note_listing(alloc, noted),
            Route::Login => Ok(Ok(())),
            Route::Nothing => unreachable!(),
        }
    }

    /// Whether the viewer may view listings, or else why not. What that depends on is noted. `Err` only where memory is wanting.
    fn note_listing(
        &self,
        alloc: Global,
        noted: &mut Cacheability,
    ) -> Result<Result<(), Reason>, AllocError>
        ensures answer { IfOk result (λ d. OnRows self.now (λ rows. decision_of d ≡ access_to_listing rows self.now.viewer)) }
        ensures depends { OnOk result (noted.new ≡ merged noted.old permissions_depend) }
    {
        noted.add_context(Context::UserPermissions)?;
        if self.accesses {
            return Ok(Ok(()));
        }
        Ok(Err(missing(alloc, permission::access_content())?))
    }
}

/// That this permission is missing. `Err` only where memory is wanting.
fn missing(alloc: Global, permission: &[u8]) -> Result<Reason, AllocError>
    ensures { IfOk result (λ why. why ≡ reason_is.Permission permission.now) }
{
    Ok(Reason::Permission(PermissionText::copied(alloc, permission)?))
}

/// Notes what the votes for a node depend on: its row, the viewer's grants and permissions, and the
/// viewer, where the rules of the node ask who it is. `Err` only where memory is wanting.
fn note_votes_depend(noted: &mut Cacheability, n: u32, asks: bool) -> Result<(), AllocError>
    ensures { OnOk result (noted.new ≡ merged noted.old (votes_depend n asks)) }
{
    noted.add_tag(Tag::Node(n))?;
    if asks {
        noted.add_context(Context::User)?;
    }
    noted.add_context(Context::NodeGrantsView)?;
    noted.add_context(Context::UserPermissions)
}

/// Notes what a field of a node depends on: its type; permissions, where one is named or the field is
/// for owners; the viewer and the node's row, where it is for owners. `Err` only where memory is
/// wanting.
fn note_field_depends(
    noted: &mut Cacheability,
    node_type: Name,
    n: u32,
    named: bool,
    owner: bool,
) -> Result<(), AllocError>
    ensures { OnOk result (noted.new ≡ merged noted.old (depends_of_field node_type n named owner)) }
{
    noted.add_tag(Tag::NodeType(node_type))?;
    if owner {
        noted.add_tag(Tag::Node(n))?;
        noted.add_context(Context::User)?;
        noted.add_context(Context::UserPermissions)?;
    } else if named {
        noted.add_context(Context::UserPermissions)?;
    }
    Ok(())
}

/// Notes what access to a profile depends on: the user's row and the viewer's permissions, and on who
/// views where no permission decides. `Err` only where memory is wanting.
fn note_profile_depends(noted: &mut Cacheability, u: u32, permitted: bool) -> Result<(), AllocError>
    ensures { OnOk result (noted.new ≡ merged noted.old (depends_of_profile u permitted)) }
{
    noted.add_tag(Tag::User(u))?;
    if !permitted {
        noted.add_context(Context::User)?;
    }
    noted.add_context(Context::UserPermissions)
}
