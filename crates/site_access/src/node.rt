//! Access to nodes.
ghost use Rattle.std.specs.Prelude.{◌≡◌, ◌&&◌, ◌||◌, not, IfOk, IsSome, Some, None};
ghost use Rattle.access_result.specs.declared.reason.Reason.TheVariants as reason_is;
ghost use Rattle.access_result.specs.AccessResult.{or_result};
ghost use Rattle.indexed_rows.specs.Rows.{node_of};
ghost use Rattle.content_state.specs.Viewer.{may, view_own_unpublished};
ghost use Rattle.site_access.specs.Access.{owns as owns_by, any_content, own_content, by_rules, access_to_node, access_to_create};
ghost use Rattle.site_access.specs.Plans.{node_access, create_access, grants_allow};
ghost use Rattle.site_access.specs.Decided.{IsDecided};
ghost use Rattle.site_access.specs.Depends.{access_of, told, node_depends, by_permissions as permissions_depend, vote as vote_of, rules_depend as depend_of_rules, grants_depend as depend_of_grants, asks_owner as is_owner_asked};
ghost use Rattle.site_access.specs.Account.{IsAccountOf, OnRows};

use crate::account::Account;
use crate::depends::{allowed_by, by_permissions, grants_depend, lacking, rules_depend, vote};
use crate::permission;
use access_result::{AccessResult, Reason};
use cacheability::{Name, Op};
use content_rows::{Node, ViewGrants};
use content_state::State;
use node_grants::granted_to;
use std::alloc::{AllocError, Global};

impl Account {
    /// Whether the viewer may do this to a node that is there. `bypass node access` allows it; without
    /// `access content` it is forbidden; otherwise the rules of the node or its grants have to allow
    /// it. `Err` only where memory is wanting.
    /// <https://www.drupal.org/docs/8/api/entity-api/access-on-entities>
    pub fn node_access(
        &self,
        alloc: Global,
        state: &State,
        op: Op,
        n: u32,
    ) -> Result<AccessResult, AllocError>
        requires account { IsAccountOf state.now.rows self.now.viewer self.now }
        requires there { IsSome (node_of state.now.rows n) }
        ensures answer { IfOk result (λ r. r ≡ told (access_to_node state.now.rows self.now.viewer op n) r.cacheability) }
        ensures covered { IfOk result (λ r. IsDecided (node_access op n) state.now.rows self.now.viewer (access_of r) r.cacheability.tags r.cacheability.contexts) }
        ensures depends { IfOk result (λ r. r.cacheability ≡ node_depends state.now.rows self.now.viewer op n) }
    {
        self.decide_node(alloc, state, op, n)
    }

    /// Access to a node that is there. `Err` only where memory is wanting.
    pub(crate) fn decide_node(
        &self,
        alloc: Global,
        state: &State,
        op: Op,
        n: u32,
    ) -> Result<AccessResult, AllocError>
        requires account { IsAccountOf state.now.rows self.now.viewer self.now }
        requires there { IsSome (node_of state.now.rows n) }
        ensures { IfOk result (λ r. r ≡ told (access_to_node state.now.rows self.now.viewer op n) (node_depends state.now.rows self.now.viewer op n)) }
    {
        if self.bypasses {
            return Ok(allowed_by(by_permissions(alloc)?));
        }
        if !self.accesses {
            return lacking(alloc, permission::access_content(), by_permissions(alloc)?);
        }
        match state.node(n) {
            (Some(node), _) => self.by_votes(alloc, op, n, node),
            (None, _) => unreachable!(),
        }
    }

    /// Whether the viewer may create a node of a type. `bypass node access` allows it; without
    /// `access content` it is forbidden; otherwise the type's permission is needed. `Err` only where
    /// memory is wanting.
    /// <https://www.drupal.org/docs/8/api/entity-api/access-on-entities>
    pub fn create_access(&self, alloc: Global, node_type: &Name) -> Result<AccessResult, AllocError>
        ensures answer { IfOk result (λ r. OnRows self.now (λ rows. r ≡ told (access_to_create rows self.now.viewer node_type.now) r.cacheability)) }
        ensures covered { IfOk result (λ r. OnRows self.now (λ rows. IsDecided (create_access node_type.now) rows self.now.viewer (access_of r) r.cacheability.tags r.cacheability.contexts)) }
        ensures depends { IfOk result (λ r. r.cacheability ≡ permissions_depend) }
    {
        self.decide_creation(alloc, node_type)
    }

    /// Access to creating a node of a type. `Err` only where memory is wanting.
    fn decide_creation(&self, alloc: Global, node_type: &Name) -> Result<AccessResult, AllocError>
        ensures answer { IfOk result (λ r. OnRows self.now (λ rows. r ≡ told (access_to_create rows self.now.viewer node_type.now) r.cacheability)) }
        ensures depends { IfOk result (λ r. r.cacheability ≡ permissions_depend) }
    {
        let depends = by_permissions(alloc)?;
        if self.may(permission::bypass_node_access()) {
            return Ok(allowed_by(depends));
        }
        if !self.may(permission::access_content()) {
            return lacking(alloc, permission::access_content(), depends);
        }
        let create = permission::create_content(alloc, node_type)?;
        if self.may(&create) {
            return Ok(allowed_by(depends));
        }
        lacking(alloc, &create, depends)
    }

    /// What the rules of a node or its grants say. `Err` only where memory is wanting.
    fn by_votes(
        &self,
        alloc: Global,
        op: Op,
        n: u32,
        node: &Node,
    ) -> Result<AccessResult, AllocError>
        ensures { IfOk result (λ r. OnRows self.now (λ rows. r ≡ or_result (vote_of (by_rules rows self.now.viewer op node.now) None (depend_of_rules n (is_owner_asked op node.now))) (vote_of (grants_allow op node.now self.now.grants) (Some (reason_is.Grant op n)) (depend_of_grants n)))) }
    {
        let ruled = self.rules(alloc, op, n, node)?;
        let granted = self.grants(alloc, op, n, node)?;
        ruled.or_if(alloc, &granted)
    }

    /// What the rules of the node itself say. `Err` only where memory is wanting.
    fn rules(&self, alloc: Global, op: Op, n: u32, node: &Node) -> Result<AccessResult, AllocError>
        ensures { IfOk result (λ r. OnRows self.now (λ rows. r ≡ vote_of (by_rules rows self.now.viewer op node.now) None (depend_of_rules n (is_owner_asked op node.now)))) }
    {
        let depends = rules_depend(alloc, n, asks_owner(op, node))?;
        Ok(vote(self.rules_allow(alloc, op, node)?, None, depends))
    }

    /// Whether the rules of the node itself allow this: its owner may view an unpublished one, with a
    /// permission for it; a permission for the type allows a change to all, or to the owner. `Err`
    /// only where memory is wanting.
    pub(crate) fn rules_allow(&self, alloc: Global, op: Op, node: &Node) -> Result<bool, AllocError>
        ensures { IfOk result (λ allowed. OnRows self.now (λ rows. allowed ≡ by_rules rows self.now.viewer op node.now)) }
    {
        match op {
            Op::View => Ok(self.owns_unpublished(node)),
            Op::Update => self.may_change(alloc, Op::Update, node),
            Op::Delete => self.may_change(alloc, Op::Delete, node),
        }
    }

    /// Whether a node is the viewer's own unpublished one, and the viewer may view those.
    fn owns_unpublished(&self, node: &Node) -> bool
        ensures { OnRows self.now (λ rows. result ≡ (not node.now.status && owns_by self.now.viewer.uid node.now.uid && may rows self.now.viewer view_own_unpublished)) }
    {
        !node.status && self.owns(node.uid) && self.may(permission::view_own_unpublished())
    }

    /// Whether a permission for the node's type allows this to all, or to the node's owner. `Err` only
    /// where memory is wanting.
    fn may_change(&self, alloc: Global, op: Op, node: &Node) -> Result<bool, AllocError>
        ensures { IfOk result (λ allowed. OnRows self.now (λ rows. allowed ≡ (may rows self.now.viewer (any_content op node.now.node_type) || (owns_by self.now.viewer.uid node.now.uid && may rows self.now.viewer (own_content op node.now.node_type))))) }
    {
        let any = permission::any_content(alloc, op, &node.node_type)?;
        let own = permission::own_content(alloc, op, &node.node_type)?;
        Ok(self.may(&any) || (self.owns(node.uid) && self.may(&own)))
    }

    /// What the grants of a node say. `Err` only where memory is wanting.
    fn grants(&self, alloc: Global, op: Op, n: u32, node: &Node) -> Result<AccessResult, AllocError>
        ensures { IfOk result (λ r. r ≡ vote_of (grants_allow op node.now self.now.grants) (Some (reason_is.Grant op n)) (depend_of_grants n)) }
    {
        let depends = grants_depend(alloc, n)?;
        let allowed = self.grants_allow(op, node);
        Ok(vote(allowed, Some(Reason::Grant(op, n)), depends))
    }

    /// Whether the grants of a node allow this.
    pub(crate) fn grants_allow(&self, op: Op, node: &Node) -> bool
        ensures { result ≡ grants_allow op node.now self.now.grants }
    {
        match self.grants.get() {
            ViewGrants::All => true,
            ViewGrants::These(held) => granted_to(op, node, held.as_slice()),
        }
    }
}

/// Whether the rules of a node ask who the viewer is.
pub(crate) fn asks_owner(op: Op, node: &Node) -> bool
    ensures { result ≡ is_owner_asked op node.now }
{
    match op {
        Op::View => !node.status,
        Op::Update | Op::Delete => true,
    }
}
