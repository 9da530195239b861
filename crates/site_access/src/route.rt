//! Access to what a path leads to.
ghost use Rattle.std.specs.Prelude.{◌≡◌, IfOk};
ghost use Rattle.site_access.specs.Account.{IsAccountOf, OnRows};
ghost use Rattle.site_access.specs.Decided.{IsDecided};
ghost use Rattle.site_access.specs.Depends.{access_of, told, by_permissions as permissions_depend};
ghost use Rattle.content_state.specs.There.{IsThere};
ghost use Rattle.site_access.specs.Routes.{access_to_listing, access_to_route, route_access as route_plan, route_depends, RoutePlanAnswers, RouteAccessIsExact};

use crate::account::Account;
use crate::depends::{allowed_by, by_permissions, lacking};
use crate::permission;
use access_result::AccessResult;
use cacheability::{Cacheability, Op};
use content_state::{Entity, Route, State, Viewer};
use std::alloc::{AllocError, Global};

/// Whether a viewer may view what a route leads to, which is there, as `Account::route_access` says.
/// `Err` only where memory is wanting.
pub fn route_access(
    alloc: Global,
    state: &State,
    viewer: &Viewer,
    to: &Route,
) -> Result<AccessResult, AllocError>
    requires { IsThere state.now.rows to.now }
    ensures answer { IfOk result (λ r. r ≡ told (access_to_route state.now.rows viewer.now to.now) r.cacheability) }
    ensures covered { IfOk result (λ r. IsDecided (route_plan to.now) state.now.rows viewer.now (access_of r) r.cacheability.tags r.cacheability.contexts) }
    ensures depends { IfOk result (λ r. r.cacheability ≡ route_depends state.now.rows viewer.now to.now) }
{
    let account = Account::new(alloc, state, viewer)?;
    account.route_access(alloc, state, to)
}

impl Account {
    /// Whether the viewer may view what a route leads to, which is there: a node, a term or a user as
    /// the access to them says; a listing with `access content`; what is told as JSON as the page that
    /// shows the same; the login page in any case. `Err` only where memory is wanting.
    /// <https://www.drupal.org/docs/drupal-apis/routing-system/access-checking-on-routes>
    pub fn route_access(
        &self,
        alloc: Global,
        state: &State,
        to: &Route,
    ) -> Result<AccessResult, AllocError>
        requires account { IsAccountOf state.now.rows self.now.viewer self.now }
        requires there { IsThere state.now.rows to.now }
        ensures answer { IfOk result (λ r. r ≡ told (access_to_route state.now.rows self.now.viewer to.now) r.cacheability) }
        ensures covered { IfOk result (λ r. IsDecided (route_plan to.now) state.now.rows self.now.viewer (access_of r) r.cacheability.tags r.cacheability.contexts) }
        ensures depends { IfOk result (λ r. r.cacheability ≡ route_depends state.now.rows self.now.viewer to.now) }
    {
        self.decide_route(alloc, state, to)
    }

    /// Access to what a route leads to. `Err` only where memory is wanting.
    fn decide_route(
        &self,
        alloc: Global,
        state: &State,
        to: &Route,
    ) -> Result<AccessResult, AllocError>
        requires account { IsAccountOf state.now.rows self.now.viewer self.now }
        requires there { IsThere state.now.rows to.now }
        ensures { IfOk result (λ r. r ≡ told (access_to_route state.now.rows self.now.viewer to.now) (route_depends state.now.rows self.now.viewer to.now)) }
    {
        match *to {
            Route::Node(n) | Route::Json(Entity::Node(n)) => {
                self.decide_node(alloc, state, Op::View, n)
            }
            Route::Term(t) | Route::Json(Entity::Term(t)) => self.decide_term(alloc, state, t),
            Route::User(u) | Route::Json(Entity::User(u)) => self.decide_user(alloc, state, u),
            Route::Listing(_) | Route::Json(Entity::Listing(_)) => self.decide_listing(alloc),
            Route::Login => Ok(allowed_by(Cacheability::new(alloc))),
            Route::Nothing => unreachable!(),
        }
    }

    /// Access to a listing. `Err` only where memory is wanting.
    fn decide_listing(&self, alloc: Global) -> Result<AccessResult, AllocError>
        ensures { IfOk result (λ r. OnRows self.now (λ rows. r ≡ told (access_to_listing rows self.now.viewer) permissions_depend)) }
    {
        let depends = by_permissions(alloc)?;
        if self.may(permission::access_content()) {
            return Ok(allowed_by(depends));
        }
        lacking(alloc, permission::access_content(), depends)
    }
}

/// The plan of access to what a route leads to gives the plain answer, and what a decision depends on
/// is exactly what its plan reads.
/// <https://www.drupal.org/docs/drupal-apis/cache-api/cacheability-of-access-results>
pub fn route_plan_decides()
    ensures answers { RoutePlanAnswers }
    ensures exact { RouteAccessIsExact }
{}
