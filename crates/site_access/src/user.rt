//! Access to users' profiles.
ghost use Rattle.std.specs.Prelude.{◌≡◌, IfOk, IsSome};
ghost use Rattle.indexed_rows.specs.Rows.{user_of};
ghost use Rattle.site_access.specs.Account.{IsAccountOf};
ghost use Rattle.site_access.specs.Decided.{IsDecided};
ghost use Rattle.site_access.specs.Depends.{access_of, told};
ghost use Rattle.site_access.specs.Users.{access_user_profiles as profiles_text, administer_users as administer_text, access_to_user, user_access as user_plan, profile_depends as depends_of_profile, user_depends, UserPlanAnswers, UserAccessIsExact};

use crate::account::Account;
use crate::depends::{allowed_by, by_permissions, lacking};
use access_result::AccessResult;
use cacheability::{Cacheability, Context, Tag};
use content_state::{State, Viewer};
use std::alloc::{AllocError, Global};

/// Whether a viewer may view the profile of a user that is there, as `Account::user_access` says.
/// `Err` only where memory is wanting.
pub fn user_access(
    alloc: Global,
    state: &State,
    viewer: &Viewer,
    u: u32,
) -> Result<AccessResult, AllocError>
    requires { IsSome (user_of state.now.rows u) }
    ensures answer { IfOk result (λ r. r ≡ told (access_to_user state.now.rows viewer.now u) r.cacheability) }
    ensures covered { IfOk result (λ r. IsDecided (user_plan u) state.now.rows viewer.now (access_of r) r.cacheability.tags r.cacheability.contexts) }
    ensures depends { IfOk result (λ r. r.cacheability ≡ user_depends state.now.rows viewer.now u) }
{
    let account = Account::new(alloc, state, viewer)?;
    account.user_access(alloc, state, u)
}

impl Account {
    /// Whether the viewer may view the profile of a user that is there: by `access user profiles`, if
    /// the user is active, else by `administer users`, else where it is the viewer's own. The reason
    /// names `access user profiles` for an active user, else `administer users`. `Err` only where
    /// memory is wanting.
    /// <https://api.drupal.org/api/drupal/core!modules!user!src!UserAccessControlHandler.php/class/UserAccessControlHandler/10>
    pub fn user_access(
        &self,
        alloc: Global,
        state: &State,
        u: u32,
    ) -> Result<AccessResult, AllocError>
        requires account { IsAccountOf state.now.rows self.now.viewer self.now }
        requires there { IsSome (user_of state.now.rows u) }
        ensures answer { IfOk result (λ r. r ≡ told (access_to_user state.now.rows self.now.viewer u) r.cacheability) }
        ensures covered { IfOk result (λ r. IsDecided (user_plan u) state.now.rows self.now.viewer (access_of r) r.cacheability.tags r.cacheability.contexts) }
        ensures depends { IfOk result (λ r. r.cacheability ≡ user_depends state.now.rows self.now.viewer u) }
    {
        self.decide_user(alloc, state, u)
    }

    /// Access to a user that is there. `Err` only where memory is wanting.
    pub(crate) fn decide_user(
        &self,
        alloc: Global,
        state: &State,
        u: u32,
    ) -> Result<AccessResult, AllocError>
        requires account { IsAccountOf state.now.rows self.now.viewer self.now }
        requires there { IsSome (user_of state.now.rows u) }
        ensures { IfOk result (λ r. r ≡ told (access_to_user state.now.rows self.now.viewer u) (user_depends state.now.rows self.now.viewer u)) }
    {
        let (user, _) = state.user(u);
        let Some(user) = user else { unreachable!() };
        let permitted = (user.status && self.may(access_user_profiles()))
            || self.may(administer_users());
        let depends = profile_depends(alloc, u, permitted)?;
        if permitted || self.owns(u) {
            return Ok(allowed_by(depends));
        }
        if user.status {
            return lacking(alloc, access_user_profiles(), depends);
        }
        lacking(alloc, administer_users(), depends)
    }
}

/// What access to a profile depends on: the user's row and the viewer's permissions, and on who views
/// where no permission decides. `Err` only where memory is wanting.
fn profile_depends(alloc: Global, u: u32, permitted: bool) -> Result<Cacheability, AllocError>
    ensures { IfOk result (λ c. c ≡ depends_of_profile u permitted) }
{
    let mut depends = by_permissions(alloc)?;
    depends.add_tag(Tag::User(u))?;
    if !permitted {
        depends.add_context(Context::User)?;
    }
    Ok(depends)
}

/// `access user profiles`.
#[tactic(auto, unfolding(crate::specs::Users::access_user_profiles))]
pub(crate) fn access_user_profiles() -> &'static [u8]
    ensures { result.now ≡ profiles_text }
{
    b"access user profiles"
}

/// `administer users`.
#[tactic(auto, unfolding(crate::specs::Users::administer_users))]
pub(crate) fn administer_users() -> &'static [u8]
    ensures { result.now ≡ administer_text }
{
    b"administer users"
}

/// The plan of access to a profile gives the plain answer, and what a decision depends on is exactly
/// what its plan reads.
/// <https://www.drupal.org/docs/drupal-apis/cache-api/cacheability-of-access-results>
pub fn user_plan_decides()
    ensures answers { UserPlanAnswers }
    ensures exact { UserAccessIsExact }
{}
