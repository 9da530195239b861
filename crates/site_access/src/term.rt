//! Access to taxonomy terms.
ghost use Rattle.std.specs.Prelude.{◌≡◌, IfOk, IsSome};
ghost use Rattle.indexed_rows.specs.Rows.{term_of};
ghost use Rattle.site_access.specs.Account.{IsAccountOf};
ghost use Rattle.site_access.specs.Decided.{IsDecided};
ghost use Rattle.site_access.specs.Depends.{access_of, told};
ghost use Rattle.site_access.specs.Terms.{administer_taxonomy as administer_text, access_to_term, term_access as term_plan, term_depends as depends_of_term, TermPlanAnswers, TermAccessIsExact};

use crate::account::Account;
use crate::depends::{allowed_by, by_permissions, lacking};
use crate::permission;
use access_result::AccessResult;
use cacheability::{Cacheability, Tag};
use content_state::{State, Viewer};
use std::alloc::{AllocError, Global};

/// Whether a viewer may view a term that is there, as `Account::term_access` says. `Err` only where
/// memory is wanting.
pub fn term_access(
    alloc: Global,
    state: &State,
    viewer: &Viewer,
    t: u32,
) -> Result<AccessResult, AllocError>
    requires { IsSome (term_of state.now.rows t) }
    ensures answer { IfOk result (λ r. r ≡ told (access_to_term state.now.rows viewer.now t) r.cacheability) }
    ensures covered { IfOk result (λ r. IsDecided (term_plan t) state.now.rows viewer.now (access_of r) r.cacheability.tags r.cacheability.contexts) }
    ensures depends { IfOk result (λ r. r.cacheability ≡ depends_of_term t) }
{
    let account = Account::new(alloc, state, viewer)?;
    account.term_access(alloc, state, t)
}

impl Account {
    /// Whether the viewer may view a term that is there. `administer taxonomy` allows it; else
    /// `access content` is needed, and the term has to be published. The reason names
    /// `access content` for a published term, else `administer taxonomy`. `Err` only where memory is
    /// wanting.
    /// <https://api.drupal.org/api/drupal/core!modules!taxonomy!src!TermAccessControlHandler.php/class/TermAccessControlHandler/10>
    pub fn term_access(
        &self,
        alloc: Global,
        state: &State,
        t: u32,
    ) -> Result<AccessResult, AllocError>
        requires account { IsAccountOf state.now.rows self.now.viewer self.now }
        requires there { IsSome (term_of state.now.rows t) }
        ensures answer { IfOk result (λ r. r ≡ told (access_to_term state.now.rows self.now.viewer t) r.cacheability) }
        ensures covered { IfOk result (λ r. IsDecided (term_plan t) state.now.rows self.now.viewer (access_of r) r.cacheability.tags r.cacheability.contexts) }
        ensures depends { IfOk result (λ r. r.cacheability ≡ depends_of_term t) }
    {
        self.decide_term(alloc, state, t)
    }

    /// Access to a term that is there. `Err` only where memory is wanting.
    pub(crate) fn decide_term(
        &self,
        alloc: Global,
        state: &State,
        t: u32,
    ) -> Result<AccessResult, AllocError>
        requires account { IsAccountOf state.now.rows self.now.viewer self.now }
        requires there { IsSome (term_of state.now.rows t) }
        ensures { IfOk result (λ r. r ≡ told (access_to_term state.now.rows self.now.viewer t) (depends_of_term t)) }
    {
        let (term, _) = state.term(t);
        let Some(term) = term else { unreachable!() };
        let depends = term_depends(alloc, t)?;
        if self.may(administer_taxonomy()) {
            return Ok(allowed_by(depends));
        }
        if !term.status {
            return lacking(alloc, administer_taxonomy(), depends);
        }
        if self.may(permission::access_content()) {
            return Ok(allowed_by(depends));
        }
        lacking(alloc, permission::access_content(), depends)
    }
}

/// What access to a term depends on: its row and the viewer's permissions. `Err` only where memory
/// is wanting.
fn term_depends(alloc: Global, t: u32) -> Result<Cacheability, AllocError>
    ensures { IfOk result (λ c. c ≡ depends_of_term t) }
{
    let mut depends = by_permissions(alloc)?;
    depends.add_tag(Tag::Term(t))?;
    Ok(depends)
}

/// `administer taxonomy`.
#[tactic(auto, unfolding(crate::specs::Terms::administer_taxonomy))]
pub(crate) fn administer_taxonomy() -> &'static [u8]
    ensures { result.now ≡ administer_text }
{
    b"administer taxonomy"
}

/// The plan of access to a term gives the plain answer, and what a decision depends on is exactly
/// what its plan reads.
/// <https://www.drupal.org/docs/drupal-apis/cache-api/cacheability-of-access-results>
pub fn term_plan_decides()
    ensures answers { TermPlanAnswers }
    ensures exact { TermAccessIsExact }
{}
