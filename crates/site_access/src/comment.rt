//! Access to comments.
ghost use Rattle.std.specs.Prelude.{◌≡◌, ◌&&◌, IfOk, IsSome, Some};
ghost use Rattle.content_state.specs.Viewer.{may};
ghost use Rattle.indexed_rows.specs.Rows.{comment_of};
ghost use Rattle.site_access.specs.Access.{owns};
ghost use Rattle.site_access.specs.Account.{IsAccountOf, OnRows};
ghost use Rattle.site_access.specs.Comments.{
  access_comments as access_text,
  post_comments as post_text,
  skip_comment_approval as skip_text,
  edit_own_comments as edit_text,
  administer_comments as administer_text,
  access_to_comment,
  comment_access as comment_plan,
  decided_depends as depends_where_decided,
  comment_depends as depends_of_comment,
  CommentPlanAnswers,
  CommentAccessIsExact,
};
ghost use Rattle.site_access.specs.Decided.{IsDecided};
ghost use Rattle.site_access.specs.Depends.{access_of, told};

use crate::account::Account;
use crate::depends::{allowed_by, by_permissions, lacking};
use access_result::AccessResult;
use cacheability::{Cacheability, Context, Op, Tag};
use content_rows::Comment;
use content_state::{State, Viewer};
use std::alloc::{AllocError, Global};

/// Whether a viewer may do this to a comment that is there, as `Account::comment_access` says. `Err`
/// only where memory is wanting.
pub fn comment_access(
    alloc: Global,
    state: &State,
    viewer: &Viewer,
    op: Op,
    c: u32,
) -> Result<AccessResult, AllocError>
    requires { IsSome (comment_of state.now.rows c) }
    ensures answer { IfOk result (λ r. r ≡ told (access_to_comment state.now.rows viewer.now op c) r.cacheability) }
    ensures covered { IfOk result (λ r. IsDecided (comment_plan op c) state.now.rows viewer.now (access_of r) r.cacheability.tags r.cacheability.contexts) }
    ensures depends { IfOk result (λ r. r.cacheability ≡ depends_of_comment state.now.rows viewer.now op c) }
{
    let account = Account::new(alloc, state, viewer)?;
    account.comment_access(alloc, state, op, c)
}

impl Account {
    /// Whether the viewer may do this to a comment that is there. `administer comments` allows all;
    /// else a published one may be viewed with `access comments`, and changed by its logged-in owner
    /// with `edit own comments`. The reason names `access comments` where a published one may not be
    /// viewed, else `administer comments`. `Err` only where memory is wanting.
    /// <https://api.drupal.org/api/drupal/core!modules!comment!src!CommentAccessControlHandler.php/class/CommentAccessControlHandler/10>
    pub fn comment_access(
        &self,
        alloc: Global,
        state: &State,
        op: Op,
        c: u32,
    ) -> Result<AccessResult, AllocError>
        requires account { IsAccountOf state.now.rows self.now.viewer self.now }
        requires there { IsSome (comment_of state.now.rows c) }
        ensures answer { IfOk result (λ r. r ≡ told (access_to_comment state.now.rows self.now.viewer op c) r.cacheability) }
        ensures covered { IfOk result (λ r. IsDecided (comment_plan op c) state.now.rows self.now.viewer (access_of r) r.cacheability.tags r.cacheability.contexts) }
        ensures depends { IfOk result (λ r. r.cacheability ≡ depends_of_comment state.now.rows self.now.viewer op c) }
    {
        self.decide_comment(alloc, state, op, c)
    }

    /// Access to a comment that is there. `Err` only where memory is wanting.
    fn decide_comment(
        &self,
        alloc: Global,
        state: &State,
        op: Op,
        c: u32,
    ) -> Result<AccessResult, AllocError>
        requires account { IsAccountOf state.now.rows self.now.viewer self.now }
        requires there { IsSome (comment_of state.now.rows c) }
        ensures { IfOk result (λ r. r ≡ told (access_to_comment state.now.rows self.now.viewer op c) (depends_of_comment state.now.rows self.now.viewer op c)) }
    {
        let (comment, _) = state.comment(c);
        let Some(comment) = comment else {
            unreachable!()
        };
        match op {
            Op::View => self.decide_view(alloc, state, c, comment),
            Op::Update => self.decide_change(alloc, state, c, comment),
            Op::Delete => self.decide_removal(alloc, state, c),
        }
    }

    /// Access to viewing a comment. `Err` only where memory is wanting.
    fn decide_view(
        &self,
        alloc: Global,
        state: &State,
        c: u32,
        comment: &Comment,
    ) -> Result<AccessResult, AllocError>
        requires account { IsAccountOf state.now.rows self.now.viewer self.now }
        requires there { comment_of state.now.rows c ≡ Some comment.now }
        ensures { IfOk result (λ r. r ≡ told (access_to_comment state.now.rows self.now.viewer Op.View c) (depends_of_comment state.now.rows self.now.viewer Op.View c)) }
    {
        let depends = comment_depends(alloc, c, true)?;
        if self.may(administer_comments()) {
            return Ok(allowed_by(depends));
        }
        if !comment.status {
            return lacking(alloc, administer_comments(), depends);
        }
        if self.may(access_comments()) {
            return Ok(allowed_by(depends));
        }
        lacking(alloc, access_comments(), depends)
    }

    /// Access to changing a comment. `Err` only where memory is wanting.
    fn decide_change(
        &self,
        alloc: Global,
        state: &State,
        c: u32,
        comment: &Comment,
    ) -> Result<AccessResult, AllocError>
        requires account { IsAccountOf state.now.rows self.now.viewer self.now }
        requires there { comment_of state.now.rows c ≡ Some comment.now }
        ensures { IfOk result (λ r. r ≡ told (access_to_comment state.now.rows self.now.viewer Op.Update c) (depends_of_comment state.now.rows self.now.viewer Op.Update c)) }
    {
        let administers = self.may(administer_comments());
        let depends = comment_depends(alloc, c, administers)?;
        if administers || self.may_change_own(comment) {
            return Ok(allowed_by(depends));
        }
        lacking(alloc, administer_comments(), depends)
    }

    /// Access to removing a comment. `Err` only where memory is wanting.
    fn decide_removal(
        &self,
        alloc: Global,
        state: &State,
        c: u32,
    ) -> Result<AccessResult, AllocError>
        requires { IsAccountOf state.now.rows self.now.viewer self.now }
        ensures { IfOk result (λ r. r ≡ told (access_to_comment state.now.rows self.now.viewer Op.Delete c) (depends_of_comment state.now.rows self.now.viewer Op.Delete c)) }
    {
        let depends = comment_depends(alloc, c, true)?;
        if self.may(administer_comments()) {
            return Ok(allowed_by(depends));
        }
        lacking(alloc, administer_comments(), depends)
    }

    /// Whether a comment is the viewer's own published one, and the viewer may change those.
    fn may_change_own(&self, comment: &Comment) -> bool
        ensures { OnRows self.now (λ rows. result ≡ (comment.now.status && (owns self.now.viewer.uid comment.now.uid && may rows self.now.viewer edit_text))) }
    {
        comment.status && self.owns(comment.uid) && self.may(edit_own_comments())
    }
}

/// What access to a comment depends on: its row and the viewer's permissions, and on who views where
/// no permission decides. `Err` only where memory is wanting.
fn comment_depends(alloc: Global, c: u32, decided: bool) -> Result<Cacheability, AllocError>
    ensures { IfOk result (λ d. d ≡ depends_where_decided c decided) }
{
    let mut depends = by_permissions(alloc)?;
    depends.add_tag(Tag::Comment(c))?;
    if !decided {
        depends.add_context(Context::User)?;
    }
    Ok(depends)
}

/// `access comments`.
#[tactic(auto, unfolding(crate::specs::Comments::access_comments))]
pub fn access_comments() -> &'static [u8]
    ensures { result.now ≡ access_text }
{
    b"access comments"
}

/// `post comments`.
#[tactic(auto, unfolding(crate::specs::Comments::post_comments))]
pub fn post_comments() -> &'static [u8]
    ensures { result.now ≡ post_text }
{
    b"post comments"
}

/// `skip comment approval`.
#[tactic(auto, unfolding(crate::specs::Comments::skip_comment_approval))]
pub fn skip_comment_approval() -> &'static [u8]
    ensures { result.now ≡ skip_text }
{
    b"skip comment approval"
}

/// `edit own comments`.
#[tactic(auto, unfolding(crate::specs::Comments::edit_own_comments))]
pub fn edit_own_comments() -> &'static [u8]
    ensures { result.now ≡ edit_text }
{
    b"edit own comments"
}

/// `administer comments`.
#[tactic(auto, unfolding(crate::specs::Comments::administer_comments))]
pub fn administer_comments() -> &'static [u8]
    ensures { result.now ≡ administer_text }
{
    b"administer comments"
}

/// The plan of access to a comment gives the plain answer, and what a decision depends on is exactly
/// what its plan reads.
/// <https://www.drupal.org/docs/drupal-apis/cache-api/cacheability-of-access-results>
pub fn comment_plan_decides()
    ensures answers { CommentPlanAnswers }
    ensures exact { CommentAccessIsExact }
{}
