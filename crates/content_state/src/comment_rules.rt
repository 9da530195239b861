//! The rules of sites that comments keep.
ghost use Rattle.std.specs.Prelude.{◌≡◌, ◌+◌, nat_le, length};
ghost use Rattle.indexed_rows.specs.Rows.{comment_of, talk_of, user_of};
ghost use Rattle.content_state.specs.Seen.{IsSeenBefore};
ghost use Rattle.content_state.specs.SiteRules.{comment_fault, comments_before, is_no_comment_of, talk_fault};

use crate::chain::Tree;
use crate::seen::Held;
use crate::site_rules::{Numbered, SiteField, SiteRule, has_id_from, is_seen, long_rule};
use crate::state::State;
use content_rows::{Cell, Comment};
use indexed_rows::Unique;
use row_keys::OnBefore;
use std::collections::BTreeSet;

/// The most comments of a node.
const MOST: usize = 1_000;

/// What of a comment names a row that is not there, its chain of parents that comes back to itself or has more than nine
/// comments, its node that has 1,000 comments before, or its uuid that a comment before has.
pub fn comment_fault<'a>(
    state: &'a State,
    seen: &BTreeSet<Held<'a>>,
    cell: &Cell,
    cid: u32,
) -> Option<(SiteRule, SiteField)>
    requires { IsSeenBefore state.now.rows cell.now seen.now }
    ensures { result ≡ comment_fault state.now.rows cell.now cid (comment_of state.now.rows cid) }
{
    match state.comment(cid).0 {
        Some(comment) => {
            if state.node(comment.node).0.is_none() {
                Some((SiteRule::Absent, SiteField::Node))
            } else if comment.uid != 0 && state.user(comment.uid).0.is_none() {
                Some((SiteRule::Absent, SiteField::Uid))
            } else if is_no_comment_of(state, comment.node, comment.parent) {
                Some((SiteRule::Absent, SiteField::Parent))
            } else if state.is_deep(Tree::Comments, cid) {
                Some((long_rule(state, Tree::Comments, cid), SiteField::Parent))
            } else if has_many_before(state, comment.node, cid) {
                Some((SiteRule::Many, SiteField::Node))
            } else if is_seen(state, seen, cell, Unique::CommentUuid, &comment.uuid) {
                Some((SiteRule::Taken, SiteField::Uuid))
            } else {
                None
            }
        }
        None => None,
    }
}

/// Whether a comment is not there, or not on that node, where one is named.
fn is_no_comment_of(state: &State, node: u32, comment: Option<u32>) -> bool
    ensures { result ≡ is_no_comment_of state.now.rows node comment }
{
    match comment {
        Some(cid) => match state.comment(cid).0 {
            Some(comment) => comment.node != node,
            None => true,
        },
        None => false,
    }
}

/// Whether a node has 1,000 comments of lesser ids than a comment.
fn has_many_before(state: &State, node: u32, cid: u32) -> bool
    ensures { result ≡ nat_le 1000 (length (comments_before state.now.rows node cid)) }
{
    let mut count = 0;
    'keys: for _key in state.comments_before(node, cid) {
        count += 1;
        if count == MOST {
            return true;
        }
    }
    false
}

/// The next id of a comment that is not there while there are comments, or is not above each of them.
pub fn talk_fault(state: &State) -> Option<(SiteRule, SiteField)>
    ensures { result ≡ talk_fault state.now.rows (talk_of state.now.rows) }
{
    match state.talk() {
        Some(talk) => {
            if has_id_from(state, Numbered::Comment, talk.comment) {
                Some((SiteRule::Range, SiteField::Comment))
            } else {
                None
            }
        }
        None => {
            if has_id_from(state, Numbered::Comment, 0) {
                Some((SiteRule::Missing, SiteField::Cell))
            } else {
                None
            }
        }
    }
}
