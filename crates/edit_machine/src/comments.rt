//! Edits of comments.
ghost use Rattle.std.specs.Prelude.{◌≡◌, ◌≢◌, IfOk, IsSome, Some, None};
ghost use Rattle.indexed_rows.specs.Rows.{with_row, node_of, comment_of, talk_of};
ghost use Rattle.content_state.specs.SiteRules.{is_no_comment_of};
ghost use Rattle.site_access.specs.Account.{IsAccountOf, OnRows};
ghost use Rattle.site_commands.specs.Causes.{told, removed as removed_write, commit_of};
ghost use Rattle.site_commands.specs.Nodes.{remove_writes as node_remove_writes};
ghost use Rattle.site_commands.specs.Comments.{
  is_approved,
  new_comment,
  next_comment,
  create_denials,
  is_deep,
  is_full,
  create_refusals,
  create_next,
  create_right,
  create_there,
  create_comment,
  patched_comment,
  change_denials,
  change_right,
  change_there,
  change_comment,
  remove_writes,
  remove_comment,
};
ghost use Rattle.edit_machine.specs.First.{first_cause};

use crate::causes::{
    accepted, broken, broken_body, comment_denial, commenting, commit_of, is_last, key_needs,
    needs, node_denial, setting,
};
use crate::nodes::{both, id_in, sent_copy};
use cacheability::Op;
use content_rows::{Cell, Comment, Duplicate, Row};
use content_state::{Commit, State, Unique, Write};
use json_keys::{Checked, Rule};
use site_access::{Account, administer_comments, post_comments, skip_comment_approval};
use site_commands::{
    CommentChange, CommentCreation, CommentPatch, Done, NewComment, Refusal, Verdict,
};
use std::alloc::{AllocError, Global};
use valid_edits::holder;

/// The most comments that a chain of parents may have.
const MOST_LEVELS: usize = 9;

/// The most comments that a node may have.
const MOST_COMMENTS: usize = 1000;

/// To comment on a node that is there: the viewer may view it and post comments, the body breaks no rule, what it
/// replies to is a comment on the node, and there is room. `Err` only where memory is wanting.
pub fn create_comment(
    alloc: Global,
    state: &State,
    account: &Account,
    asked: &CommentCreation,
    now: u64,
    pass: u32,
) -> Result<Verdict, AllocError>
    requires { IsAccountOf state.now.rows account.now.viewer account.now }
    ensures { IfOk result (λ verdict. told verdict ≡ create_comment state.now account.now.viewer asked.now now pass) }
{
    let Some(nid) = asked.nid else {
        return Ok(Verdict::Refused(Refusal::NoTarget));
    };
    let (node, _) = state.node(nid);
    if node.is_none() {
        return Ok(Verdict::Refused(Refusal::NoTarget));
    }
    create_there(alloc, state, account, &asked.body, now, pass, nid)
}

/// To comment on a node that is there. `Err` only where memory is wanting.
fn create_there(
    alloc: Global,
    state: &State,
    account: &Account,
    body: &Checked<NewComment>,
    now: u64,
    pass: u32,
    nid: u32,
) -> Result<Verdict, AllocError>
    requires account { IsAccountOf state.now.rows account.now.viewer account.now }
    requires there { IsSome (node_of state.now.rows nid) }
    ensures { IfOk result (λ verdict. told verdict ≡ create_there state.now account.now.viewer body.now now pass nid) }
{
    if let Some(refusal) = create_denial(alloc, state, account, nid)? {
        return Ok(Verdict::Refused(refusal));
    }
    match body {
        Checked::Broken(field, rule) => broken_body(alloc, field, *rule),
        Checked::Right(new) => create_right(alloc, state, account, new, now, pass, nid),
    }
}

/// What refuses a viewer that comments on a node that is there. `Err` only where memory is wanting.
fn create_denial(
    alloc: Global,
    state: &State,
    account: &Account,
    nid: u32,
) -> Result<Option<Refusal>, AllocError>
    requires account { IsAccountOf state.now.rows account.now.viewer account.now }
    requires there { IsSome (node_of state.now.rows nid) }
    ensures { IfOk result (λ cause. cause ≡ first_cause (create_denials state.now.rows account.now.viewer nid)) }
{
    if let Some(refusal) = node_denial(alloc, state, account, Op::View, nid)? {
        return Ok(Some(refusal));
    }
    needs(alloc, account, post_comments())
}

/// To comment on a node, by a viewer that may. `Err` only where memory is wanting.
fn create_right(
    alloc: Global,
    state: &State,
    account: &Account,
    new: &NewComment,
    now: u64,
    pass: u32,
    nid: u32,
) -> Result<Verdict, AllocError>
    requires { IsAccountOf state.now.rows account.now.viewer account.now }
    ensures { IfOk result (λ verdict. told verdict ≡ create_right state.now account.now.viewer now pass nid new.now) }
{
    let approved = is_approved(account);
    let comment = new_comment(alloc, new, nid, account.viewer.uid, approved, now)?;
    create_next(alloc, state, comment, pass, nid, next_comment(state))
}

/// Whether what the viewer posts is published at once.
fn is_approved(account: &Account) -> bool
    ensures { OnRows account.now (λ rows. result ≡ is_approved rows account.now.viewer) }
{
    account.may(skip_comment_approval()) || account.may(administer_comments())
}

/// The id that the next comment gets: 1 where none was made yet.
fn next_comment(state: &State) -> u32
    ensures { result ≡ next_comment (talk_of state.now.rows) }
{
    match state.talk() {
        Some(talk) => talk.comment,
        None => 1,
    }
}

/// The comment that a body asks for. `Err` only where memory is wanting.
fn new_comment(
    alloc: Global,
    new: &NewComment,
    nid: u32,
    uid: u32,
    approved: bool,
    now: u64,
) -> Result<Comment, AllocError>
    ensures { IfOk result (λ comment. comment ≡ new_comment new.now nid uid approved now) }
{
    let (body, uuid) = both(new.body.duplicate(alloc), new.uuid.duplicate(alloc))?;
    Ok(Comment {
        body,
        created: now,
        node: nid,
        parent: new.parent,
        status: approved,
        uid,
        uuid,
    })
}

/// To make a comment with this id. `Err` only where memory is wanting.
fn create_next(
    alloc: Global,
    state: &State,
    comment: Comment,
    pass: u32,
    nid: u32,
    next: u32,
) -> Result<Verdict, AllocError>
    ensures { IfOk result (λ verdict. told verdict ≡ create_next state.now pass nid comment next) }
{
    if let Some(refusal) = create_refusal(alloc, state, nid, &comment, next)? {
        return Ok(Verdict::Refused(refusal));
    }
    let commit = commenting(
        alloc,
        pass,
        next + 1,
        Cell::Comment(next),
        Row::Comment(comment),
    )?;
    accepted(alloc, state, commit, Done::CommentCreated(next))
}

/// What refuses a comment on a node, to be made with this id, beside what the site holds; where nothing does, there is
/// an id left. `Err` only where memory is wanting.
fn create_refusal(
    alloc: Global,
    state: &State,
    nid: u32,
    comment: &Comment,
    next: u32,
) -> Result<Option<Refusal>, AllocError>
    ensures cause { IfOk result (λ cause. cause ≡ first_cause (create_refusals state.now.rows nid comment.now next)) }
    ensures left { IfOk result (λ cause. cause ≡ None → next ≢ 4_294_967_295) }
{
    if is_absent(state, nid, comment.parent) {
        return Ok(Some(broken(alloc, b"parent", Rule::Absent)?));
    }
    if is_new_deep(state, next, comment) {
        return Ok(Some(broken(alloc, b"parent", Rule::Deep)?));
    }
    if is_full(alloc, state, nid)? {
        return Ok(Some(broken(alloc, b"node", Rule::Many)?));
    }
    if is_last(next) {
        return Ok(Some(broken(alloc, b"comment", Rule::Full)?));
    }
    let cell = Cell::Comment(next);
    if let Some(other) = holder(state, &cell, Unique::CommentUuid, &comment.uuid) {
        return Ok(Some(Refusal::UuidTaken(id_in(other))));
    }
    Ok(None)
}

/// Whether the parent is no comment on the node; a comment that replies to none has none.
fn is_absent(state: &State, nid: u32, parent: Option<u32>) -> bool
    ensures { result ≡ is_no_comment_of state.now.rows nid parent }
{
    let Some(cid) = parent else {
        return false;
    };
    match state.comment(cid).0 {
        Some(comment) => comment.node != nid,
        None => true,
    }
}

/// Whether the chain of parents from a new comment up is too long.
fn is_new_deep(state: &State, next: u32, comment: &Comment) -> bool
    ensures { result ≡ is_deep (with_row state.now.rows (Cell.Comment next) (Row.Comment comment.now)) next }
{
    state.is_longer_reply_with(next, comment.parent, MOST_LEVELS, next)
}

/// Whether a node has as many comments as it may have. `Err` only where memory is wanting.
#[tactic(auto, using(crate::proofs::Replies::counted))]
fn is_full(alloc: Global, state: &State, nid: u32) -> Result<bool, AllocError>
    ensures { IfOk result (λ full. full ≡ is_full state.now.rows nid) }
{
    let comments = state.comments_on(alloc, nid)?;
    Ok(comments.len() >= MOST_COMMENTS)
}

/// To change a comment that is there. `Err` only where memory is wanting.
pub fn change_comment(
    alloc: Global,
    state: &State,
    account: &Account,
    asked: &CommentChange,
    pass: u32,
) -> Result<Verdict, AllocError>
    requires { IsAccountOf state.now.rows account.now.viewer account.now }
    ensures { IfOk result (λ verdict. told verdict ≡ change_comment state.now account.now.viewer asked.now pass) }
{
    let Some(cid) = asked.cid else {
        return Ok(Verdict::Refused(Refusal::NoTarget));
    };
    match state.comment(cid) {
        (Some(comment), _) => change_there(alloc, state, account, asked, pass, cid, comment),
        (None, _) => Ok(Verdict::Refused(Refusal::NoTarget)),
    }
}

/// To change a comment that is there. `Err` only where memory is wanting.
fn change_there(
    alloc: Global,
    state: &State,
    account: &Account,
    asked: &CommentChange,
    pass: u32,
    cid: u32,
    comment: &Comment,
) -> Result<Verdict, AllocError>
    requires account { IsAccountOf state.now.rows account.now.viewer account.now }
    requires there { comment_of state.now.rows cid ≡ Some comment.now }
    ensures { IfOk result (λ verdict. told verdict ≡ change_there state.now account.now.viewer asked.now.status asked.now.body pass cid comment.now) }
{
    if let Some(refusal) = change_denial(alloc, state, account, cid, asked.status)? {
        return Ok(Verdict::Refused(refusal));
    }
    match &asked.body {
        Checked::Broken(field, rule) => broken_body(alloc, field, *rule),
        Checked::Right(patch) => change_right(alloc, state, cid, comment, patch, pass),
    }
}

/// What refuses a viewer that changes a comment that is there, and publishes it or not, where that is sent. `Err` only
/// where memory is wanting.
fn change_denial(
    alloc: Global,
    state: &State,
    account: &Account,
    cid: u32,
    status: bool,
) -> Result<Option<Refusal>, AllocError>
    requires account { IsAccountOf state.now.rows account.now.viewer account.now }
    requires there { IsSome (comment_of state.now.rows cid) }
    ensures { IfOk result (λ cause. cause ≡ first_cause (change_denials state.now.rows account.now.viewer cid status)) }
{
    if let Some(refusal) = comment_denial(alloc, state, account, Op::Update, cid)? {
        return Ok(Some(refusal));
    }
    key_needs(alloc, account, status, administer_comments())
}

/// To change a comment that is there, by a viewer that may. `Err` only where memory is wanting.
fn change_right(
    alloc: Global,
    state: &State,
    cid: u32,
    comment: &Comment,
    patch: &CommentPatch,
    pass: u32,
) -> Result<Verdict, AllocError>
    ensures { IfOk result (λ verdict. told verdict ≡ change_right state.now pass cid comment.now patch.now) }
{
    let changed = patched_comment(alloc, comment, patch)?;
    let commit = setting(alloc, pass, Cell::Comment(cid), Row::Comment(changed))?;
    accepted(alloc, state, commit, Done::Saved)
}

/// The comment as a body changes it. `Err` only where memory is wanting.
fn patched_comment(
    alloc: Global,
    comment: &Comment,
    patch: &CommentPatch,
) -> Result<Comment, AllocError>
    ensures { IfOk result (λ changed. changed ≡ patched_comment comment.now patch.now) }
{
    let (body, uuid) = both(
        sent_copy(alloc, &patch.body, &comment.body),
        comment.uuid.duplicate(alloc),
    )?;
    Ok(Comment {
        body,
        created: comment.created,
        node: comment.node,
        parent: comment.parent,
        status: patch.status.unwrap_or(comment.status),
        uid: comment.uid,
        uuid,
    })
}

/// To remove a comment that is there, with all replies below it. `Err` only where memory is wanting.
pub fn remove_comment(
    alloc: Global,
    state: &State,
    account: &Account,
    asked: Option<u32>,
    pass: u32,
) -> Result<Verdict, AllocError>
    requires { IsAccountOf state.now.rows account.now.viewer account.now }
    ensures { IfOk result (λ verdict. told verdict ≡ remove_comment state.now account.now.viewer asked pass) }
{
    let Some(cid) = asked else {
        return Ok(Verdict::Refused(Refusal::NoTarget));
    };
    let (comment, _) = state.comment(cid);
    let Some(comment) = comment else {
        return Ok(Verdict::Refused(Refusal::NoTarget));
    };
    if let Some(refusal) = comment_denial(alloc, state, account, Op::Delete, cid)? {
        return Ok(Verdict::Refused(refusal));
    }
    let commit = thread_removal(alloc, state, pass, cid, comment)?;
    accepted(alloc, state, commit, Done::Saved)
}

/// An edit that removes a comment with all whose chain of parents has it. `Err` only where memory is wanting.
fn thread_removal(
    alloc: Global,
    state: &State,
    pass: u32,
    cid: u32,
    comment: &Comment,
) -> Result<Commit, AllocError>
    ensures { IfOk result (λ commit. commit ≡ commit_of pass (remove_writes state.now.rows cid comment.now)) }
{
    let mut writes = Vec::new(alloc);
    'comments: for key in state.comment_keys(comment.node) {
        if state.is_reply_within(cid, key.id) {
            writes.push(removed(Cell::Comment(key.id)))?;
        }
    }
    Ok(commit_of(alloc, pass, writes))
}

/// An edit that removes a node with all comments on it. `Err` only where memory is wanting.
pub fn node_removal(alloc: Global, state: &State, pass: u32, nid: u32) -> Result<Commit, AllocError>
    ensures { IfOk result (λ commit. commit ≡ commit_of pass (node_remove_writes state.now.rows nid)) }
{
    let mut writes = Vec::new(alloc);
    writes.push(removed(Cell::Node(nid)))?;
    'comments: for key in state.comment_keys(nid) {
        writes.push(removed(Cell::Comment(key.id)))?;
    }
    Ok(commit_of(alloc, pass, writes))
}

/// The write that removes the row of a cell.
fn removed(cell: Cell) -> Write
    ensures { result ≡ removed_write cell }
{
    Write { cell, row: None }
}
