//! Why an edit is refused, and what is kept of one that is accepted.
ghost use Rattle.std.specs.Prelude.{◌≡◌, [], ◌∷◌, IfOk, IsSome, nat_le};
ghost use Rattle.access_result.specs.declared.reason.Reason.TheVariants as reason_is;
ghost use Rattle.indexed_rows.specs.Rows.{node_of, comment_of};
ghost use Rattle.site_access.specs.Access.{access_to_node, access_to_create};
ghost use Rattle.site_access.specs.Comments.{access_to_comment};
ghost use Rattle.site_access.specs.Account.{IsAccountOf, OnRows};
ghost use Rattle.site_access.specs.Depends.{access_of};
ghost use Rattle.site_commands.specs.Causes.{told, Refused, unless_allowed, needs, key_needs, set, removed, commit_of, accepted};
ghost use Rattle.site_commands.specs.declared.answer.Refusal.TheVariants as refusal_is;

use access_result::{AccessResult, PermissionText, Reason, Verdict as Access};
use cacheability::{Name, Op};
use content_rows::{Cell, Items, Row, Seq, Talk, Text};
use content_state::{Commit, State, Write};
use json_keys::Rule;
use site_access::Account;
use site_commands::{Done, Refusal, Verdict};
use state_commits::full_tag;
use std::alloc::{AllocError, Global};
use std::sync::Arc;

/// The refusal of what breaks a rule, by the key that breaks it. `Err` only where memory is wanting.
pub fn broken(alloc: Global, field: &[u8], rule: Rule) -> Result<Refusal, AllocError>
    ensures { IfOk result (λ refusal. refusal ≡ refusal_is.Broken field.now rule) }
{
    Ok(Refusal::Broken(Text::copied(alloc, field)?, rule))
}

/// The refusal of a body that breaks a rule by itself. `Err` only where memory is wanting.
pub fn broken_body(alloc: Global, field: &Text, rule: Rule) -> Result<Verdict, AllocError>
    ensures { IfOk result (λ verdict. told verdict ≡ Refused (refusal_is.Broken field.now rule)) }
{
    Ok(Verdict::Refused(broken(alloc, field.as_slice(), rule)?))
}

/// Whether an id to be given is the last, which stands for there being none left.
pub fn is_last(next: u32) -> bool
    ensures { result ≡ nat_le 4_294_967_295 next }
{
    next == u32::MAX
}

/// The refusal for want of a permission. `Err` only where memory is wanting.
pub fn lacking(alloc: Global, permission: &[u8]) -> Result<Refusal, AllocError>
    ensures { IfOk result (λ refusal. refusal ≡ refusal_is.Denied (reason_is.Permission permission.now)) }
{
    let permission = PermissionText::copied(alloc, permission)?;
    Ok(Refusal::Denied(Reason::Permission(permission)))
}

/// What refuses an edit that needs a permission. `Err` only where memory is wanting.
pub fn needs(
    alloc: Global,
    account: &Account,
    permission: &[u8],
) -> Result<Option<Refusal>, AllocError>
    ensures { IfOk result (λ cause. OnRows account.now (λ rows. cause ≡ needs rows account.now.viewer permission.now)) }
{
    if account.may(permission) {
        return Ok(None);
    }
    Ok(Some(lacking(alloc, permission)?))
}

/// What refuses an edit in whose body a key stands that needs a permission. `Err` only where memory is wanting.
pub fn key_needs(
    alloc: Global,
    account: &Account,
    stands: bool,
    permission: &[u8],
) -> Result<Option<Refusal>, AllocError>
    ensures { IfOk result (λ cause. OnRows account.now (λ rows. cause ≡ key_needs rows account.now.viewer stands permission.now)) }
{
    if stands {
        needs(alloc, account, permission)
    } else {
        Ok(None)
    }
}

/// What refuses to do this to a node that is there. `Err` only where memory is wanting.
pub fn node_denial(
    alloc: Global,
    state: &State,
    account: &Account,
    op: Op,
    nid: u32,
) -> Result<Option<Refusal>, AllocError>
    requires account { IsAccountOf state.now.rows account.now.viewer account.now }
    requires there { IsSome (node_of state.now.rows nid) }
    ensures { IfOk result (λ cause. cause ≡ unless_allowed (access_to_node state.now.rows account.now.viewer op nid)) }
{
    let access = account.node_access(alloc, state, op, nid)?;
    Ok(denial(alloc, access))
}

/// What refuses to do this to a comment that is there. `Err` only where memory is wanting.
pub fn comment_denial(
    alloc: Global,
    state: &State,
    account: &Account,
    op: Op,
    cid: u32,
) -> Result<Option<Refusal>, AllocError>
    requires account { IsAccountOf state.now.rows account.now.viewer account.now }
    requires there { IsSome (comment_of state.now.rows cid) }
    ensures { IfOk result (λ cause. cause ≡ unless_allowed (access_to_comment state.now.rows account.now.viewer op cid)) }
{
    let access = account.comment_access(alloc, state, op, cid)?;
    Ok(denial(alloc, access))
}

/// What refuses to make a node of a type. `Err` only where memory is wanting.
pub fn creation_denial(
    alloc: Global,
    account: &Account,
    node_type: &Name,
) -> Result<Option<Refusal>, AllocError>
    ensures { IfOk result (λ cause. OnRows account.now (λ rows. cause ≡ unless_allowed (access_to_create rows account.now.viewer node_type.now))) }
{
    let access = account.create_access(alloc, node_type)?;
    Ok(denial(alloc, access))
}

/// What refuses where access is denied. A reason that is not told is a permission without a name.
fn denial(alloc: Global, access: AccessResult) -> Option<Refusal>
    ensures { result ≡ unless_allowed (access_of access) }
{
    match (access.verdict, access.reason) {
        (Access::Allowed, _) => None,
        (Access::Neutral | Access::Forbidden, Some(reason)) => Some(Refusal::Denied(reason)),
        (Access::Neutral | Access::Forbidden, None) => Some(Refusal::Denied(Reason::Permission(
            PermissionText::from_vec(Vec::new(alloc)),
        ))),
    }
}

/// An edit that nothing refuses is accepted, unless a tag that it invalidates has a count that cannot be raised. `Err`
/// only where memory is wanting.
pub fn accepted(
    alloc: Global,
    state: &State,
    commit: Commit,
    done: Done,
) -> Result<Verdict, AllocError>
    ensures { IfOk result (λ verdict. told verdict ≡ accepted state.now commit done) }
{
    if let Some(tag) = full_tag(alloc, state, &commit)? {
        return Ok(Verdict::Refused(Refusal::CountFull(tag)));
    }
    Ok(Verdict::Commit(Arc::new(alloc, commit)?, done))
}

/// An edit that sets the row of a cell. `Err` only where memory is wanting.
pub fn setting(alloc: Global, pass: u32, cell: Cell, row: Row) -> Result<Commit, AllocError>
    ensures { IfOk result (λ commit. commit ≡ commit_of pass (set cell row ∷ [])) }
{
    // first of all, so that no way out ends a row by itself, which is proved kind by kind
    let write = set(alloc, cell, row)?;
    let mut writes = Vec::with_capacity(alloc, 1)?;
    writes.push(write)?;
    Ok(commit_of(alloc, pass, writes))
}

/// An edit that sets a new row, and the ids to be given next. `Err` only where memory is wanting.
pub fn creation(
    alloc: Global,
    pass: u32,
    next: Seq,
    cell: Cell,
    row: Row,
) -> Result<Commit, AllocError>
    ensures { IfOk result (λ commit. commit ≡ commit_of pass (set Cell.Seq (Row.Seq next) ∷ set cell row ∷ [])) }
{
    // first of all, as in `setting`
    let new = set(alloc, cell, row)?;
    let ids = set(alloc, Cell::Seq, Row::Seq(next))?;
    let mut writes = Vec::with_capacity(alloc, 2)?;
    writes.push(ids)?;
    writes.push(new)?;
    Ok(commit_of(alloc, pass, writes))
}

/// An edit that sets a new comment, and the id to be given next. `Err` only where memory is wanting.
pub fn commenting(
    alloc: Global,
    pass: u32,
    next: u32,
    cell: Cell,
    row: Row,
) -> Result<Commit, AllocError>
    ensures { IfOk result (λ commit. commit ≡ commit_of pass (set Cell.Talk (Row.Talk (record { comment = next })) ∷ set cell row ∷ [])) }
{
    // first of all, as in `setting`
    let new = set(alloc, cell, row)?;
    let ids = set(alloc, Cell::Talk, Row::Talk(Talk { comment: next }))?;
    let mut writes = Vec::with_capacity(alloc, 2)?;
    writes.push(ids)?;
    writes.push(new)?;
    Ok(commit_of(alloc, pass, writes))
}

/// An edit that removes the row of a cell. `Err` only where memory is wanting.
pub fn removal(alloc: Global, pass: u32, cell: Cell) -> Result<Commit, AllocError>
    ensures { IfOk result (λ commit. commit ≡ commit_of pass (removed cell ∷ [])) }
{
    let mut writes = Vec::with_capacity(alloc, 1)?;
    writes.push(Write { cell, row: None })?;
    Ok(commit_of(alloc, pass, writes))
}

/// The write that sets the row of a cell. `Err` only where memory is wanting.
fn set(alloc: Global, cell: Cell, row: Row) -> Result<Write, AllocError>
    ensures { IfOk result (λ write. write ≡ set cell row) }
{
    Ok(Write {
        cell,
        row: Some(Arc::new(alloc, row)?),
    })
}

/// An edit of these writes.
pub fn commit_of(alloc: Global, pass: u32, writes: Vec<Write>) -> Commit
    ensures { result ≡ commit_of pass writes.items }
{
    Commit {
        writes: Items::from_vec(writes),
        extra: Items::none(alloc),
        pass,
    }
}
