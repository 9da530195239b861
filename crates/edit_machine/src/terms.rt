//! Edits of taxonomy terms.
ghost use Rattle.std.specs.Prelude.{◌≡◌, IfOk, IsSome, Some};
ghost use Rattle.std.specs.List.{list_any};
ghost use Rattle.indexed_rows.specs.Rows.{with_row, seq_of, term_of, terms_of};
ghost use Rattle.content_state.specs.SiteRules.{is_absent};
ghost use Rattle.site_access.specs.Account.{IsAccountOf};
ghost use Rattle.site_commands.specs.Causes.{told, of_target};
ghost use Rattle.site_commands.specs.Terms.{
  is_deep,
  is_cyclic,
  bad_trees,
  new_term,
  create_right,
  create_term,
  patched_term,
  sent_parent_refusals,
  change_right,
  change_term,
  remove_term,
};
ghost use Rattle.edit_machine.specs.First.{first_cause};

use crate::causes::{accepted, broken, broken_body, creation, is_last, needs, removal, setting};
use crate::nodes::{both, id_in, is_absent_term, sent_copy};
use crate::permission;
use content_rows::{Cell, Duplicate, Row, Seq, Term};
use content_state::{State, Unique};
use json_keys::{Checked, Rule};
use site_access::Account;
use site_commands::{Done, NewTerm, Refusal, TermChange, TermPatch, Verdict};
use std::alloc::{AllocError, Global};
use valid_edits::{holder, is_parent};

/// The most terms that a chain of parents may have.
const MOST_LEVELS: usize = 9;

/// To make a term. `Err` only where memory is wanting.
pub fn create_term(
    alloc: Global,
    state: &State,
    account: &Account,
    body: &Checked<NewTerm>,
    pass: u32,
) -> Result<Verdict, AllocError>
    requires { IsAccountOf state.now.rows account.now.viewer account.now }
    ensures { IfOk result (λ verdict. told verdict ≡ create_term state.now account.now.viewer body.now pass) }
{
    if let Some(refusal) = needs(alloc, account, permission::administer_taxonomy())? {
        return Ok(Verdict::Refused(refusal));
    }
    match body {
        Checked::Broken(field, rule) => broken_body(alloc, field, *rule),
        Checked::Right(new) => create_right(alloc, state, new, pass),
    }
}

/// To make a term, by a viewer that may. `Err` only where memory is wanting.
fn create_right(
    alloc: Global,
    state: &State,
    new: &NewTerm,
    pass: u32,
) -> Result<Verdict, AllocError>
    ensures { IfOk result (λ verdict. told verdict ≡ of_target (seq_of state.now.rows) (create_right state.now pass new.now)) }
{
    let Some(seq) = state.seq() else {
        return Ok(Verdict::Refused(Refusal::NoTarget));
    };
    if is_absent(state, new.parent) {
        return Ok(Verdict::Refused(broken(alloc, b"parent", Rule::Absent)?));
    }
    if is_new_deep(state, seq.term, new) {
        return Ok(Verdict::Refused(broken(alloc, b"parent", Rule::Deep)?));
    }
    if is_last(seq.term) {
        return Ok(Verdict::Refused(broken(alloc, b"seq", Rule::Full)?));
    }
    let cell = Cell::Term(seq.term);
    if let Some(other) = holder(state, &cell, Unique::TermUuid, &new.uuid) {
        return Ok(Verdict::Refused(Refusal::UuidTaken(id_in(other))));
    }
    let next = Seq {
        node: seq.node,
        term: seq.term + 1,
        user: seq.user,
    };
    let term = new_term(alloc, new)?;
    let commit = creation(alloc, pass, next, cell, Row::Term(term))?;
    accepted(alloc, state, commit, Done::TermCreated(seq.term))
}

/// Whether the chain of parents from a new term up is too long.
fn is_new_deep(state: &State, tid: u32, new: &NewTerm) -> bool
    ensures { result ≡ is_deep (with_row state.now.rows (Cell.Term tid) (Row.Term (new_term new.now))) tid }
{
    state.is_longer_with(tid, new.parent, MOST_LEVELS, tid)
}

/// The term that a body asks for. `Err` only where memory is wanting.
fn new_term(alloc: Global, new: &NewTerm) -> Result<Term, AllocError>
    ensures { IfOk result (λ term. term ≡ new_term new.now) }
{
    let texts = both(new.description.duplicate(alloc), new.name.duplicate(alloc));
    let ((description, name), uuid) = both(texts, new.uuid.duplicate(alloc))?;
    Ok(Term {
        description,
        name,
        parent: new.parent,
        status: new.status.unwrap_or(true),
        uuid,
    })
}

/// To change a term that is there. `Err` only where memory is wanting.
pub fn change_term(
    alloc: Global,
    state: &State,
    account: &Account,
    asked: &TermChange,
    pass: u32,
) -> Result<Verdict, AllocError>
    requires { IsAccountOf state.now.rows account.now.viewer account.now }
    ensures { IfOk result (λ verdict. told verdict ≡ change_term state.now account.now.viewer asked.now pass) }
{
    let Some(tid) = asked.tid else {
        return Ok(Verdict::Refused(Refusal::NoTarget));
    };
    let (term, _) = state.term(tid);
    let Some(term) = term else {
        return Ok(Verdict::Refused(Refusal::NoTarget));
    };
    if let Some(refusal) = needs(alloc, account, permission::administer_taxonomy())? {
        return Ok(Verdict::Refused(refusal));
    }
    match &asked.body {
        Checked::Broken(field, rule) => broken_body(alloc, field, *rule),
        Checked::Right(patch) => change_right(alloc, state, tid, term, patch, pass),
    }
}

/// To change a term that is there, by a viewer that may. `Err` only where memory is wanting.
fn change_right(
    alloc: Global,
    state: &State,
    tid: u32,
    term: &Term,
    patch: &TermPatch,
    pass: u32,
) -> Result<Verdict, AllocError>
    requires { term_of state.now.rows tid ≡ Some term.now }
    ensures { IfOk result (λ verdict. told verdict ≡ change_right state.now pass tid term.now patch.now) }
{
    let changed = patched_term(alloc, term, patch)?;
    if let Some(refusal) = parent_refusal(alloc, state, tid, patch.parent, &changed)? {
        return Ok(Verdict::Refused(refusal));
    }
    let commit = setting(alloc, pass, Cell::Term(tid), Row::Term(changed))?;
    accepted(alloc, state, commit, Done::Saved)
}

/// What refuses the parent that is sent, if one is, of a term that is to change so: it is absent, or it makes a chain of
/// parents wrong. `Err` only where memory is wanting.
fn parent_refusal(
    alloc: Global,
    state: &State,
    tid: u32,
    sent: Option<Option<u32>>,
    changed: &Term,
) -> Result<Option<Refusal>, AllocError>
    requires { IsSome (term_of state.now.rows tid) }
    ensures { IfOk result (λ cause. cause ≡ first_cause (sent_parent_refusals state.now.rows sent (with_row state.now.rows (Cell.Term tid) (Row.Term changed.now)))) }
{
    let Some(parent) = sent else {
        return Ok(None);
    };
    if is_absent(state, parent) {
        return Ok(Some(broken(alloc, b"parent", Rule::Absent)?));
    }
    tree_refusal(alloc, state, tid, changed)
}

/// What refuses the chains of parents of all terms, once a term changes so: one comes back to itself, or is too long.
/// `Err` only where memory is wanting.
fn tree_refusal(
    alloc: Global,
    state: &State,
    tid: u32,
    changed: &Term,
) -> Result<Option<Refusal>, AllocError>
    requires { IsSome (term_of state.now.rows tid) }
    ensures { IfOk result (λ cause. cause ≡ first_cause (bad_trees (with_row state.now.rows (Cell.Term tid) (Row.Term changed.now)))) }
{
    // a chain that comes back is too long as well
    if !has_deep(state, tid, changed) {
        return Ok(None);
    }
    let rule = if has_cyclic(state, tid, changed) {
        Rule::Cycle
    } else {
        Rule::Deep
    };
    Ok(Some(broken(alloc, b"parent", rule)?))
}

/// Whether a chain of parents is too long, once a term that is there changes so.
fn has_deep(state: &State, tid: u32, changed: &Term) -> bool
    requires { IsSome (term_of state.now.rows tid) }
    ensures { result ≡ list_any (λ e. is_deep (with_row state.now.rows (Cell.Term tid) (Row.Term changed.now)) e.0) (terms_of (with_row state.now.rows (Cell.Term tid) (Row.Term changed.now))) }
{
    state.stands_in_order();
    'terms: for key in state.terms() {
        if is_deep(state, tid, changed, key.id) {
            return true;
        }
    }
    false
}

/// Whether a chain of parents comes back to itself, once a term that is there changes so.
fn has_cyclic(state: &State, tid: u32, changed: &Term) -> bool
    requires { IsSome (term_of state.now.rows tid) }
    ensures { result ≡ list_any (λ e. is_cyclic (with_row state.now.rows (Cell.Term tid) (Row.Term changed.now)) e.0) (terms_of (with_row state.now.rows (Cell.Term tid) (Row.Term changed.now))) }
{
    state.stands_in_order();
    'terms: for key in state.terms() {
        if is_cyclic(state, tid, changed, key.id) {
            return true;
        }
    }
    false
}

/// Whether the chain of parents from a term up is too long, once a term changes so.
fn is_deep(state: &State, tid: u32, changed: &Term, id: u32) -> bool
    ensures { result ≡ is_deep (with_row state.now.rows (Cell.Term tid) (Row.Term changed.now)) id }
{
    state.is_longer_with(tid, changed.parent, MOST_LEVELS, id)
}

/// Whether the chain of parents from a term up comes back to itself, once a term that is there changes so.
fn is_cyclic(state: &State, tid: u32, changed: &Term, id: u32) -> bool
    requires { IsSome (term_of state.now.rows tid) }
    ensures { result ≡ is_cyclic (with_row state.now.rows (Cell.Term tid) (Row.Term changed.now)) id }
{
    state.stands_in_order();
    state.comes_back_with(tid, changed.parent, id)
}

/// Whether the parent is not there; a term that is to stand at the top has none.
fn is_absent(state: &State, parent: Option<u32>) -> bool
    ensures { result ≡ is_absent (term_of state.now.rows) parent }
{
    match parent {
        Some(tid) => is_absent_term(state, tid),
        None => false,
    }
}

/// The term as a body changes it. `Err` only where memory is wanting.
fn patched_term(alloc: Global, term: &Term, patch: &TermPatch) -> Result<Term, AllocError>
    ensures { IfOk result (λ changed. changed ≡ patched_term term.now patch.now) }
{
    let texts = both(
        sent_copy(alloc, &patch.description, &term.description),
        sent_copy(alloc, &patch.name, &term.name),
    );
    let ((description, name), uuid) = both(texts, term.uuid.duplicate(alloc))?;
    Ok(Term {
        description,
        name,
        parent: patch.parent.unwrap_or(term.parent),
        status: patch.status.unwrap_or(term.status),
        uuid,
    })
}

/// To remove a term that is there. `Err` only where memory is wanting.
pub fn remove_term(
    alloc: Global,
    state: &State,
    account: &Account,
    asked: Option<u32>,
    pass: u32,
) -> Result<Verdict, AllocError>
    requires { IsAccountOf state.now.rows account.now.viewer account.now }
    ensures { IfOk result (λ verdict. told verdict ≡ remove_term state.now account.now.viewer asked pass) }
{
    let Some(tid) = asked else {
        return Ok(Verdict::Refused(Refusal::NoTarget));
    };
    let (term, _) = state.term(tid);
    if term.is_none() {
        return Ok(Verdict::Refused(Refusal::NoTarget));
    }
    if let Some(refusal) = needs(alloc, account, permission::administer_taxonomy())? {
        return Ok(Verdict::Refused(refusal));
    }
    if is_parent(state, tid) {
        return Ok(Verdict::Refused(broken(alloc, b"cell", Rule::Used)?));
    }
    let commit = removal(alloc, pass, Cell::Term(tid))?;
    accepted(alloc, state, commit, Done::Saved)
}
