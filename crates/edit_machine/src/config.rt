//! Edits of what is configured by whole rows: roles, content types, blocks, menus, listings and the settings.
ghost use Rattle.std.specs.Prelude.{◌≡◌, IfOk};
ghost use Rattle.site_access.specs.Account.{IsAccountOf};
ghost use Rattle.site_commands.specs.Causes.{told};
ghost use Rattle.site_commands.specs.Config.{
  permission_for,
  cell_for,
  absent_term,
  row_refusals,
  set_right,
  set_row,
  set_config,
  set_site,
  remove_refusals,
  remove_there,
  remove_config,
};
ghost use Rattle.valid_edits.specs.Fits.{is_locked_role};
ghost use Rattle.edit_machine.specs.First.{first_cause};

use crate::causes::{accepted, broken, broken_body, needs, removal, setting};
use crate::nodes::path_taken;
use crate::permission;
use cacheability::Name;
use content_rows::{Cell, Duplicate, Row};
use content_state::State;
use json_keys::{Checked, Rule};
use site_access::Account;
use site_commands::{ConfigKind, Done, Refusal, Verdict};
use std::alloc::{AllocError, Global};
use valid_edits::is_used;

/// To make or to replace a row that has a name. `Err` only where memory is wanting.
pub fn set_config(
    alloc: Global,
    state: &State,
    account: &Account,
    kind: ConfigKind,
    name: &Option<Name>,
    body: &Checked<Row>,
    pass: u32,
) -> Result<Verdict, AllocError>
    requires { IsAccountOf state.now.rows account.now.viewer account.now }
    ensures { IfOk result (λ verdict. told verdict ≡ set_config state.now account.now.viewer kind name.now body.now pass) }
{
    let Some(name) = name else {
        return Ok(Verdict::Refused(Refusal::NoTarget));
    };
    let cell = cell_for(kind, name);
    set_row(
        alloc,
        state,
        account,
        permission_for(kind),
        body,
        pass,
        &cell,
    )
}

/// To replace the settings of the site. `Err` only where memory is wanting.
pub fn set_site(
    alloc: Global,
    state: &State,
    account: &Account,
    body: &Checked<Row>,
    pass: u32,
) -> Result<Verdict, AllocError>
    requires { IsAccountOf state.now.rows account.now.viewer account.now }
    ensures { IfOk result (λ verdict. told verdict ≡ set_site state.now account.now.viewer body.now pass) }
{
    let permission = permission::administer_site();
    set_row(alloc, state, account, permission, body, pass, &Cell::Site)
}

/// To make or to replace the row of a cell, which needs a permission. `Err` only where memory is wanting.
fn set_row(
    alloc: Global,
    state: &State,
    account: &Account,
    permission: &[u8],
    body: &Checked<Row>,
    pass: u32,
    cell: &Cell,
) -> Result<Verdict, AllocError>
    requires { IsAccountOf state.now.rows account.now.viewer account.now }
    ensures { IfOk result (λ verdict. told verdict ≡ set_row state.now account.now.viewer permission.now body.now pass cell.now) }
{
    if let Some(refusal) = needs(alloc, account, permission)? {
        return Ok(Verdict::Refused(refusal));
    }
    match body {
        Checked::Broken(field, rule) => broken_body(alloc, field, *rule),
        Checked::Right(row) => set_right(alloc, state, pass, cell, row),
    }
}

/// To make or to replace the row of a cell, by a viewer that may. `Err` only where memory is wanting.
fn set_right(
    alloc: Global,
    state: &State,
    pass: u32,
    cell: &Cell,
    row: &Row,
) -> Result<Verdict, AllocError>
    ensures { IfOk result (λ verdict. told verdict ≡ set_right state.now pass cell.now row.now) }
{
    if let Some(refusal) = row_refusal(alloc, state, cell, row)? {
        return Ok(Verdict::Refused(refusal));
    }
    let commit = setting(alloc, pass, *cell, row.duplicate(alloc)?)?;
    accepted(alloc, state, commit, Done::Saved)
}

/// What refuses a row beside the others: a listing's term is there, and its path is its own. `Err` only where memory is
/// wanting.
fn row_refusal(
    alloc: Global,
    state: &State,
    cell: &Cell,
    row: &Row,
) -> Result<Option<Refusal>, AllocError>
    ensures { IfOk result (λ cause. cause ≡ first_cause (row_refusals state.now.rows cell.now row.now)) }
{
    let Row::Listing(listing) = row else {
        return Ok(None);
    };
    if let Some(refusal) = absent_term(alloc, state, listing.term)? {
        return Ok(Some(refusal));
    }
    Ok(path_taken(state, cell, &listing.path))
}

/// What refuses a term that is named and absent. `Err` only where memory is wanting.
fn absent_term(
    alloc: Global,
    state: &State,
    tid: Option<u32>,
) -> Result<Option<Refusal>, AllocError>
    ensures { IfOk result (λ cause. cause ≡ absent_term state.now.rows tid) }
{
    match tid {
        Some(tid) if state.term(tid).0.is_none() => {
            Ok(Some(broken(alloc, b"term", Rule::Absent)?))
        }
        _ => Ok(None),
    }
}

/// To remove a row that is there. `Err` only where memory is wanting.
pub fn remove_config(
    alloc: Global,
    state: &State,
    account: &Account,
    kind: ConfigKind,
    name: &Option<Name>,
    pass: u32,
) -> Result<Verdict, AllocError>
    requires { IsAccountOf state.now.rows account.now.viewer account.now }
    ensures { IfOk result (λ verdict. told verdict ≡ remove_config state.now account.now.viewer kind name.now pass) }
{
    let Some(name) = name else {
        return Ok(Verdict::Refused(Refusal::NoTarget));
    };
    if state.rows().get(cell_for(kind, name)).is_none() {
        return Ok(Verdict::Refused(Refusal::NoTarget));
    }
    remove_there(alloc, state, account, kind, pass, name)
}

/// To remove a row. `Err` only where memory is wanting.
fn remove_there(
    alloc: Global,
    state: &State,
    account: &Account,
    kind: ConfigKind,
    pass: u32,
    name: &Name,
) -> Result<Verdict, AllocError>
    requires { IsAccountOf state.now.rows account.now.viewer account.now }
    ensures { IfOk result (λ verdict. told verdict ≡ remove_there state.now account.now.viewer kind pass name.now) }
{
    if let Some(refusal) = needs(alloc, account, permission_for(kind))? {
        return Ok(Verdict::Refused(refusal));
    }
    if let Some(refusal) = remove_refusal(alloc, state, kind, name)? {
        return Ok(Verdict::Refused(refusal));
    }
    let commit = removal(alloc, pass, cell_for(kind, name))?;
    accepted(alloc, state, commit, Done::Saved)
}

/// What refuses to remove a row: the roles that every viewer or every user has stay, and so does a type that nodes
/// have. `Err` only where memory is wanting.
fn remove_refusal(
    alloc: Global,
    state: &State,
    kind: ConfigKind,
    name: &Name,
) -> Result<Option<Refusal>, AllocError>
    ensures { IfOk result (λ cause. cause ≡ first_cause (remove_refusals state.now.rows kind name.now)) }
{
    let rule = match kind {
        ConfigKind::Role if is_locked_role(name) => Rule::Locked,
        ConfigKind::NodeType if is_used(state, *name) => Rule::Used,
        _ => return Ok(None),
    };
    Ok(Some(broken(alloc, b"cell", rule)?))
}

/// Whether a role is one that every viewer or every user has.
#[tactic(auto, unfolding(content_rows::specs::Permission::anonymous, content_rows::specs::Permission::authenticated))]
fn is_locked_role(name: &Name) -> bool
    ensures { result ≡ is_locked_role name.now }
{
    name.as_bytes() == b"anonymous".as_slice() || name.as_bytes() == b"authenticated".as_slice()
}

/// The permission that a kind of rows needs.
fn permission_for(kind: ConfigKind) -> &'static [u8]
    ensures { result.now ≡ permission_for kind }
{
    match kind {
        ConfigKind::Role => permission::administer_permissions(),
        ConfigKind::NodeType => permission::administer_types(),
        ConfigKind::Block => permission::administer_blocks(),
        ConfigKind::Menu => permission::administer_menu(),
        ConfigKind::Listing => permission::administer_views(),
    }
}

/// The cell of a kind of rows and a name.
fn cell_for(kind: ConfigKind, name: &Name) -> Cell
    ensures { result ≡ cell_for kind name.now }
{
    match kind {
        ConfigKind::Role => Cell::Role(*name),
        ConfigKind::NodeType => Cell::NodeType(*name),
        ConfigKind::Block => Cell::Block(*name),
        ConfigKind::Menu => Cell::Menu(*name),
        ConfigKind::Listing => Cell::Listing(*name),
    }
}
