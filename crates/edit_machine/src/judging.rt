//! Judging edits.
ghost use Rattle.std.specs.Prelude.{◌≡◌, IfOk};
ghost use Rattle.site_access.specs.Account.{IsAccountOf};
ghost use Rattle.site_commands.specs.Causes.{told};
ghost use Rattle.site_commands.specs.Verdict.{verdict};

use crate::comments::{change_comment, create_comment, remove_comment};
use crate::config::{remove_config, set_config, set_site};
use crate::nodes::{change_node, create_node, remove_node};
use crate::sessions::{log_in, log_out, rebuild};
use crate::terms::{change_term, create_term, remove_term};
use crate::users::{change_user, create_user};
use content_state::{State, Viewer};
use site_access::Account;
use site_commands::{Command, Verdict};
use std::alloc::{AllocError, Global};

/// What becomes of an edit that a viewer asks for on a state, at a moment in seconds since 1970: it is accepted, with
/// what is to be kept, which bears the number of the pass, and what is done then; or it is refused for the first of
/// these causes that is there:
///
/// - `NoTarget`: the row that is named is not there, or its id or name is none; for a node to be made its type;
/// - `Denied`: the viewer may not do this, or may not set a key or a field that stands in the body, whatever its value;
///   no active user has the name and the password that somebody logs in with; who logs out has no session;
/// - `TokenClash`: a session of the token that somebody is to be logged in with is there;
/// - `Broken`: a rule is broken, of the body by itself; or `Unknown` for a field that the type hasn't, `Absent` for
///   nodes, terms, a user or a comment on the same node that are named, `Cycle` and `Deep` for a parent with which a
///   chain of parents would come back to itself or have more than nine terms or comments, `Many` for a node that has
///   1,000 comments, `Taken` for a user's name, `Locked` for a role that stays, `Used` for a type that nodes have or a
///   term that is another's parent, `Full` where there is no id or no version left;
/// - `UuidTaken`: another row of the kind has the universal id;
/// - `Stale`: the version that the change was made of is not the node's;
/// - `PathTaken`: another row has the path;
/// - `CountFull`: a tag that the edit invalidates has a count that cannot be raised, the first such tag by its text.
///
/// The values that guard forms and the length of a log are no matter of this call. It changes nothing. `Err` only where
/// memory is wanting.
/// <https://www.drupal.org/docs/8/api/entity-api/access-on-entities>
pub fn judge(
    alloc: Global,
    state: &State,
    viewer: &Viewer,
    command: &Command,
    now: u64,
    pass: u32,
) -> Result<Verdict, AllocError>
    ensures decided { IfOk result (λ v. told v ≡ verdict state.now viewer.now command.now now pass) }
{
    let account = account_of(alloc, state, viewer)?;
    judge_for(alloc, state, &account, command, now, pass)
}

/// The viewer with what it may do. `Err` only where memory is wanting.
fn account_of(alloc: Global, state: &State, viewer: &Viewer) -> Result<Account, AllocError>
    ensures viewer { IfOk result (λ account. account.viewer ≡ viewer.now) }
    ensures account { IfOk result (λ account. IsAccountOf state.now.rows account.viewer account) }
{
    Account::new(alloc, state, viewer)
}

/// What becomes of an edit that a viewer asks for on a state. `Err` only where memory is wanting.
#[tactic(auto, unfolding(site_commands::specs::Verdict::verdict))]
fn judge_for(
    alloc: Global,
    state: &State,
    account: &Account,
    command: &Command,
    now: u64,
    pass: u32,
) -> Result<Verdict, AllocError>
    requires { IsAccountOf state.now.rows account.now.viewer account.now }
    ensures { IfOk result (λ v. told v ≡ verdict state.now account.now.viewer command.now now pass) }
{
    match command {
        Command::CreateNode(asked) => create_node(alloc, state, account, asked, now, pass),
        Command::ChangeNode(asked) => change_node(alloc, state, account, asked, now, pass),
        Command::RemoveNode(nid) => remove_node(alloc, state, account, *nid, pass),
        Command::CreateTerm(body) => create_term(alloc, state, account, body, pass),
        Command::ChangeTerm(asked) => change_term(alloc, state, account, asked, pass),
        Command::RemoveTerm(tid) => remove_term(alloc, state, account, *tid, pass),
        Command::CreateUser(asked) => create_user(alloc, state, account, asked, now, pass),
        Command::ChangeUser(asked) => change_user(alloc, state, account, asked, pass),
        Command::Set(kind, name, body) => {
            set_config(alloc, state, account, *kind, name, body, pass)
        }
        Command::Remove(kind, name) => remove_config(alloc, state, account, *kind, name, pass),
        Command::SetSite(body) => set_site(alloc, state, account, body, pass),
        Command::Login(asked) => log_in(alloc, state, asked, now, pass),
        Command::Logout => log_out(alloc, state, &account.viewer, pass),
        Command::Rebuild => rebuild(alloc, state, account, pass),
        Command::CreateComment(asked) => create_comment(alloc, state, account, asked, now, pass),
        Command::ChangeComment(asked) => change_comment(alloc, state, account, asked, pass),
        Command::RemoveComment(cid) => remove_comment(alloc, state, account, *cid, pass),
    }
}
