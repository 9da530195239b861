//! Logging in and out, and what lets every kept piece be made again.
ghost use Rattle.std.specs.Prelude.{◌≡◌, IfOk, Some, option_map};
ghost use Rattle.std.specs.List.{find};
ghost use Rattle.site_access.specs.Account.{IsAccountOf};
ghost use Rattle.site_commands.specs.Causes.{told};
ghost use Rattle.site_commands.specs.Sessions.{is_user_with, users_of, user_with, session_end, open_session, log_in, log_out, rebuilding, rebuild};

use crate::causes::{accepted, needs, removal, setting};
use crate::permission;
use access_result::Reason;
use cacheability::{Name, Tag};
use content_rows::{Cell, Items, Row, Session, User};
use content_state::{Commit, State, Unique, Viewer};
use site_access::Account;
use site_commands::{Credentials, Done, Refusal, Verdict};
use site_passwords::check_pass;
use std::alloc::{AllocError, Global};

/// How long a session is, in seconds: a week.
const LENGTH: u64 = 604_800;

/// The last moment that there is, in seconds since 1970: the beginning of the year 2100.
const LAST_MOMENT: u64 = 4_102_444_800;

/// To log in with a name and a password. `Err` only where memory is wanting.
pub fn log_in(
    alloc: Global,
    state: &State,
    asked: &Credentials,
    now: u64,
    pass: u32,
) -> Result<Verdict, AllocError>
    ensures { IfOk result (λ verdict. told verdict ≡ log_in state.now asked.now now pass) }
{
    match user_with(state, asked) {
        Some(uid) => open_session(alloc, state, &asked.token, now, pass, uid),
        None => Ok(Verdict::Refused(Refusal::Denied(Reason::Unrecognized))),
    }
}

/// The id of the first active user that has the name and the password, where both are sent.
fn user_with(state: &State, asked: &Credentials) -> Option<u32>
    ensures { result ≡ option_map (λ found. found.0) (user_with state.now.rows asked.now.name asked.now.pass) }
{
    match (&asked.name, &asked.pass) {
        (Some(name), Some(pass)) => first_user(state, name.as_slice(), pass.as_slice()),
        _ => None,
    }
}

/// The id of the first active user that has the name and the password.
fn first_user(state: &State, name: &[u8], pass: &[u8]) -> Option<u32>
    ensures { result ≡ option_map (λ found. found.0) (find (λ e. is_user_with name.now pass.now e.1) (users_of state.now.rows)) }
{
    'rows: for (cell, row) in state.rows_with(Unique::UserName, name) {
        if let (Cell::User(uid), Row::User(user)) = (cell, row) {
            if is_user_with(name, pass, user) {
                return Some(*uid);
            }
        }
    }
    None
}

/// Whether a user is active and has the name and the password. A digest is made only where the name fits.
fn is_user_with(name: &[u8], pass: &[u8], user: &User) -> bool
    ensures { result ≡ is_user_with name.now pass.now user.now }
{
    user.status && user.name.as_slice() == name && check_pass(user, pass)
}

/// To begin a session of a user. `Err` only where memory is wanting.
fn open_session(
    alloc: Global,
    state: &State,
    token: &Name,
    now: u64,
    pass: u32,
    uid: u32,
) -> Result<Verdict, AllocError>
    ensures { IfOk result (λ verdict. told verdict ≡ open_session state.now token.now now pass uid) }
{
    if state.session(*token).is_some() {
        return Ok(Verdict::Refused(Refusal::TokenClash));
    }
    let session = Session {
        expires: session_end(now),
        uid,
    };
    let commit = setting(alloc, pass, Cell::Session(*token), Row::Session(session))?;
    accepted(alloc, state, commit, Done::LoggedIn(uid, *token))
}

/// When a session ends that begins now.
fn session_end(now: u64) -> u64
    ensures { result ≡ session_end now }
{
    now.saturating_add(LENGTH).min(LAST_MOMENT)
}

/// To end the viewer's session. `Err` only where memory is wanting.
pub fn log_out(
    alloc: Global,
    state: &State,
    viewer: &Viewer,
    pass: u32,
) -> Result<Verdict, AllocError>
    ensures { IfOk result (λ verdict. told verdict ≡ log_out state.now viewer.now pass) }
{
    match &viewer.session {
        Some(token) => {
            let commit = removal(alloc, pass, Cell::Session(*token))?;
            accepted(alloc, state, commit, Done::LoggedOut)
        }
        None => Ok(Verdict::Refused(Refusal::Denied(Reason::NoSession))),
    }
}

/// To let every kept piece of a page be made again. `Err` only where memory is wanting.
/// <https://www.drupal.org/docs/drupal-apis/cache-api/cache-tags>
pub fn rebuild(
    alloc: Global,
    state: &State,
    account: &Account,
    pass: u32,
) -> Result<Verdict, AllocError>
    requires { IsAccountOf state.now.rows account.now.viewer account.now }
    ensures { IfOk result (λ verdict. told verdict ≡ rebuild state.now account.now.viewer pass) }
{
    if let Some(refusal) = needs(alloc, account, permission::administer_site())? {
        return Ok(Verdict::Refused(refusal));
    }
    accepted(alloc, state, rebuilding(alloc, pass)?, Done::Saved)
}

/// The edit that writes nothing and invalidates every kept piece. `Err` only where memory is wanting.
fn rebuilding(alloc: Global, pass: u32) -> Result<Commit, AllocError>
    ensures { IfOk result (λ commit. commit ≡ rebuilding pass) }
{
    Ok(Commit {
        writes: Items::none(alloc),
        extra: Items::one(alloc, Tag::Rendered)?,
        pass,
    })
}
