//! Edits of users.
ghost use Rattle.std.specs.Prelude.{◌≡◌, IfOk, None, is_some};
ghost use Rattle.indexed_rows.specs.Rows.{seq_of};
ghost use Rattle.indexed_rows.specs.declared.unique.Unique.TheVariants as unique;
ghost use Rattle.site_access.specs.Account.{IsAccountOf, OnRows};
ghost use Rattle.site_commands.specs.Causes.{told, of_target};
ghost use Rattle.site_commands.specs.Users.{
  denials,
  digest_of,
  salt_of,
  new_user,
  create_right,
  create_user,
  patched_user,
  change_right,
  change_there,
  change_user,
};
ghost use Rattle.valid_edits.specs.Holders.{holder};
ghost use Rattle.edit_machine.specs.First.{first_cause};

use crate::causes::{accepted, broken, broken_body, creation, is_last, key_needs, needs, setting};
use crate::nodes::{both, id_in, sent_copy, sent_or};
use crate::permission;
use cacheability::Name;
use content_rows::{Cell, Duplicate, Row, Seq, Text, User};
use content_state::{State, Unique};
use json_keys::{Checked, Rule};
use site_access::Account;
use site_commands::{
    Done, NewUser, Refusal, UserChange, UserCreation, UserKeys, UserPatch, Verdict,
};
use site_passwords::make_pass;
use std::alloc::{AllocError, Global};
use valid_edits::holder;

/// To make a user. `Err` only where memory is wanting.
pub fn create_user(
    alloc: Global,
    state: &State,
    account: &Account,
    asked: &UserCreation,
    now: u64,
    pass: u32,
) -> Result<Verdict, AllocError>
    requires { IsAccountOf state.now.rows account.now.viewer account.now }
    ensures { IfOk result (λ verdict. told verdict ≡ create_user state.now account.now.viewer asked.now now pass) }
{
    if let Some(refusal) = denial(alloc, account, asked.keys)? {
        return Ok(Verdict::Refused(refusal));
    }
    match &asked.body {
        Checked::Broken(field, rule) => broken_body(alloc, field, *rule),
        Checked::Right(new) => create_right(alloc, state, &asked.salt, new, now, pass),
    }
}

/// To make a user, by a viewer that may. `Err` only where memory is wanting.
fn create_right(
    alloc: Global,
    state: &State,
    salt: &Option<Name>,
    new: &NewUser,
    now: u64,
    pass: u32,
) -> Result<Verdict, AllocError>
    ensures { IfOk result (λ verdict. told verdict ≡ of_target (seq_of state.now.rows) (create_right state.now salt.now now pass new.now)) }
{
    let Some(seq) = state.seq() else {
        return Ok(Verdict::Refused(Refusal::NoTarget));
    };
    let cell = Cell::User(seq.user);
    if is_name_taken(state, &cell, &new.name) {
        return Ok(Verdict::Refused(broken(alloc, b"name", Rule::Taken)?));
    }
    if is_last(seq.user) {
        return Ok(Verdict::Refused(broken(alloc, b"seq", Rule::Full)?));
    }
    if let Some(other) = holder(state, &cell, Unique::UserUuid, &new.uuid) {
        return Ok(Verdict::Refused(Refusal::UuidTaken(id_in(other))));
    }
    let next = Seq {
        node: seq.node,
        term: seq.term,
        user: seq.user + 1,
    };
    let user = new_user(alloc, new, salt, now)?;
    let commit = creation(alloc, pass, next, cell, Row::User(user))?;
    accepted(alloc, state, commit, Done::UserCreated(seq.user))
}

/// The user that a body asks for. `Err` only where memory is wanting.
fn new_user(alloc: Global, new: &NewUser, salt: &Option<Name>, now: u64) -> Result<User, AllocError>
    ensures { IfOk result (λ user. user ≡ new_user new.now salt.now now) }
{
    let lists = both(new.grants.duplicate(alloc), new.roles.duplicate(alloc));
    let texts = both(new.name.duplicate(alloc), new.uuid.duplicate(alloc));
    let secrets = both(
        salt_of(alloc, salt, &new.pass, b""),
        digest_of(alloc, salt, &new.pass, &None),
    );
    let ((grants, roles), ((name, uuid), (salt, digest))) = both(lists, both(texts, secrets))?;
    Ok(User {
        created: now,
        grants,
        name,
        roles,
        salt,
        status: new.status.unwrap_or(true),
        uuid,
        digest,
    })
}

/// To change a user that is there. `Err` only where memory is wanting.
pub fn change_user(
    alloc: Global,
    state: &State,
    account: &Account,
    asked: &UserChange,
    pass: u32,
) -> Result<Verdict, AllocError>
    requires { IsAccountOf state.now.rows account.now.viewer account.now }
    ensures { IfOk result (λ verdict. told verdict ≡ change_user state.now account.now.viewer asked.now pass) }
{
    let Some(uid) = asked.uid else {
        return Ok(Verdict::Refused(Refusal::NoTarget));
    };
    match state.user(uid) {
        (Some(user), _) => change_there(alloc, state, account, asked, pass, uid, user),
        (None, _) => Ok(Verdict::Refused(Refusal::NoTarget)),
    }
}

/// To change a user: the viewer may, and the body breaks no rule. `Err` only where memory is wanting.
fn change_there(
    alloc: Global,
    state: &State,
    account: &Account,
    asked: &UserChange,
    pass: u32,
    uid: u32,
    user: &User,
) -> Result<Verdict, AllocError>
    requires { IsAccountOf state.now.rows account.now.viewer account.now }
    ensures { IfOk result (λ verdict. told verdict ≡ change_there state.now account.now.viewer asked.now pass uid user.now) }
{
    if let Some(refusal) = denial(alloc, account, asked.keys)? {
        return Ok(Verdict::Refused(refusal));
    }
    match &asked.body {
        Checked::Broken(field, rule) => broken_body(alloc, field, *rule),
        Checked::Right(patch) => change_right(alloc, state, &asked.salt, uid, user, patch, pass),
    }
}

/// To change a user that the viewer may change. `Err` only where memory is wanting.
fn change_right(
    alloc: Global,
    state: &State,
    salt: &Option<Name>,
    uid: u32,
    user: &User,
    patch: &UserPatch,
    pass: u32,
) -> Result<Verdict, AllocError>
    ensures { IfOk result (λ verdict. told verdict ≡ change_right state.now salt.now pass uid user.now patch.now) }
{
    let cell = Cell::User(uid);
    if is_name_taken(state, &cell, sent_or(&patch.name, &user.name)) {
        return Ok(Verdict::Refused(broken(alloc, b"name", Rule::Taken)?));
    }
    let changed = patched_user(alloc, user, patch, salt)?;
    let commit = setting(alloc, pass, cell, Row::User(changed))?;
    accepted(alloc, state, commit, Done::Saved)
}

/// The user as a body changes it. `Err` only where memory is wanting.
fn patched_user(
    alloc: Global,
    user: &User,
    patch: &UserPatch,
    salt: &Option<Name>,
) -> Result<User, AllocError>
    ensures { IfOk result (λ changed. changed ≡ patched_user user.now patch.now salt.now) }
{
    let lists = both(
        sent_copy(alloc, &patch.grants, &user.grants),
        sent_copy(alloc, &patch.roles, &user.roles),
    );
    let texts = both(
        sent_copy(alloc, &patch.name, &user.name),
        user.uuid.duplicate(alloc),
    );
    let secrets = both(
        salt_of(alloc, salt, &patch.pass, user.salt.as_slice()),
        digest_of(alloc, salt, &patch.pass, &user.digest),
    );
    let ((grants, roles), ((name, uuid), (salt, digest))) = both(lists, both(texts, secrets))?;
    Ok(User {
        created: user.created,
        grants,
        name,
        roles,
        salt,
        status: patch.status.unwrap_or(user.status),
        uuid,
        digest,
    })
}

/// What refuses a viewer that edits a user, and these keys of it. `Err` only where memory is wanting.
fn denial(alloc: Global, account: &Account, keys: UserKeys) -> Result<Option<Refusal>, AllocError>
    ensures { IfOk result (λ cause. OnRows account.now (λ rows. cause ≡ first_cause (denials rows account.now.viewer keys))) }
{
    if let Some(refusal) = needs(alloc, account, permission::administer_users())? {
        return Ok(Some(refusal));
    }
    if let Some(refusal) = key_needs(
        alloc,
        account,
        keys.grants,
        permission::administer_permissions(),
    )? {
        return Ok(Some(refusal));
    }
    key_needs(
        alloc,
        account,
        keys.roles,
        permission::administer_permissions(),
    )
}

/// Whether another user has the name.
fn is_name_taken(state: &State, cell: &Cell, name: &Text) -> bool
    ensures { result ≡ is_some (holder state.now.rows cell.now unique.UserName name.now) }
{
    holder(state, cell, Unique::UserName, name).is_some()
}

/// The digest to be kept: of the password that is sent, else the one that was kept. `Err` only where memory is wanting.
fn digest_of(
    alloc: Global,
    salt: &Option<Name>,
    pass: &Option<Text>,
    kept: &Option<Text>,
) -> Result<Option<Text>, AllocError>
    ensures { IfOk result (λ digest. digest ≡ digest_of salt.now pass.now kept.now) }
{
    match (salt, pass) {
        (Some(salt), Some(pass)) => {
            Ok(Some(make_pass(alloc, salt.as_bytes(), pass.as_slice())?))
        }
        _ => kept.duplicate(alloc),
    }
}

/// The salt to be kept: of the password that is sent, else the one that was kept. `Err` only where memory is wanting.
fn salt_of(
    alloc: Global,
    salt: &Option<Name>,
    pass: &Option<Text>,
    kept: &[u8],
) -> Result<Text, AllocError>
    ensures { IfOk result (λ text. text ≡ salt_of salt.now pass.now kept.now) }
{
    match (salt, pass) {
        (Some(salt), Some(_)) => Text::copied(alloc, salt.as_bytes()),
        _ => Text::copied(alloc, kept),
    }
}
