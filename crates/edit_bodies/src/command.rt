//! Edits as commands.
ghost use Rattle.std.specs.Prelude.{◌≡◌, IfOk};
ghost use Rattle.serde_json.specs.View.{view};
ghost use Rattle.site_commands.specs.Right.{IsRight};
ghost use Rattle.edit_bodies.specs.Bodies.{object_in, form_in, sent_of};
ghost use Rattle.edit_bodies.specs.Commands.{
  words_or,
  salt_in,
  credentials,
  node_creation,
  node_change,
  term_change,
  user_creation,
  user_change,
  comment_creation,
  comment_change,
  command_at,
  command_in,
  draws,
};

use crate::body::{Body, brief_in};
use crate::keys::{has, node_keys, node_type_in, user_keys};
use crate::words::{Words, digits_of};
use body_kinds::{
    comment_patch, config_row, new_comment, new_node, new_term, new_user, node_patch, settings_row,
    term_patch, user_patch,
};
use cacheability::Name;
use content_rows::Duplicate;
use edit_paths::Edit;
use json_keys::walk;
use serde_json::{Map, Value};
use site_commands::{
    Command, CommentChange, CommentCreation, Credentials, NodeChange, NodeCreation, TermChange,
    UserChange, UserCreation,
};
use std::alloc::{AllocError, Global};

/// Whether an edit takes two words of chance: to log in, and to make or to change a user with the key
/// `pass`, whatever its value. It takes no memory.
#[tactic(auto, unfolding(crate::specs::Bodies::sent_of, crate::specs::Commands::draws))]
pub fn draws(edit: &Edit, body: &Body) -> bool
    ensures { result ≡ draws edit.now (sent_of body.now) }
{
    match (edit, body) {
        (Edit::Login, _) => true,
        (Edit::CreateUser, Body::Object(object)) => has(object.brief(), "pass"),
        (Edit::ChangeUser(_), Body::Object(object)) => has(object.brief(), "pass"),
        _ => false,
    }
}

/// The command that an edit with a body is. Where the edit takes words of chance and none are given,
/// they are 0. A body that is not what the edit reads counts as an empty one. `Err` only where memory
/// is wanting.
#[tactic(auto, unfolding(crate::specs::Bodies::sent_of, crate::specs::Commands::command_in))]
pub fn command_of(
    alloc: Global,
    edit: &Edit,
    body: &Body,
    words: Option<Words>,
) -> Result<Command, AllocError>
    ensures same { IfOk result (λ c. c ≡ command_in edit.now (sent_of body.now) words) }
    ensures right { IfOk result IsRight }
{
    let empty = Value::Object(Map::new(alloc));
    let value = brief_in(body, &empty);
    walk(value);
    command_at(alloc, edit, value, body, words)
}

/// The command that an edit with an object is, or with the form that a body is.
fn command_at(
    alloc: Global,
    edit: &Edit,
    value: &Value,
    body: &Body,
    words: Option<Words>,
) -> Result<Command, AllocError>
    ensures { IfOk result (λ c. c ≡ command_at edit.now (view value.now) (form_in body.now) words) }
{
    Ok(match edit {
        Edit::CreateNode => Command::CreateNode(node_creation(alloc, value)?),
        Edit::ChangeNode(nid) => Command::ChangeNode(node_change(alloc, *nid, value)?),
        Edit::RemoveNode(nid) => Command::RemoveNode(*nid),
        Edit::CreateTerm => Command::CreateTerm(new_term(alloc, value)?),
        Edit::ChangeTerm(tid) => Command::ChangeTerm(term_change(alloc, *tid, value)?),
        Edit::RemoveTerm(tid) => Command::RemoveTerm(*tid),
        Edit::CreateUser => Command::CreateUser(user_creation(alloc, value, words)?),
        Edit::ChangeUser(uid) => Command::ChangeUser(user_change(alloc, *uid, value, words)?),
        Edit::Set(kind, name) => Command::Set(*kind, *name, config_row(alloc, *kind, value)?),
        Edit::Remove(kind, name) => Command::Remove(*kind, *name),
        Edit::SetSite => Command::SetSite(settings_row(alloc, value)?),
        Edit::Login => Command::Login(credentials(alloc, body, words)?),
        Edit::Logout => Command::Logout,
        Edit::Rebuild => Command::Rebuild,
        Edit::CreateComment(nid) => Command::CreateComment(comment_creation(alloc, *nid, value)?),
        Edit::ChangeComment(cid) => Command::ChangeComment(comment_change(alloc, *cid, value)?),
        Edit::RemoveComment(cid) => Command::RemoveComment(*cid),
    })
}

/// To make a node.
fn node_creation(alloc: Global, value: &Value) -> Result<NodeCreation, AllocError>
    ensures { IfOk result (λ asked. asked ≡ node_creation (view value.now)) }
{
    Ok(NodeCreation {
        node_type: node_type_in(value),
        keys: node_keys(alloc, value)?,
        body: new_node(alloc, value)?,
    })
}

/// To change a node.
fn node_change(alloc: Global, nid: Option<u32>, value: &Value) -> Result<NodeChange, AllocError>
    ensures { IfOk result (λ asked. asked ≡ node_change nid (view value.now)) }
{
    Ok(NodeChange {
        nid,
        keys: node_keys(alloc, value)?,
        body: node_patch(alloc, value)?,
    })
}

/// To change a term.
fn term_change(alloc: Global, tid: Option<u32>, value: &Value) -> Result<TermChange, AllocError>
    ensures { IfOk result (λ asked. asked ≡ term_change tid (view value.now)) }
{
    Ok(TermChange {
        tid,
        body: term_patch(alloc, value)?,
    })
}

/// To comment on a node.
fn comment_creation(
    alloc: Global,
    nid: Option<u32>,
    value: &Value,
) -> Result<CommentCreation, AllocError>
    ensures { IfOk result (λ asked. asked ≡ comment_creation nid (view value.now)) }
{
    Ok(CommentCreation {
        nid,
        body: new_comment(alloc, value)?,
    })
}

/// To change a comment.
fn comment_change(
    alloc: Global,
    cid: Option<u32>,
    value: &Value,
) -> Result<CommentChange, AllocError>
    ensures { IfOk result (λ asked. asked ≡ comment_change cid (view value.now)) }
{
    Ok(CommentChange {
        cid,
        status: has(value, "status"),
        body: comment_patch(alloc, value)?,
    })
}

/// To make a user.
fn user_creation(
    alloc: Global,
    value: &Value,
    words: Option<Words>,
) -> Result<UserCreation, AllocError>
    ensures { IfOk result (λ asked. asked ≡ user_creation (view value.now) words) }
{
    Ok(UserCreation {
        keys: user_keys(value),
        salt: salt_in(value, words),
        body: new_user(alloc, value)?,
    })
}

/// To change a user.
fn user_change(
    alloc: Global,
    uid: Option<u32>,
    value: &Value,
    words: Option<Words>,
) -> Result<UserChange, AllocError>
    ensures { IfOk result (λ asked. asked ≡ user_change uid (view value.now) words) }
{
    Ok(UserChange {
        uid,
        keys: user_keys(value),
        salt: salt_in(value, words),
        body: user_patch(alloc, value)?,
    })
}

/// The salt of a new password, where the key `pass` stands in the object.
fn salt_in(value: &Value, words: Option<Words>) -> Option<Name>
    ensures { result ≡ salt_in (view value.now) words }
{
    if has(value, "pass") {
        Some(digits_of(words_or(words)))
    } else {
        None
    }
}

/// What somebody logs in with.
fn credentials(alloc: Global, body: &Body, words: Option<Words>) -> Result<Credentials, AllocError>
    ensures { IfOk result (λ asked. asked ≡ credentials (form_in body.now) words) }
{
    let token = digits_of(words_or(words));
    match body {
        Body::Form(form) => Ok(Credentials {
            name: form.name.duplicate(alloc)?,
            pass: form.pass.duplicate(alloc)?,
            token,
        }),
        _ => Ok(Credentials {
            name: None,
            pass: None,
            token,
        }),
    }
}

/// The words that were drawn.
fn words_or(words: Option<Words>) -> Words
    ensures { result ≡ words_or words }
{
    match words {
        Some(words) => words,
        None => Words {
            first: 0,
            second: 0,
        },
    }
}
