//! The values of contexts, and contexts that are left out.

use crate::club::{asked, name, site, viewer};
use cache_contexts::{AnyValue, optimise, value};
use cacheability::{Cacheability, Context, Name};
use content_rows::{Grant, Permissions, Text, ViewGrants};
use content_state::State;
use site_access::Account;
use std::alloc::{AllocError, Global};
use std::test::Fail;
use tag_counts::Counts;

/// Adds a comma, where something stands there, and a text.
fn add(out: &mut Vec<u8>, text: &[u8]) -> Result<(), AllocError> {
    if !out.is_empty() {
        out.push(b',')?;
    }
    out.extend_from_slice(text)
}

fn names_text(out: &mut Vec<u8>, names: &[Name]) -> Result<(), AllocError> {
    for name in names {
        add(out, name.as_bytes())?;
    }
    Ok(())
}

fn texts_text(out: &mut Vec<u8>, texts: &[Text]) -> Result<(), AllocError> {
    for text in texts {
        add(out, text.as_slice())?;
    }
    Ok(())
}

fn grants_text(alloc: Global, out: &mut Vec<u8>, grants: &[Grant]) -> Result<(), AllocError> {
    for grant in grants {
        add(out, grant.realm.as_bytes())?;
        let digits = grant.gid.to_string(alloc)?;
        out.push(b':')?;
        out.extend_from_slice(digits.as_bytes())?;
    }
    Ok(())
}

/// A number in digits.
fn number_text(alloc: Global, out: &mut Vec<u8>, number: u32) -> Result<(), AllocError> {
    let digits = number.to_string(alloc)?;
    add(out, digits.as_bytes())
}

/// What is absent, or may be.
fn optional_text(out: &mut Vec<u8>, text: Option<&[u8]>) -> Result<(), AllocError> {
    match text {
        Some(text) => {
            add(out, b"=")?;
            out.extend_from_slice(text)
        }
        None => add(out, b"-"),
    }
}

fn permissions_text(out: &mut Vec<u8>, permissions: &Permissions) -> Result<(), AllocError> {
    match permissions {
        Permissions::All => add(out, b"*"),
        Permissions::These(texts) => texts_text(out, texts.as_slice()),
    }
}

fn view_grants_text(
    alloc: Global,
    out: &mut Vec<u8>,
    grants: &ViewGrants,
) -> Result<(), AllocError> {
    match grants {
        ViewGrants::All => add(out, b"*"),
        ViewGrants::These(grants) => grants_text(alloc, out, grants.as_slice()),
    }
}

/// A value in letters: lists with commas, `*` for everything, `-` for what is absent and `=` before what may be.
fn value_text(alloc: Global, out: &mut Vec<u8>, value: &AnyValue) -> Result<(), AllocError> {
    match value {
        AnyValue::Name(name) => add(out, name.as_bytes()),
        AnyValue::Text(text) => add(out, text.as_slice()),
        AnyValue::Argument(text) => {
            optional_text(out, text.as_ref().map(|text| text.as_slice()))
        }
        AnyValue::Session(token) => {
            optional_text(out, token.as_ref().map(|token| token.as_bytes()))
        }
        AnyValue::User(uid) => number_text(alloc, out, *uid),
        AnyValue::Flag(flag) => add(out, if *flag { b"1" } else { b"0" }),
        AnyValue::Names(names) => names_text(out, names.as_slice()),
        AnyValue::Permissions(permissions) => permissions_text(out, permissions.get()),
        AnyValue::Grants(grants) => view_grants_text(alloc, out, grants.get()),
    }
}

fn letters(alloc: Global, value: &AnyValue) -> Result<Vec<u8>, AllocError> {
    let mut out = Vec::new(alloc);
    value_text(alloc, &mut out, value)?;
    Ok(out)
}

/// The context of a value, and the value in letters, for a user on a path.
fn found(
    alloc: Global,
    state: &State,
    uid: u32,
    path: &[u8],
    context: Context,
) -> Result<(Context, Vec<u8>), AllocError> {
    let ask = asked(alloc, path, b"page=2&sort=a+b")?;
    let account = Account::new(alloc, state, &viewer(uid))?;
    let found = value(alloc, state, &account, &ask, context)?;
    drop((ask, account));
    let letters = letters(alloc, &found.value)?;
    Ok((found.context, letters))
}

/// The context of a text, up to its parameter.
fn context_of(text: &str, parameter: Name) -> Context {
    match text {
        "theme" => Context::Theme,
        "user" => Context::User,
        "user.roles" => Context::UserRoles,
        "user.permissions" => Context::UserPermissions,
        "user.node_grants:view" => Context::NodeGrantsView,
        "url" => Context::Url,
        "url.path" => Context::UrlPath,
        "url.path.is_front" => Context::IsFront,
        "url.query_args" => Context::QueryArgs,
        "url.query_args:" => Context::QueryArg(parameter),
        "session" => Context::Session,
        "session.exists" => Context::SessionExists,
        "route.menu_active_trails:" => Context::MenuTrail(parameter),
        _ => Context::Language,
    }
}

/// A user, a path, a context with its parameter, and its value in letters.
type Row = (u32, &'static str, &'static str, &'static str, &'static str);

/// Whether a context has this value for a user on a path.
fn has_value(alloc: Global, state: &State, row: &Row) -> Result<bool, AllocError> {
    let (uid, path, text, parameter, wanted) = *row;
    let context = context_of(text, name(parameter.as_bytes())?);
    let (of, letters) = found(alloc, state, uid, path.as_bytes(), context)?;
    Ok(of == context && letters.as_slice() == wanted.as_bytes())
}

const VALUES: [Row; 25] = [
    (0, "/node/1", "languages:language_interface", "x", "en"),
    (0, "/node/1", "theme", "x", "site"),
    (0, "/node/1", "user", "x", "0"),
    (2, "/node/1", "user", "x", "2"),
    (0, "/node/1", "user.roles", "x", "anonymous"),
    (2, "/node/1", "user.roles", "x", "authenticated"),
    (0, "/node/1", "user.permissions", "x", "access content"),
    (1, "/node/1", "user.permissions", "x", "*"),
    (
        2,
        "/node/1",
        "user.permissions",
        "x",
        "access content,view own unpublished content",
    ),
    (0, "/node/1", "user.node_grants:view", "x", "all:0"),
    (1, "/node/1", "user.node_grants:view", "x", "*"),
    (2, "/node/1", "user.node_grants:view", "x", "all:0,club:7"),
    (0, "/node/1", "url", "x", "/node/1?page=2&sort=a+b"),
    (0, "/node/1", "url.path", "x", "/node/1"),
    (0, "/node/1", "url.path.is_front", "x", "0"),
    (0, "/", "url.path.is_front", "x", "1"),
    (0, "/node", "url.path.is_front", "x", "1"),
    (0, "/node/1", "url.query_args", "x", "page=2&sort=a+b"),
    (0, "/node/1", "url.query_args:", "sort", "=a b"),
    (0, "/node/1", "url.query_args:", "order", "-"),
    (0, "/node/1", "session", "x", "-"),
    (2, "/node/1", "session", "x", "=test"),
    (1, "/node/1", "session.exists", "x", "1"),
    (0, "/node/1", "route.menu_active_trails:", "main", "b,a"),
    (0, "/node/1", "route.menu_active_trails:", "foot", ""),
];

#[test]
fn values(rt: HostRuntime) {
    let state = site(rt.alloc(), Counts::new(rt.alloc())).expect(&rt, "memory");
    for row in &VALUES {
        assert!(rt; has_value(rt.alloc(), &state, row) == Ok(true));
    }
}

/// The texts of what is said, contexts first.
fn said_text(alloc: Global, out: &mut Vec<u8>, said: &Cacheability) -> Result<(), AllocError> {
    for context in said.contexts() {
        let text = context.text(alloc)?;
        add(out, text.as_slice())?;
    }
    for tag in said.tags() {
        let text = tag.text(alloc)?;
        add(out, text.as_slice())?;
    }
    Ok(())
}

/// Whether for the member these contexts come to that.
fn comes_to(
    alloc: Global,
    state: &State,
    contexts: &[Context],
    wanted: &str,
) -> Result<bool, AllocError> {
    let said = optimise(alloc, state, &viewer(2), contexts)?;
    let mut out = Vec::new(alloc);
    said_text(alloc, &mut out, &said)?;
    Ok(out.as_slice() == wanted.as_bytes())
}

#[test]
fn left_out(rt: HostRuntime) -> Result<(), Fail> {
    let page = Context::QueryArg(name(b"page")?);
    let state = site(rt.alloc(), Counts::new(rt.alloc()))?;
    let cases: [(&[Context], &str); 5] = [
        (
            &[Context::UserRoles, Context::User, Context::NodeGrantsView],
            "user,user.node_grants:view,user:2",
        ),
        (
            &[Context::UserPermissions, Context::User],
            "user,config:user.role.authenticated,user:2",
        ),
        (
            &[Context::IsFront, Context::UrlPath, page, Context::Url],
            "url,config:system.site",
        ),
        (
            &[Context::SessionExists, Context::Session, page],
            "session,url.query_args:page",
        ),
        (
            &[Context::UserPermissions, Context::UserRoles, Context::Theme],
            "theme,user.permissions,user.roles",
        ),
    ];
    for (contexts, wanted) in cases {
        assert!(rt; comes_to(rt.alloc(), &state, contexts, wanted) == Ok(true));
    }
    Ok(())
}
