//! What access to parts of a site depends on.

use crate::site::site;
use access_result::AccessResult;
use cacheability::{Name, Op};
use content_state::{Route, State, Viewer, route_of};
use site_access::{
    create_access, field_access, field_in, node_access, route_access, term_access, user_access,
};
use std::alloc::{AllocError, Global};

fn name(bytes: &[u8]) -> Result<Name, AllocError> {
    Name::new(bytes).map_err(|_| AllocError)
}

/// What access is asked to.
#[derive(Clone, Copy)]
enum To {
    Node(Op, u32),
    Creation,
    Field(u32, &'static [u8]),
    Term(u32),
    User(u32),
    Path(&'static [u8]),
    Login,
}

/// Writes the tags and the contexts of a result, in one line.
fn told(alloc: Global, line: &mut Vec<u8>, found: &AccessResult) -> Result<(), AllocError> {
    for tag in found.cacheability.tags() {
        let text = tag.text(alloc)?;
        line.extend_from_slice(&text)?;
        line.push(b' ')?;
    }
    line.push(b'|')?;
    for context in found.cacheability.contexts() {
        let text = context.text(alloc)?;
        line.push(b' ')?;
        line.extend_from_slice(&text)?;
    }
    Ok(())
}

/// Access to viewing a field; `Err` also where it is absent.
fn decided_field(
    alloc: Global,
    state: &State,
    viewer: &Viewer,
    n: u32,
    field: &Name,
) -> Result<AccessResult, AllocError> {
    let (node, _) = state.node(n);
    let Some(node) = node else {
        return Err(AllocError);
    };
    let (node_type, _) = state.node_type(node.node_type);
    let Some(node_type) = node_type else {
        return Err(AllocError);
    };
    match field_in(node_type, field) {
        Some(_) => field_access(alloc, state, viewer, Op::View, n, field),
        None => Err(AllocError),
    }
}

/// Access to viewing what a path leads to; `Err` also where that is nothing.
fn path_access(
    alloc: Global,
    state: &State,
    viewer: &Viewer,
    path: &[u8],
) -> Result<AccessResult, AllocError> {
    let (to, _) = route_of(alloc, state, path)?;
    match to {
        Route::Nothing => Err(AllocError),
        _ => route_access(alloc, state, viewer, &to),
    }
}

/// What is decided; `Err` also where what access is asked to is absent.
fn decided(alloc: Global, state: &State, uid: u32, to: To) -> Result<AccessResult, AllocError> {
    let viewer = Viewer { uid, session: None };
    match to {
        To::Node(op, n) if state.node(n).0.is_some() => node_access(alloc, state, &viewer, op, n),
        To::Creation => create_access(alloc, state, &viewer, &name(b"page")?),
        To::Field(n, field) => decided_field(alloc, state, &viewer, n, &name(field)?),
        To::Term(t) if state.term(t).0.is_some() => term_access(alloc, state, &viewer, t),
        To::User(u) if state.user(u).0.is_some() => user_access(alloc, state, &viewer, u),
        To::Path(path) => path_access(alloc, state, &viewer, path),
        To::Login => route_access(alloc, state, &viewer, &Route::Login),
        _ => Err(AllocError),
    }
}

/// Whether what is decided depends on these.
fn depends_on(
    alloc: Global,
    state: &State,
    uid: u32,
    to: To,
    expected: &[u8],
) -> Result<bool, AllocError> {
    let result = decided(alloc, state, uid, to)?;
    let mut line = Vec::new(alloc);
    let told = told(alloc, &mut line, &result);
    drop(result);
    told?;
    Ok(line.as_slice() == expected)
}

#[test]
fn what_access_depends_on(rt: HostRuntime) {
    let state = site(rt.alloc(), "/node").expect(&rt, "memory");
    // who views, to what, and what is told
    let cases: [(u32, To, &[u8]); 15] = [
        (
            0,
            To::Node(Op::View, 1),
            b"node:1 | user.node_grants:view user.permissions",
        ),
        (
            2,
            To::Node(Op::Update, 1),
            b"node:1 | user user.node_grants:view user.permissions",
        ),
        (1, To::Node(Op::Delete, 1), b"| user.permissions"),
        (
            2,
            To::Node(Op::View, 3),
            b"node:3 | user user.node_grants:view user.permissions",
        ),
        (2, To::Creation, b"| user.permissions"),
        (
            2,
            To::Field(1, b"notes"),
            b"config:node.type.page | user.permissions",
        ),
        (
            2,
            To::Field(3, b"diary"),
            b"config:node.type.page node:3 | user user.permissions",
        ),
        (0, To::Term(3), b"taxonomy_term:3 | user.permissions"),
        (0, To::User(2), b"user:2 | user user.permissions"),
        (1, To::User(2), b"user:2 | user.permissions"),
        (
            2,
            To::Path(b"/json/node/3"),
            b"node:3 | user user.node_grants:view user.permissions",
        ),
        (
            0,
            To::Path(b"/json/term/3"),
            b"taxonomy_term:3 | user.permissions",
        ),
        (
            0,
            To::Path(b"/json/user/2"),
            b"user:2 | user user.permissions",
        ),
        (
            0,
            To::Path(b"/json/listing/frontpage"),
            b"| user.permissions",
        ),
        (0, To::Login, b"|"),
    ];
    for (uid, to, expected) in cases {
        assert!(rt; depends_on(rt.alloc(), &state, uid, to, expected) == Ok(true));
    }
}
