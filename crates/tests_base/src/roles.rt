//! What roles give, case by case.

use crate::starting;
use crate::starting::{name, no_text, text};
use cacheability::Name;
use content_rows::{Items, Role, Session, User};
use std::alloc::{AllocError, Global};
use std::process::Abort;
use user_roles::{has, permissions_of, role_names, session_live};

/// A user of two roles, one of them twice.
fn user(rt: &impl Abort, alloc: Global) -> User {
    let writer = name(rt, b"writer");
    let names = [writer, name(rt, b"club"), writer];
    let mut user = starting::user(alloc);
    user.roles = Items::from_vec(Vec::from_slice(alloc, &names).expect(rt, "memory"));
    user
}

/// A role of two permissions.
fn role(rt: &impl Abort, alloc: Global, admin: bool, first: &[u8], second: &[u8]) -> Role {
    let permissions = vec![in alloc; text(rt, alloc, first), text(rt, alloc, second)];
    Role {
        admin,
        grants: Items::none(alloc),
        label: no_text(alloc),
        permissions: Items::from_vec(permissions.expect(rt, "memory")),
    }
}

/// Whether the names are these.
fn are(names: &[Name], wanted: &[&[u8]]) -> bool {
    names.len() == wanted.len()
        && names
            .iter()
            .zip(wanted)
            .all(|(name, text)| name.as_bytes() == *text)
}

#[test]
fn names_of_roles(rt: HostRuntime) {
    let user = user(&rt, rt.alloc());
    let cases: [(u32, Option<&User>, &[&[u8]]); 4] = [
        (0, None, &[b"anonymous"]),
        (0, Some(&user), &[b"anonymous"]),
        (7, None, &[b"authenticated"]),
        (7, Some(&user), &[b"authenticated", b"club", b"writer"]),
    ];
    for (uid, row, wanted) in cases {
        let names = role_names(rt.alloc(), uid, row).expect(&rt, "memory");
        assert!(rt; are(names.as_slice(), wanted));
    }
}

/// Whether a user of these roles may.
fn may(alloc: Global, uid: u32, roles: &[&Role], permission: &[u8]) -> Result<bool, AllocError> {
    Ok(has(&permissions_of(alloc, uid, roles)?, permission))
}

/// A user, a permission, and whether the user has it by no role, the reader's, that and the writer's, and all three.
const PERMISSIONS: [(u32, &[u8], [bool; 4]); 4] = [
    (2, b"access content", [false, true, true, true]),
    (2, b"write", [false, false, true, true]),
    (0, b"access", [false, false, false, true]),
    (1, b"anything", [true, true, true, true]),
];

#[test]
fn permissions_of_roles(rt: HostRuntime) {
    let reader = role(&rt, rt.alloc(), false, b"access content", b"see");
    let writer = role(&rt, rt.alloc(), false, b"write", b"access content");
    let admin = role(&rt, rt.alloc(), true, b"see", b"see");
    for (uid, permission, [none, one, two, three]) in PERMISSIONS {
        assert!(rt; may(rt.alloc(), uid, &[], permission) == Ok(none));
        assert!(rt; may(rt.alloc(), uid, &[&reader], permission) == Ok(one));
        assert!(rt; may(rt.alloc(), uid, &[&reader, &writer], permission) == Ok(two));
        assert!(rt; may(rt.alloc(), uid, &[&writer, &admin, &reader], permission) == Ok(three));
    }
}

#[test]
fn sessions(rt: HostRuntime) {
    let session = Session {
        expires: 100,
        uid: 7,
    };
    let mut user = user(&rt, rt.alloc());
    for (active, moment, live) in [(true, 99, true), (true, 100, false), (false, 99, false)] {
        user.status = active;
        assert!(rt; session_live(&session, &user, moment) == live);
    }
}
