//! Digests that Python's hashlib gave, and what is checked against them.

use crate::starting;
use crate::starting::text;
use content_rows::User;
use site_passwords::{check_pass, make_pass};
use std::alloc::Global;
use std::process::Abort;

const SALT: &[u8] = b"00000000000000010000000000000002";

/// Of the password `pw` with that salt, and with an empty one.
const DIGEST: &[u8] = b"7f597846a282e0f4fd2827f0d3fa47363f762044678a8d92d2a30f6d47f7f138";

const UNSALTED: &[u8] = b"8798bca71b5739c968fd153b3e0ccace92c58f961b71ee4a3be8719f0f9c7cba";

/// A user with this digest, if any, and this salt.
fn user(rt: &impl Abort, alloc: Global, digest: Option<&[u8]>, salt: &[u8]) -> User {
    let mut user = starting::user(alloc);
    user.digest = match digest {
        Some(digest) => Some(text(rt, alloc, digest)),
        None => None,
    };
    user.salt = text(rt, alloc, salt);
    user
}

#[test]
fn digests(rt: HostRuntime) {
    for (salt, wanted) in [(SALT, DIGEST), (b"", UNSALTED)] {
        let digest = make_pass(rt.alloc(), salt, b"pw").expect(&rt, "memory");
        assert!(rt; digest.as_slice() == wanted);
        let user = user(&rt, rt.alloc(), Some(wanted), salt);
        assert!(rt; check_pass(&user, b"pw"));
        assert!(rt; !check_pass(&user, b"pW"));
        assert!(rt; !check_pass(&user, b""));
    }
}

#[test]
fn users_whom_no_password_lets_in(rt: HostRuntime) {
    for digest in [None, Some(UNSALTED)] {
        let user = user(&rt, rt.alloc(), digest, SALT);
        assert!(rt; !check_pass(&user, b"pw"));
        assert!(rt; !check_pass(&user, b""));
    }
}
