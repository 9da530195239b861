//! Replies that tell of no edit that was made. Their texts were worked out by hand.

use access_result::{PermissionText, Reason};
use cacheability::{Name, Op, Tag};
use content_rows::{Cell, Text};
use edit_replies::{bad_json_text, keeper_text, media_text, refused_text};
use json_keys::Rule;
use site_commands::Refusal;
use std::alloc::{AllocError, Global};

/// A refusal, with bytes in place of what is held in memory, and of names.
#[derive(Clone, Copy)]
enum Why {
    Csrf,
    NoTarget,
    NoPermission(&'static [u8]),
    NoGrant(u32),
    NotTheOwner(&'static [u8]),
    Unrecognized,
    NoSession,
    TokenClash,
    Broken(&'static [u8], Rule),
    UuidTaken(u32),
    Stale(u32),
    PathOfNode(u32),
    PathOfListing(&'static [u8]),
    CountFull(Tag),
    LogFull,
}

fn name(bytes: &[u8]) -> Result<Name, AllocError> {
    Name::new(bytes).map_err(|_| AllocError)
}

fn refusal(alloc: Global, why: &Why) -> Result<Refusal, AllocError> {
    Ok(match *why {
        Why::Csrf => Refusal::Csrf,
        Why::NoTarget => Refusal::NoTarget,
        Why::NoPermission(text) => {
            Refusal::Denied(Reason::Permission(PermissionText::copied(alloc, text)?))
        }
        Why::NoGrant(nid) => Refusal::Denied(Reason::Grant(Op::Update, nid)),
        Why::NotTheOwner(field) => Refusal::Denied(Reason::OwnerOnly(name(field)?)),
        Why::Unrecognized => Refusal::Denied(Reason::Unrecognized),
        Why::NoSession => Refusal::Denied(Reason::NoSession),
        Why::TokenClash => Refusal::TokenClash,
        Why::Broken(field, rule) => Refusal::Broken(Text::copied(alloc, field)?, rule),
        Why::UuidTaken(id) => Refusal::UuidTaken(id),
        Why::Stale(vid) => Refusal::Stale(vid),
        Why::PathOfNode(nid) => Refusal::PathTaken(Cell::Node(nid)),
        Why::PathOfListing(listing) => Refusal::PathTaken(Cell::Listing(name(listing)?)),
        Why::CountFull(tag) => Refusal::CountFull(tag),
        Why::LogFull => Refusal::LogFull,
    })
}

/// Whether this is a text.
fn is_text(text: Result<Vec<u8>, AllocError>, wanted: &[u8]) -> bool {
    match text {
        Ok(text) => text.as_slice() == wanted,
        Err(_) => false,
    }
}

/// Whether this is the reply of a refusal.
fn tells(
    alloc: Global,
    why: &Why,
    number: u64,
    closing: bool,
    wanted: &[u8],
) -> Result<bool, AllocError> {
    let refusal = refusal(alloc, why)?;
    let text = refused_text(alloc, &refusal, number, closing);
    drop(refusal);
    Ok(is_text(text, wanted))
}

/// Why, the number of a state, whether the connection closes, and the reply.
const REFUSALS: [(Why, u64, bool, &[u8]); 17] = [
    (
        Why::Csrf,
        0,
        false,
        b"HTTP/1.1 403 Forbidden\r\nContent-Type: application/json\r\nContent-Length: 15\r\nX-Site-State: 0\r\n\r\n{\"code\":\"csrf\"}",
    ),
    (
        Why::NoTarget,
        0,
        true,
        b"HTTP/1.1 404 Not Found\r\nContent-Type: application/json\r\nContent-Length: 20\r\nX-Site-State: 0\r\nConnection: close\r\n\r\n{\"code\":\"no-target\"}",
    ),
    (
        Why::NoGrant(2),
        0,
        false,
        b"HTTP/1.1 403 Forbidden\r\nContent-Type: application/json\r\nContent-Length: 69\r\nX-Site-State: 0\r\n\r\n{\"code\":\"denied\",\"reason\":\"A 'update' grant for node 2 is required.\"}",
    ),
    (
        Why::NotTheOwner(b"body"),
        0,
        false,
        b"HTTP/1.1 403 Forbidden\r\nContent-Type: application/json\r\nContent-Length: 69\r\nX-Site-State: 0\r\n\r\n{\"code\":\"denied\",\"reason\":\"Only the owner may use the field 'body'.\"}",
    ),
    (
        Why::Unrecognized,
        1,
        false,
        b"HTTP/1.1 403 Forbidden\r\nContent-Type: application/json\r\nContent-Length: 63\r\nX-Site-State: 1\r\n\r\n{\"code\":\"denied\",\"reason\":\"Unrecognized username or password.\"}",
    ),
    (
        Why::NoSession,
        0,
        false,
        b"HTTP/1.1 403 Forbidden\r\nContent-Type: application/json\r\nContent-Length: 51\r\nX-Site-State: 0\r\n\r\n{\"code\":\"denied\",\"reason\":\"A session is required.\"}",
    ),
    (
        Why::TokenClash,
        18_446_744_073_709_551_615,
        true,
        b"HTTP/1.1 409 Conflict\r\nContent-Type: application/json\r\nContent-Length: 22\r\nX-Site-State: 18446744073709551615\r\nConnection: close\r\n\r\n{\"code\":\"token-clash\"}",
    ),
    (
        Why::UuidTaken(9),
        1,
        false,
        b"HTTP/1.1 409 Conflict\r\nContent-Type: application/json\r\nContent-Length: 32\r\nX-Site-State: 1\r\n\r\n{\"code\":\"uuid-taken\",\"holder\":9}",
    ),
    (
        Why::Stale(2),
        1,
        false,
        b"HTTP/1.1 409 Conflict\r\nContent-Type: application/json\r\nContent-Length: 24\r\nX-Site-State: 1\r\n\r\n{\"code\":\"stale\",\"vid\":2}",
    ),
    (
        Why::PathOfNode(4_294_967_294),
        1,
        false,
        b"HTTP/1.1 409 Conflict\r\nContent-Type: application/json\r\nContent-Length: 48\r\nX-Site-State: 1\r\n\r\n{\"code\":\"path-taken\",\"holder\":\"node:4294967294\"}",
    ),
    (
        Why::PathOfListing(b"frontpage"),
        1,
        false,
        b"HTTP/1.1 409 Conflict\r\nContent-Type: application/json\r\nContent-Length: 50\r\nX-Site-State: 1\r\n\r\n{\"code\":\"path-taken\",\"holder\":\"listing:frontpage\"}",
    ),
    (
        Why::CountFull(Tag::Node(1)),
        0,
        false,
        b"HTTP/1.1 422 Unprocessable Entity\r\nContent-Type: application/json\r\nContent-Length: 36\r\nX-Site-State: 0\r\n\r\n{\"code\":\"count-full\",\"tag\":\"node:1\"}",
    ),
    (
        Why::LogFull,
        1_000_000,
        false,
        b"HTTP/1.1 422 Unprocessable Entity\r\nContent-Type: application/json\r\nContent-Length: 19\r\nX-Site-State: 1000000\r\n\r\n{\"code\":\"log-full\"}",
    ),
    (
        Why::NoPermission(b"administer nodes"),
        0,
        false,
        b"HTTP/1.1 403 Forbidden\r\nContent-Type: application/json\r\nContent-Length: 75\r\nX-Site-State: 0\r\n\r\n{\"code\":\"denied\",\"reason\":\"The 'administer nodes' permission is required.\"}",
    ),
    (
        Why::Broken(b"vid", Rule::Missing),
        0,
        false,
        b"HTTP/1.1 422 Unprocessable Entity\r\nContent-Type: application/json\r\nContent-Length: 46\r\nX-Site-State: 0\r\n\r\n{\"code\":\"rule\",\"field\":\"vid\",\"rule\":\"missing\"}",
    ),
    (
        Why::Broken(b"\xc3\xbc\"", Rule::Unknown),
        0,
        false,
        b"HTTP/1.1 422 Unprocessable Entity\r\nContent-Type: application/json\r\nContent-Length: 47\r\nX-Site-State: 0\r\n\r\n{\"code\":\"rule\",\"field\":\"\xc3\xbc\\\"\",\"rule\":\"unknown\"}",
    ),
    (
        Why::Broken(b"\xff", Rule::Taken),
        0,
        false,
        b"HTTP/1.1 422 Unprocessable Entity\r\nContent-Type: application/json\r\nContent-Length: 43\r\nX-Site-State: 0\r\n\r\n{\"code\":\"rule\",\"field\":null,\"rule\":\"taken\"}",
    ),
];

#[test]
fn refusals(rt: HostRuntime) {
    for (why, number, closing, wanted) in &REFUSALS {
        assert!(rt; tells(rt.alloc(), why, *number, *closing, wanted) == Ok(true));
    }
}

const MEDIA: &[u8] =
    b"HTTP/1.1 415 Unsupported Media Type\r\nContent-Type: application/json\r\nContent-Length: 16\r\nX-Site-State: 0\r\n\r\n{\"code\":\"media\"}";

const BAD_JSON: &[u8] =
    b"HTTP/1.1 400 Bad Request\r\nContent-Type: application/json\r\nContent-Length: 19\r\nX-Site-State: 12\r\nConnection: close\r\n\r\n{\"code\":\"bad-json\"}";

#[test]
fn bodies_that_are_not_taken(rt: HostRuntime) {
    assert!(rt; is_text(media_text(rt.alloc(), 0, false), MEDIA));
    assert!(rt; is_text(bad_json_text(rt.alloc(), 12, true), BAD_JSON));
}

const KEEPER: [(bool, &[u8]); 2] = [
    (
        false,
        b"HTTP/1.1 503 Service Unavailable\r\nContent-Type: application/json\r\nContent-Length: 17\r\n\r\n{\"code\":\"keeper\"}",
    ),
    (
        true,
        b"HTTP/1.1 503 Service Unavailable\r\nContent-Type: application/json\r\nContent-Length: 17\r\nConnection: close\r\n\r\n{\"code\":\"keeper\"}",
    ),
];

#[test]
fn keepers_that_fail(rt: HostRuntime) {
    for (closing, wanted) in &KEEPER {
        assert!(rt; keeper_text(*closing) == *wanted);
    }
}
