//! All pairs of results under both combinations, and the texts of reasons.

use crate::starting::name;
use access_result::{AccessResult, PermissionText, Reason, Verdict};
use cacheability::{Cacheability, Op, Tag};
use std::alloc::Global;
use std::process::Abort;

/// A result that looked at the node of this number.
fn decided(rt: &impl Abort, alloc: Global, verdict: Verdict, nid: u32) -> AccessResult {
    let mut cacheability = Cacheability::new(alloc);
    cacheability.add_tag(Tag::Node(nid)).expect(rt, "memory");
    let reason = match verdict {
        Verdict::Allowed => None,
        _ => Some(Reason::Grant(Op::View, nid)),
    };
    AccessResult {
        verdict,
        reason,
        cacheability,
    }
}

/// The node that a reason names, 0 where it names none.
fn named(reason: &Reason) -> u32 {
    match reason {
        Reason::Grant(_, nid) => *nid,
        _ => 0,
    }
}

/// The verdict, the node that the reason names, 0 without a reason, and the number of tags.
fn told(of: &AccessResult) -> (Verdict, u32, usize) {
    let nid = match of.reason() {
        Some(reason) => named(reason),
        None => 0,
    };
    (of.verdict, nid, of.cacheability.tags().len())
}

/// What both combinations of two verdicts, the left of node 1 and the right of node 2, tell.
fn combined(
    rt: &impl Abort,
    alloc: Global,
    left: Verdict,
    right: Verdict,
) -> [(Verdict, u32, usize); 2] {
    let left = decided(rt, alloc, left, 1);
    let right = decided(rt, alloc, right, 2);
    let either = left.or_if(alloc, &right).expect(rt, "memory");
    let both = left.and_if(alloc, &right).expect(rt, "memory");
    let copy = both.duplicate(alloc).expect(rt, "memory");
    [told(&either), told(&copy)]
}

const A: Verdict = Verdict::Allowed;

const N: Verdict = Verdict::Neutral;

const F: Verdict = Verdict::Forbidden;

/// Left and right; what `or_if` tells, and what `and_if` tells.
const COMBINATIONS: [(Verdict, Verdict, [(Verdict, u32, usize); 2]); 9] = [
    (A, A, [(A, 0, 2), (A, 0, 2)]),
    (A, N, [(A, 0, 2), (N, 2, 2)]),
    (A, F, [(F, 2, 2), (F, 2, 2)]),
    (N, A, [(A, 0, 2), (N, 1, 2)]),
    (N, N, [(N, 1, 2), (N, 1, 2)]),
    (N, F, [(F, 2, 2), (F, 2, 2)]),
    (F, A, [(F, 1, 1), (F, 1, 1)]),
    (F, N, [(F, 1, 1), (F, 1, 1)]),
    (F, F, [(F, 1, 1), (F, 1, 1)]),
];

#[test]
fn combinations(rt: HostRuntime) {
    for (left, right, wanted) in &COMBINATIONS {
        assert!(rt; combined(&rt, rt.alloc(), *left, *right) == *wanted);
    }
}

#[test]
fn allowed_alone_gives_access(rt: HostRuntime) {
    for (verdict, allowed) in [(A, true), (N, false), (F, false)] {
        let result = decided(&rt, rt.alloc(), verdict, 1);
        assert!(rt; result.allowed() == allowed);
    }
}

/// Whether a second copy of the reason has this text.
fn reads(rt: &impl Abort, alloc: Global, reason: Reason, text: &[u8]) -> bool {
    let again = reason.duplicate(alloc).expect(rt, "memory");
    let written = again.text(alloc).expect(rt, "memory");
    written.as_slice() == text
}

#[test]
fn texts(rt: HostRuntime) {
    let alloc = rt.alloc();
    let permission = PermissionText::copied(alloc, b"view secret").expect(&rt, "memory");
    let wanted = b"The 'view secret' permission is required.";
    assert!(rt; reads(&rt, alloc, Reason::Permission(permission), wanted));
    let wanted = b"A 'update' grant for node 10 is required.";
    assert!(rt; reads(&rt, alloc, Reason::Grant(Op::Update, 10), wanted));
    let wanted = b"Only the owner may use the field 'body'.";
    assert!(rt; reads(&rt, alloc, Reason::OwnerOnly(name(&rt, b"body")), wanted));
    let wanted = b"Unrecognized username or password.";
    assert!(rt; reads(&rt, alloc, Reason::Unrecognized, wanted));
    let wanted = b"A session is required.";
    assert!(rt; reads(&rt, alloc, Reason::NoSession, wanted));
}
