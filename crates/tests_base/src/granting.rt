//! Records and grants, case by case.

use crate::starting;
use crate::starting::{name, no_text};
use cacheability::Op;
use content_rows::{Grant, GrantRow, Items, Node, Role, User};
use node_grants::{granted, grants_of, records_of};
use std::alloc::Global;
use std::process::Abort;

/// Grants by their numbers, each with whether it is of the club or of everybody's realm.
fn grants(rt: &impl Abort, alloc: Global, numbers: &[(u32, bool)]) -> Vec<Grant> {
    let club = name(rt, b"club");
    let everybody = name(rt, b"all");
    let mut grants = Vec::new(alloc);
    for (gid, of_club) in numbers {
        let realm = if *of_club { club } else { everybody };
        grants.push(Grant { realm, gid: *gid }).expect(rt, "memory");
    }
    grants
}

/// The record that lets holders of number 3 of the club view and update.
fn club_record(rt: &impl Abort) -> GrantRow {
    GrantRow {
        delete: false,
        gid: 3,
        realm: name(rt, b"club"),
        update: true,
        view: true,
    }
}

/// A node, with or without the record of the club.
fn node(rt: &impl Abort, alloc: Global, published: bool, for_the_club: bool) -> Node {
    let mut records = Vec::new(alloc);
    if for_the_club {
        records.push(club_record(rt)).expect(rt, "memory");
    }
    Node {
        changed: 0,
        created: 0,
        fields: Items::none(alloc),
        grants: Items::from_vec(records),
        path: None,
        promote: false,
        refs: Items::none(alloc),
        status: published,
        sticky: false,
        terms: Items::none(alloc),
        title: no_text(alloc),
        node_type: name(rt, b"page"),
        uid: 0,
        uuid: no_text(alloc),
        vid: 1,
    }
}

fn user(rt: &impl Abort, alloc: Global, numbers: &[(u32, bool)]) -> User {
    let mut user = starting::user(alloc);
    user.grants = Items::from_vec(grants(rt, alloc, numbers));
    user
}

fn role(rt: &impl Abort, alloc: Global, numbers: &[(u32, bool)]) -> Role {
    Role {
        admin: false,
        grants: Items::from_vec(grants(rt, alloc, numbers)),
        label: no_text(alloc),
        permissions: Items::none(alloc),
    }
}

/// Whether these are the grants of a viewer.
fn are(
    rt: &impl Abort,
    alloc: Global,
    user: Option<&User>,
    roles: &[&Role],
    wanted: &[(u32, bool)],
) -> bool {
    let wanted = grants(rt, alloc, wanted);
    let found = grants_of(alloc, user, roles).expect(rt, "memory");
    found.as_slice() == wanted.as_slice()
}

#[test]
fn grants_in_order(rt: HostRuntime) {
    let alloc = rt.alloc();
    let user = user(&rt, alloc, &[(4, true), (3, true)]);
    let role = role(&rt, alloc, &[(5, false), (3, true), (3, false)]);
    let by_user = [(0, false), (3, true), (4, true)];
    let by_role = [(0, false), (3, false), (5, false), (3, true)];
    let by_both = [(0, false), (3, false), (5, false), (3, true), (4, true)];
    assert!(rt; are(&rt, alloc, None, &[], &[(0, false)]));
    assert!(rt; are(&rt, alloc, Some(&user), &[], &by_user));
    assert!(rt; are(&rt, alloc, None, &[&role, &role], &by_role));
    assert!(rt; are(&rt, alloc, Some(&user), &[&role], &by_both));
}

/// Whether holders of the grants of these numbers may view, update and delete a node.
fn may(rt: &impl Abort, alloc: Global, node: &Node, numbers: &[(u32, bool)]) -> [bool; 3] {
    let records = records_of(alloc, node).expect(rt, "memory");
    let grants = grants(rt, alloc, numbers);
    let may = |op| granted(op, records.as_slice(), &grants);
    [may(Op::View), may(Op::Update), may(Op::Delete)]
}

/// Whether a node is published, and has the record of the club; the grants of a viewer; who may view, update and delete.
const RECORDS: [(bool, bool, &[(u32, bool)], [bool; 3]); 6] = [
    (true, false, &[(0, false)], [true, false, false]),
    (true, false, &[(3, true)], [false, false, false]),
    (false, false, &[(0, false)], [false, false, false]),
    (true, true, &[(0, false), (3, false)], [false, false, false]),
    (true, true, &[(0, false), (3, true)], [true, true, false]),
    (false, true, &[(3, true)], [true, true, false]),
];

#[test]
fn records_and_who_may(rt: HostRuntime) {
    for (published, for_the_club, numbers, wanted) in &RECORDS {
        let node = node(&rt, rt.alloc(), *published, *for_the_club);
        assert!(rt; may(&rt, rt.alloc(), &node, numbers) == *wanted);
    }
}
