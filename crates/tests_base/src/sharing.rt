//! What an edit of one node of many copies. An edit of `w` writes that invalidates `b` tags puts at most `(m + w + b) * (w + b)`
//! entries into new buckets, where `m` is how many the fullest of those has before: with the numbers of this test 75.

use crate::starting::rows;
use content_rows::{Cell, Items, Row};
use content_state::{Commit, State, Write};
use state_commits::{apply, tags_of_commit};
use std::alloc::Global;
use std::process::Abort;
use std::sync::Arc;
use tag_counts::Counts;

const NODES: u32 = 10_240;

// The state that a site begins with, and nodes up to 10,240, which share the row of the first.
fn many_nodes(rt: &impl Abort, alloc: Global) -> State {
    let mut rows = rows(alloc).expect(rt, "memory");
    let first = first_row(rt, rows.shared(Cell::Node(1)).expect(rt, "memory"));
    for nid in 2..=NODES {
        let row = Arc::try_clone(&first).expect(rt, "memory");
        assert!(rt; rows.set(Cell::Node(nid), row).is_ok());
    }
    State::new(alloc, rows, Counts::new(alloc), 0).expect(rt, "memory")
}

fn first_row(rt: &impl Abort, row: Option<Arc<Row>>) -> Arc<Row> {
    row.expect(rt, "the first node")
}

// The fifth node's row is written again.
fn one_node(rt: &impl Abort, alloc: Global, state: &State) -> Commit {
    let row = state.rows().shared(Cell::Node(5)).expect(rt, "memory");
    let write = Write {
        cell: Cell::Node(5),
        row,
    };
    Commit {
        writes: Items::from_vec(vec![in alloc; write].expect(rt, "memory")),
        extra: Items::from_vec(Vec::new(alloc)),
        pass: 1,
    }
}

#[test]
fn one_node_of_many(rt: HostRuntime) {
    let alloc = rt.alloc();
    let before = many_nodes(&rt, alloc);
    assert!(rt; before.number() < 1_000);
    let commit = one_node(&rt, alloc, &before);
    let tags = tags_of_commit(alloc, before.rows(), &commit).expect(&rt, "memory");
    assert!(rt; commit.writes.as_slice().len() == 1);
    assert!(rt; tags.as_slice().len() == 4);
    assert!(rt; before.rows().bucket_len(Cell::Node(5)) == 10);
    assert!(rt; before.counts().is_empty());
    let after = apply(alloc, &before, &commit).expect(&rt, "memory");
    assert!(rt; after.rows().len() == before.rows().len());
    assert!(rt; after.counts().len() == 4);
    assert!(rt; before.counts().is_empty());
}
