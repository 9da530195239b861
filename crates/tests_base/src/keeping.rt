//! What a keeper in memory holds as it is made, once a batch is kept, and where calls fail.
ghost use Rattle.indexed_rows.specs.Rows.{AreValidRows};
ghost use Rattle.site_keeper.specs.Keeper.{held_of, with_batch};

use crate::starting::rows;
use cacheability::Tag;
use content_rows::{Cell, Items, Row, Seq};
use content_state::{Commit, Write};
use site_keeper::{Batch, Fail, Keeper, KeeperFault, MemoryKeeper, Stored};
use std::alloc::Global;
use std::process::Abort;
use std::sync::Arc;
use tag_counts::Counts;

fn sendable<T: Send + Sync>(_: &T) {}

// A site as it begins.
fn stored(rt: &impl Abort, alloc: Global) -> Stored
    ensures { AreValidRows result.rows }
{
    let rows = rows(alloc).expect(rt, "memory");
    assert!(rt; rows.are_right());
    Stored {
        rows,
        counts: Counts::new(alloc),
        head: 0,
    }
}

// An edit by which the next node is 3, and the user 1 is gone.
fn commit(rt: &impl Abort, alloc: Global) -> Commit {
    let seq = Row::Seq(Seq {
        node: 3,
        term: 1,
        user: 2,
    });
    let next = Write {
        cell: Cell::Seq,
        row: Some(Arc::new(alloc, seq).expect(rt, "memory")),
    };
    let gone = Write {
        cell: Cell::User(1),
        row: None,
    };
    Commit {
        writes: Items::from_vec(vec![in alloc; next, gone].expect(rt, "memory")),
        extra: Items::none(alloc),
        pass: 1,
    }
}

// Its batch. A keeper sets whatever count it is given.
fn batch(rt: &impl Abort, alloc: Global) -> Batch {
    Batch {
        commit: Arc::new(alloc, commit(rt, alloc)).expect(rt, "memory"),
        counts: Items::one(alloc, (Tag::NodeList, 5)).expect(rt, "memory"),
        head: 1,
    }
}

// A keeper whose calls with these numbers are to fail, and the batch.
fn keeper(rt: &impl Abort, alloc: Global, fails: &[Fail]) -> (MemoryKeeper, Batch)
    ensures { AreValidRows (with_batch (held_of result.0.kept) result.1).rows }
{
    let stored = stored(rt, alloc);
    let batch = batch(rt, alloc);
    let right = stored.is_right_with(alloc, &batch).expect(rt, "memory");
    assert!(rt; right);
    let fails = Vec::from_slice(alloc, fails).expect(rt, "memory");
    (MemoryKeeper::new(alloc, stored, fails), batch)
}

// The id of the next node.
fn next_node(stored: &Stored) -> Option<u32> {
    match stored.rows.get(Cell::Seq) {
        Some(Row::Seq(seq)) => Some(seq.node),
        _ => None,
    }
}

// Whether all of the batch is there, or nothing of it.
fn is_as(stored: &Stored, kept: bool) -> bool {
    let (node, count, head) = if kept { (3, 5, 1) } else { (2, 0, 0) };
    next_node(stored) == Some(node)
        && stored.rows.get(Cell::User(1)).is_some() != kept
        && stored.counts.count(&Tag::NodeList) == count
        && stored.counts.count(&Tag::Site) == 0
        && stored.head == head
}

// What a keeper holds: all of the batch, or nothing of it; `None` where that can't be read, or is neither.
fn held<K: Keeper>(alloc: Global, keeper: &mut K) -> Option<bool> {
    let Ok(stored) = keeper.load(alloc) else {
        return None;
    };
    if is_as(&stored, true) {
        Some(true)
    } else if is_as(&stored, false) {
        Some(false)
    } else {
        None
    }
}

#[test]
fn a_batch_is_kept(rt: HostRuntime) {
    let alloc = rt.alloc();
    let (mut keeper, batch) = keeper(&rt, alloc, &[]);
    sendable(&keeper);
    sendable(&batch);
    let first = keeper.load(alloc).expect(&rt, "it doesn't fail");
    assert!(rt; is_as(&first, false));
    assert!(rt; keeper.head(alloc) == Ok(0));
    assert!(rt; keeper.apply(alloc, &batch) == Ok(()));
    assert!(rt; keeper.head(alloc) == Ok(1));
    let then = keeper.load(alloc).expect(&rt, "it doesn't fail");
    assert!(rt; is_as(&then, true));
    assert!(rt; keeper.faults() == 0);
}

// Whether a keeper whose first call fails tells that of an edit, and holds what it is to keep then, with this head.
fn fails_once(rt: &impl Abort, alloc: Global, kept: bool, head: u64) -> bool {
    let (mut keeper, batch) = keeper(rt, alloc, &[Fail { call: 1, kept }]);
    let applied = keeper.apply(alloc, &batch);
    drop(batch);
    applied == Err(KeeperFault::Failed)
        && keeper.faults() == 1
        && keeper.head(alloc) == Ok(head)
        && held(alloc, &mut keeper) == Some(kept)
        && keeper.faults() == 1
}

#[test]
fn an_apply_fails(rt: HostRuntime) {
    for (kept, head) in [(true, 1), (false, 0)] {
        assert!(rt; fails_once(&rt, rt.alloc(), kept, head));
    }
}

// A keeper tells nothing at its first and its third call, and begins with nothing of the batch.
#[test]
fn other_calls_fail(rt: HostRuntime) {
    let alloc = rt.alloc();
    let fails = [
        Fail {
            call: 1,
            kept: false,
        },
        Fail {
            call: 3,
            kept: false,
        },
    ];
    let (mut keeper, batch) = keeper(&rt, alloc, &fails);
    drop(batch);
    assert!(rt; held(alloc, &mut keeper).is_none());
    assert!(rt; keeper.head(alloc) == Ok(0));
    assert!(rt; keeper.head(alloc) == Err(KeeperFault::Failed));
    assert!(rt; held(alloc, &mut keeper) == Some(false));
    assert!(rt; keeper.faults() == 2);
}
