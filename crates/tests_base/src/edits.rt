//! What edits make of the rows that a site begins with.

use crate::starting::{name, no_text, rows, text};
use cacheability::Tag;
use content_rows::{Cell, Items, Row, Site, Term};
use content_state::{Commit, State, Write};
use state_commits::apply;
use std::alloc::{AllocError, Global};
use std::process::Abort;
use std::sync::Arc;
use tag_counts::Counts;

// The state that a site begins with.
fn begun(alloc: Global) -> Result<State, AllocError> {
    let rows = rows(alloc)?;
    State::new(alloc, rows, Counts::new(alloc), 0)
}

fn settings(rt: &impl Abort, alloc: Global) -> Row {
    Row::Site(Site {
        front: text(rt, alloc, b"/node"),
        name: text(rt, alloc, b"Renamed"),
    })
}

fn term(rt: &impl Abort, alloc: Global) -> Row {
    Row::Term(Term {
        description: no_text(alloc),
        name: text(rt, alloc, b"Fruit"),
        parent: None,
        status: true,
        uuid: text(rt, alloc, b"t-1"),
    })
}

fn write(rt: &impl Abort, alloc: Global, cell: Cell, row: Row) -> Write {
    Write {
        cell,
        row: Some(Arc::new(alloc, row).expect(rt, "memory")),
    }
}

fn commit(rt: &impl Abort, alloc: Global, writes: Vec<Write>, extra: &[Tag]) -> Commit {
    Commit {
        writes: Items::from_vec(writes),
        extra: Items::from_vec(Vec::from_slice(alloc, extra).expect(rt, "memory")),
        pass: 1,
    }
}

// A term is set, the settings are replaced, and the first node is removed; a tag of its own is named twice.
fn three_writes(rt: &impl Abort, alloc: Global) -> Commit {
    let fruit = write(rt, alloc, Cell::Term(1), term(rt, alloc));
    let renamed = write(rt, alloc, Cell::Site, settings(rt, alloc));
    let removed = Write {
        cell: Cell::Node(1),
        row: None,
    };
    let writes = vec![in alloc; fruit, renamed, removed].expect(rt, "memory");
    commit(rt, alloc, writes, &[Tag::Rendered, Tag::Rendered])
}

// The settings' tag is invalidated by itself.
fn no_writes(rt: &impl Abort, alloc: Global) -> Commit {
    commit(rt, alloc, Vec::new(alloc), &[Tag::Site])
}

fn applied(rt: &impl Abort, alloc: Global, state: &State, commit: &Commit) -> Arc<State> {
    assert!(rt; state.number() < 1_000);
    apply(alloc, state, commit).expect(rt, "memory")
}

// Whether each of these tags has this count.
fn have_count(counts: &Counts, tags: &[Tag], count: u64) -> bool {
    for tag in tags {
        if counts.count(tag) != count {
            return false;
        }
    }
    true
}

// Whether a state has the term and the new settings.
fn has_both(state: &State) -> bool {
    match (state.term(1).0, state.site().0) {
        (Some(fruit), Some(site)) => {
            fruit.name.as_slice() == b"Fruit".as_slice()
                && site.name.as_slice() == b"Renamed".as_slice()
        }
        _ => false,
    }
}

// Whether a state is the one after the three writes.
fn is_edited(state: &State) -> bool {
    has_both(state) && state.node(1).0.is_none() && state.user(1).0.is_some() && state.number() == 1
}

// Whether a state is still the one that a site begins with.
fn is_begun(state: &State) -> bool {
    state.node(1).0.is_some() && state.counts().is_empty()
}

// Whether the counts after the three writes, and those after the settings' tag too, are right.
fn counts_are_right(rt: &impl Abort, first: &Counts, second: &Counts) -> bool {
    let once = [
        Tag::Term(1),
        Tag::TermList,
        Tag::NotFound,
        Tag::Node(1),
        Tag::NodeList,
        Tag::NodeListOf(name(rt, b"page")),
        Tag::Rendered,
    ];
    have_count(first, once.as_slice(), 1)
        && have_count(second, once.as_slice(), 1)
        && first.len() == 8
        && second.len() == 8
        && first.count(&Tag::Site) == 1
        && second.count(&Tag::Site) == 2
}

#[test]
fn two_edits(rt: HostRuntime) {
    let alloc = rt.alloc();
    let before = begun(alloc).expect(&rt, "memory");
    let first = applied(&rt, alloc, &before, &three_writes(&rt, alloc));
    assert!(rt; is_edited(&first));
    assert!(rt; is_begun(&before));
    let second = applied(&rt, alloc, &first, &no_writes(&rt, alloc));
    assert!(rt; counts_are_right(&rt, first.counts(), second.counts()));
}
