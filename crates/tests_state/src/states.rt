//! What is read of a site, and what may go between threads.

use crate::site::site;
use cacheability::Tag;
use content_rows::{Cell, Items, Row, Seq, starter};
use content_state::{Commit, Rows, State, Write, states_go_between_threads};
use row_json::row_to_json;
use site_files::STARTER;
use std::alloc::{AllocError, Global};
use std::sync::Arc;
use std::test::Fail;
use tag_counts::Counts;

fn sendable<T: Send + Sync>(_: &T) {}

// A state goes to threads that share it.
fn is_shared(alloc: Global, state: State) -> Result<(), AllocError> {
    states_go_between_threads(Arc::new(alloc, state)?);
    Ok(())
}

#[test]
fn what_is_read_of_a_site(rt: HostRuntime) -> Result<(), Fail> {
    let state = site(rt.alloc(), "/node")?;
    assert!(rt; state.is_valid(rt.alloc())?);
    assert!(rt; state.number() == 0);
    assert!(rt; state.counts().is_empty());
    assert!(rt; state.node(4).0.is_none());
    assert!(rt; state.node(1).1.equals(&Tag::Node(1)));
    is_shared(rt.alloc(), state)?;
    Ok(())
}

/// A copy of a site has its rows.
#[test]
fn a_copy_of_a_site(rt: HostRuntime) -> Result<(), Fail> {
    let copy = site(rt.alloc(), "/node")?.duplicate(rt.alloc())?;
    let node = copy.node(1).0.expect(&rt, "the first node");
    assert!(rt; node.title.as_slice() == b"First".as_slice());
    Ok(())
}

fn commit(alloc: Global) -> Result<Commit, AllocError> {
    let row = Row::Seq(Seq {
        node: 3,
        term: 1,
        user: 2,
    });
    let write = Write {
        cell: Cell::Seq,
        row: Some(Arc::new(alloc, row)?),
    };
    Ok(Commit {
        writes: Items::from_vec(vec![in alloc; write]?),
        extra: Items::none(alloc),
        pass: 1,
    })
}

#[test]
fn commits_are_sendable(rt: HostRuntime) {
    let commit = commit(rt.alloc()).expect(&rt, "memory");
    sendable(&commit);
    assert!(rt; commit.writes.as_slice().len() == 1);
    let write = &commit.writes.as_slice()[0];
    assert!(rt; write.cell == Cell::Seq);
    assert!(rt; write.row.is_some());
}

/// Writes a row as a line.
fn push_line(alloc: Global, out: &mut Vec<u8>, cell: &Cell, row: &Row) -> Result<(), Fail> {
    let text = row_to_json(alloc, cell, row)?.to_string(alloc)?;
    out.extend_from_slice(text.as_bytes())?;
    out.push(b'\n')?;
    Ok(())
}

/// The rows of the new site, written one a line, are the file of the new site.
#[test]
fn starter_as_lines(rt: HostRuntime) -> Result<(), Fail> {
    let mut written = Vec::new(rt.alloc());
    for (cell, row) in &starter(rt.alloc())? {
        push_line(rt.alloc(), &mut written, cell, row)?;
    }
    assert!(rt; written.as_slice() == STARTER);
    Ok(())
}

/// The state of one row that no site has, since an id that is next is 0.
fn no_site(alloc: Global) -> Result<State, AllocError> {
    let row = Row::Seq(Seq {
        node: 2,
        term: 0,
        user: 2,
    });
    let mut rows = Rows::new(alloc);
    rows.set(Cell::Seq, Arc::new(alloc, row)?)
        .map_err(|_| AllocError)?;
    State::new(alloc, rows, Counts::new(alloc), 0)
}

#[test]
fn rows_of_no_site(rt: HostRuntime) -> Result<(), Fail> {
    assert!(rt; !no_site(rt.alloc())?.is_valid(rt.alloc())?);
    Ok(())
}
