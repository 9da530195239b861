//! The targets of small sites.

use crate::gathered::targets_text;
use cacheability::Name;
use content_rows::{Cell, GrantRow, Items, Node, Row, Text, starter};
use content_state::{Rows, State};
use std::alloc::{AllocError, Global};
use std::sync::Arc;
use std::test::Fail;
use tag_counts::Counts;

fn name(bytes: &[u8]) -> Result<Name, AllocError> {
    Name::new(bytes).map_err(|_| AllocError)
}

/// The rows that a site begins with.
fn begun(alloc: Global) -> Result<Rows, AllocError> {
    let mut rows = Rows::new(alloc);
    for (cell, row) in starter(alloc)? {
        rows.set(cell, Arc::new(alloc, row)?)?;
    }
    Ok(rows)
}

/// Sets a published node that may have a path and a record of grants.
fn set_node(
    alloc: Global,
    rows: &mut Rows,
    nid: u32,
    path: Option<Text>,
    grants: Items<GrantRow>,
) -> Result<(), AllocError> {
    let node = Node {
        changed: 100,
        created: 100,
        fields: Items::none(alloc),
        grants,
        path,
        promote: true,
        refs: Items::none(alloc),
        status: true,
        sticky: false,
        terms: Items::none(alloc),
        title: Text::copied(alloc, b"A node")?,
        node_type: name(b"page")?,
        uid: 1,
        uuid: Text::copied(alloc, b"a")?,
        vid: 1,
    };
    rows.set(Cell::Node(nid), Arc::new(alloc, Row::Node(node))?)?;
    Ok(())
}

/// What lets those view a node who hold number 1 of the club.
fn club(alloc: Global) -> Result<Items<GrantRow>, AllocError> {
    let record = GrantRow {
        delete: false,
        gid: 1,
        realm: name(b"club")?,
        update: false,
        view: true,
    };
    Items::one(alloc, record)
}

/// A site with a node of the club's, and three others, two of which have one path.
fn more(alloc: Global) -> Result<Rows, AllocError> {
    let mut rows = begun(alloc)?;
    let path = Text::copied(alloc, b"/about")?;
    let again = Text::copied(alloc, b"/about")?;
    set_node(alloc, &mut rows, 2, None, club(alloc)?)?;
    set_node(alloc, &mut rows, 3, Some(path), Items::none(alloc))?;
    set_node(alloc, &mut rows, 4, Some(again), Items::none(alloc))?;
    set_node(alloc, &mut rows, 5, None, Items::none(alloc))?;
    Ok(rows)
}

/// The text of the targets of rows, if each of these is right.
fn text_of(alloc: Global, rows: Rows) -> Result<Option<Vec<u8>>, AllocError> {
    let state = State::new(alloc, rows, Counts::new(alloc), 0)?;
    if !state.rows().are_right() {
        return Ok(None);
    }
    Ok(Some(targets_text(alloc, &state)?))
}

#[test]
fn the_targets_of_a_new_site(rt: HostRuntime) -> Result<(), Fail> {
    let text = text_of(rt.alloc(), begun(rt.alloc())?)?.expect(&rt, "right rows");
    assert!(rt; text.as_slice() == b"/\n/node/1\n/node\n/user/login\n".as_slice());
    Ok(())
}

/// A node that grants deny isn't among them, a node with a path stands under that, and what two nodes have stands once.
#[test]
fn the_targets_of_more_nodes(rt: HostRuntime) -> Result<(), Fail> {
    let text = text_of(rt.alloc(), more(rt.alloc())?)?.expect(&rt, "right rows");
    let want = b"/\n/node/1\n/about\n/node/5\n/node\n/user/login\n";
    assert!(rt; text.as_slice() == want.as_slice());
    Ok(())
}
