//! A new site's rows, right rows and wrong ones, second copies of rows, and the order and the texts of cells.

use crate::starting::{name, no_text, text};
use cacheability::Name;
use content_rows::{
    Block, BlockKind, Cell, Comment, Duplicate, FieldValue, Items, Link, Listing, Menu, Node,
    Region, Row, Talk, Text, User, starter,
};
use std::alloc::{AllocError, Global};
use std::process::Abort;

fn sendable_and_shared<T: Send + Sync>(_: &T) {}

/// A second copy of the first node among the rows of a new site.
fn copied(alloc: Global, rows: &[(Cell, Row)]) -> Result<Row, AllocError> {
    match rows {
        [_, _, _, _, _, _, (Cell::Node(1), row), _] => row.duplicate(alloc),
        _ => Err(AllocError),
    }
}

/// A second copy of the first node of a new site.
fn first_node(alloc: Global) -> Result<Row, AllocError> {
    let rows = starter(alloc)?;
    sendable_and_shared(&rows);
    let copy = copied(alloc, &rows);
    drop(rows);
    copy
}

/// Whether a node is the first of a new site.
fn is_first_node(node: &Node) -> bool {
    match node.fields.as_slice() {
        [body] => {
            body.value.as_slice() == b"Hello".as_slice()
                && node.title.as_slice() == b"First".as_slice()
                && node.node_type.as_bytes() == b"page".as_slice()
                && node.path.is_none()
        }
        _ => false,
    }
}

/// Whether a row is that node.
fn is_first(row: &Row) -> bool {
    match row {
        Row::Node(node) => is_first_node(node),
        _ => false,
    }
}

#[test]
fn a_new_site_has_a_first_node(rt: HostRuntime) {
    let row = first_node(rt.alloc()).expect(&rt, "memory");
    assert!(rt; is_first(&row));
}

/// Whether a cell has this text.
fn reads(alloc: Global, cell: &Cell, text: &[u8]) -> Result<bool, AllocError> {
    let written = cell.text(alloc)?;
    Ok(written.as_slice() == text)
}

/// Whether a cell stands to the cells of a list as its place does to theirs.
fn stands_at(at: usize, cell: &Cell, cells: &[Cell]) -> bool {
    for (after, other) in cells.iter().enumerate() {
        if (at < after) != (cell < other) || (at == after) != cell.equals(other) {
            return false;
        }
    }
    true
}

/// Cells in their order.
fn cells(long: Name, longer: Name) -> [Cell; 19] {
    [
        Cell::Site,
        Cell::Seq,
        Cell::NodeType(longer),
        Cell::Role(long),
        Cell::Role(longer),
        Cell::User(9),
        Cell::User(10),
        Cell::Term(1),
        Cell::Node(2),
        Cell::Node(4294967294),
        Cell::Menu(long),
        Cell::Listing(long),
        Cell::Block(long),
        Cell::Session(long),
        Cell::Session(longer),
        Cell::Comment(9),
        Cell::Comment(10),
        Cell::Talk,
        Cell::Head,
    ]
}

const CELL_TEXTS: [&[u8]; 19] = [
    b"site",
    b"seq",
    b"type:longer",
    b"role:long",
    b"role:longer",
    b"user:9",
    b"user:10",
    b"term:1",
    b"node:2",
    b"node:4294967294",
    b"menu:long",
    b"listing:long",
    b"block:long",
    b"session:long",
    b"session:longer",
    b"comment:9",
    b"comment:10",
    b"talk",
    b"head",
];

#[test]
fn cells_are_in_order_and_have_their_texts(rt: HostRuntime) {
    let cells = cells(name(&rt, b"long"), name(&rt, b"longer"));
    for (at, (cell, text)) in cells.iter().zip(&CELL_TEXTS).enumerate() {
        assert!(rt; reads(rt.alloc(), cell, text) == Ok(true));
        assert!(rt; stands_at(at, cell, &cells));
    }
}

#[test]
fn texts(rt: HostRuntime) {
    let text = Text::copied(rt.alloc(), b"one").expect(&rt, "memory");
    let copy = text.duplicate(rt.alloc()).expect(&rt, "memory");
    assert!(rt; text.equals(&copy));
    let after = Text::copied(rt.alloc(), b"two").expect(&rt, "memory");
    assert!(rt; text < after);
    assert!(rt; copy.into_vec().as_slice() == b"one".as_slice());
}

#[test]
fn lists(rt: HostRuntime) {
    let numbers = Items::from_vec(Vec::from_slice(rt.alloc(), &[3, 1, 2]).expect(&rt, "memory"));
    let again: Items<u32> = numbers.duplicate(rt.alloc()).expect(&rt, "memory");
    assert!(rt; again.len() == 3);
    assert!(rt; again.into_vec().as_slice() == [3, 1, 2].as_slice());
    assert!(rt; Items::<Text>::none(rt.alloc()).len() == 0);
}

/// The fields of a node, with these names.
fn fields(rt: &impl Abort, alloc: Global, names: &[Name]) -> Items<FieldValue> {
    let mut fields = Vec::new(alloc);
    for name in names {
        let field = FieldValue {
            name: *name,
            value: text(rt, alloc, b"One"),
        };
        fields.push(field).expect(rt, "memory");
    }
    Items::from_vec(fields)
}

/// A node of fields with these names.
fn node(rt: &impl Abort, alloc: Global, path: &[u8], names: [Name; 2]) -> Row {
    Row::Node(Node {
        changed: 1,
        created: 1,
        fields: fields(rt, alloc, &names),
        grants: Items::none(alloc),
        path: Some(text(rt, alloc, path)),
        promote: false,
        refs: Items::none(alloc),
        status: true,
        sticky: false,
        terms: Items::none(alloc),
        title: text(rt, alloc, b"One"),
        node_type: names[0],
        uid: 0,
        uuid: text(rt, alloc, b"n-1"),
        vid: 1,
    })
}

/// A user with that salt.
fn user(rt: &impl Abort, alloc: Global, salt: &[u8]) -> Row {
    Row::User(User {
        created: 1,
        digest: None,
        grants: Items::none(alloc),
        name: text(rt, alloc, b"ann"),
        roles: Items::none(alloc),
        salt: text(rt, alloc, salt),
        status: true,
        uuid: text(rt, alloc, b"u-1"),
    })
}

/// A menu of links that stand under one another, the first under `top`.
fn menu(rt: &impl Abort, alloc: Global, ids: &[Name], top: Option<Name>) -> Row {
    let mut links = Vec::new(alloc);
    let mut parent = top;
    for id in ids {
        let link = Link {
            id: *id,
            parent,
            path: text(rt, alloc, b"/node/1"),
            title: text(rt, alloc, b"One"),
            weight: 0,
        };
        links.push(link).expect(rt, "memory");
        parent = Some(*id);
    }
    Row::Menu(Menu {
        label: text(rt, alloc, b"Main"),
        links: Items::from_vec(links),
    })
}

/// A listing of nodes that are no older than an hour.
fn listing(rt: &impl Abort, alloc: Global, age: Option<u32>) -> Row {
    Row::Listing(Listing {
        age,
        path: Some(text(rt, alloc, b"/node")),
        promoted: false,
        recent: Some(3600),
        term: None,
        title: text(rt, alloc, b"News"),
        types: Items::none(alloc),
    })
}

/// A clock.
fn clock(rt: &impl Abort, alloc: Global, age: Option<u32>) -> Row {
    Row::Block(Block {
        age,
        hide: false,
        kind: BlockKind::Clock,
        label: no_text(alloc),
        name: None,
        paths: Items::one(alloc, text(rt, alloc, b"<front>")).expect(rt, "memory"),
        region: Region::Aside,
        roles: Items::none(alloc),
        text: None,
        weight: -1000,
    })
}

/// Whether a row is right for a cell.
fn is_right(row: Row, cell: Cell) -> bool {
    let right = row.is_right(&cell);
    drop(row);
    right
}

#[test]
fn nodes(rt: HostRuntime) {
    let a = name(&rt, b"a");
    let b = name(&rt, b"b");
    let cases: [(Cell, &[u8], [Name; 2], bool); 6] = [
        (Cell::Node(1), b"/about/us", [a, b], true),
        (Cell::Node(0), b"/about/us", [a, b], false),
        (Cell::Term(1), b"/about/us", [a, b], false),
        (Cell::Node(1), b"/user/us", [a, b], false),
        (Cell::Node(1), b"/about//us", [a, b], false),
        (Cell::Node(1), b"/about/us", [b, a], false),
    ];
    for (cell, path, names, right) in cases {
        assert!(rt; is_right(node(&rt, rt.alloc(), path, names), cell) == right);
    }
}

#[test]
fn users(rt: HostRuntime) {
    assert!(rt; is_right(user(&rt, rt.alloc(), b""), Cell::User(1)));
    assert!(rt; !is_right(user(&rt, rt.alloc(), b"A"), Cell::User(1)));
}

/// A comment that says this, under another.
fn comment(rt: &impl Abort, alloc: Global, body: &[u8], parent: Option<u32>) -> Row {
    Row::Comment(Comment {
        body: text(rt, alloc, body),
        created: 1,
        node: 1,
        parent,
        status: true,
        uid: 0,
        uuid: text(rt, alloc, b"c-1"),
    })
}

#[test]
fn comments(rt: HostRuntime) {
    let cases: [(Cell, &[u8], Option<u32>, bool); 5] = [
        (Cell::Comment(1), b"Yes\nno", None, true),
        (Cell::Comment(1), b"Yes", Some(2), true),
        (Cell::Comment(0), b"Yes", None, false),
        (Cell::Comment(1), b"", None, false),
        (Cell::Comment(1), b"Yes", Some(0), false),
    ];
    for (cell, body, parent, right) in cases {
        assert!(rt; is_right(comment(&rt, rt.alloc(), body, parent), cell) == right);
    }
    assert!(rt; is_right(Row::Talk(Talk { comment: 1 }), Cell::Talk));
    assert!(rt; !is_right(Row::Talk(Talk { comment: 0 }), Cell::Talk));
    let copy = comment(&rt, rt.alloc(), b"Yes", Some(2)).duplicate(rt.alloc());
    assert!(rt; is_right(copy.expect(&rt, "memory"), Cell::Comment(3)));
}

/// The names of these letters.
fn ids(rt: &impl Abort, alloc: Global, letters: &[u8]) -> Vec<Name> {
    let mut ids = Vec::new(alloc);
    for letter in letters {
        ids.push(name(rt, &[*letter])).expect(rt, "memory");
    }
    ids
}

/// The letters of links, whether the first stands under `b`, and whether the menu is right.
const MENUS: [(&[u8], bool, bool); 3] = [
    (b"abcdefghi", false, true),
    (b"abcdefghij", false, false),
    (b"ab", true, false),
];

#[test]
fn menus(rt: HostRuntime) {
    let b = name(&rt, b"b");
    for (letters, under, right) in &MENUS {
        let ids = ids(&rt, rt.alloc(), letters);
        let top = if *under { Some(b) } else { None };
        assert!(rt; is_right(menu(&rt, rt.alloc(), &ids, top), Cell::Menu(b)) == *right);
    }
}

#[test]
fn ages(rt: HostRuntime) {
    let a = name(&rt, b"a");
    for (age, right) in [(Some(60), true), (None, false)] {
        assert!(rt; is_right(listing(&rt, rt.alloc(), age), Cell::Listing(a)) == right);
        assert!(rt; is_right(clock(&rt, rt.alloc(), age), Cell::Block(a)) == right);
    }
}
