//! The rows that a new site begins with.
ghost use Rattle.std.specs.Prelude.{◌≡◌, ◌++◌, ◌∷◌, List, [], IfOk, IsTrue};
ghost use Rattle.content_rows.specs.LiteralName.{is_name};
ghost use Rattle.content_rows.specs.StarterRows.{
  starter_site,
  starter_seq,
  starter_page_type,
  starter_role,
  starter_admin,
  starter_node,
  starter_frontpage,
  starter_rows,
  AllValid,
  InCellOrder,
};

use crate::cell::Cell;
use crate::row::{FieldRow, FieldValue, Listing, Node, NodeType, Role, Row, Seq, Site, User};
use crate::text::{Items, Text};
use cacheability::Name;
use std::alloc::{AllocError, Global};

/// The eight rows that a new site begins with, in the order of their cells: its settings, the next
/// ids, the type `page`, the roles `anonymous` and `authenticated`, the user `admin`, a first node
/// and the front page's listing. `Err` only where memory is wanting.
pub fn starter(alloc: Global) -> Result<Vec<(Cell, Row)>, AllocError>
    ensures rows { IfOk result (λ v. v.items ≡ starter_rows) }
    ensures valid { IfOk result (λ v. AllValid v.items) }
    ensures in_order { IfOk result (λ v. InCellOrder v.items) }
{
    Ok(written(alloc)?)
}

/// The eight rows, written one after the other.
#[tactic(auto, unfolding(crate::specs::StarterRows::starter_rows))]
fn written(alloc: Global) -> Result<Vec<(Cell, Row)>, AllocError>
    ensures { IfOk result (λ v. v.items ≡ starter_rows) }
{
    let page = Cell::NodeType(name(b"page"));
    let anonymous = Cell::Role(name(b"anonymous"));
    let member = Cell::Role(name(b"authenticated"));
    let rows = Vec::with_capacity(alloc, 8);
    let rows = with_row(rows, Cell::Site, site(alloc));
    let rows = with_row(rows, Cell::Seq, Ok(seq()));
    let rows = with_row(rows, page, page_type(alloc));
    let rows = with_row(rows, anonymous, role(alloc, b"Anonymous"));
    let rows = with_row(rows, member, role(alloc, b"Member"));
    let rows = with_row(rows, Cell::User(1), admin(alloc));
    let rows = with_row(rows, Cell::Node(1), node(alloc));
    with_row(rows, Cell::Listing(name(b"frontpage")), frontpage(alloc))
}

/// Rows with a row more at their end. `Err` where memory is wanting, or was wanting before. What a
/// row is doesn't matter here, so the proof doesn't see how one ends.
fn with_row<C: Copy, R: Drop>(
    rows: Result<Vec<(C, R)>, AllocError>,
    cell: C,
    row: Result<R, AllocError>,
) -> Result<Vec<(C, R)>, AllocError>
    ensures { (before : List (C × R)) (r : R) → IfOk rows (λ v. v.items ≡ before) → IfOk row (λ x. x ≡ r) → IfOk result (λ v. v.items ≡ before ++ (cell, r) ∷ []) }
{
    let row = row?;
    let mut rows = rows?;
    rows.push((cell, row))?;
    Ok(rows)
}

/// The name that these bytes of the code are.
fn name(bytes: &[u8]) -> Name
    requires { IsTrue (is_name bytes.now) }
    ensures { result ≡ bytes.now }
{
    match Name::new(bytes) {
        Ok(name) => name,
        Err(_) => unreachable!(),
    }
}

/// The texts of these bytes of the code.
fn texts(alloc: Global, first: &[u8], second: &[u8]) -> Result<(Text, Text), AllocError>
    ensures { IfOk result (λ texts. (texts.0 ≡ first.now) × (texts.1 ≡ second.now)) }
{
    Ok((Text::copied(alloc, first)?, Text::copied(alloc, second)?))
}

fn site(alloc: Global) -> Result<Row, AllocError>
    ensures { IfOk result (λ r. r ≡ starter_site) }
{
    let (front, name) = texts(alloc, b"/node", b"Site")?;
    Ok(Row::Site(Site { front, name }))
}

fn seq() -> Row
    ensures { result ≡ starter_seq }
{
    Row::Seq(Seq {
        node: 2,
        term: 1,
        user: 2,
    })
}

fn page_type(alloc: Global) -> Result<Row, AllocError>
    ensures { IfOk result (λ r. r ≡ starter_page_type) }
{
    let (label, body_label) = texts(alloc, b"Page", b"Body")?;
    let body = FieldRow {
        edit: None,
        label: body_label,
        name: name(b"body"),
        owner: false,
        teaser: true,
        view: None,
    };
    Ok(Row::NodeType(NodeType {
        fields: Items::one(alloc, body)?,
        label,
        submitted: false,
    }))
}

fn role(alloc: Global, label: &[u8]) -> Result<Row, AllocError>
    ensures { IfOk result (λ r. r ≡ starter_role label.now) }
{
    let (label, permission) = texts(alloc, label, b"access content")?;
    let permissions = Items::one(alloc, permission)?;
    Ok(Row::Role(Role {
        admin: false,
        grants: Items::none(alloc),
        label,
        permissions,
    }))
}

fn admin(alloc: Global) -> Result<Row, AllocError>
    ensures { IfOk result (λ r. r ≡ starter_admin) }
{
    let (name, uuid) = texts(alloc, b"admin", b"u-1")?;
    Ok(Row::User(User {
        created: 0,
        digest: None,
        grants: Items::none(alloc),
        name,
        roles: Items::none(alloc),
        salt: Text::from_vec(Vec::new(alloc)),
        status: true,
        uuid,
    }))
}

fn node(alloc: Global) -> Result<Row, AllocError>
    ensures { IfOk result (λ r. r ≡ starter_node) }
{
    let body = FieldValue {
        name: name(b"body"),
        value: Text::copied(alloc, b"Hello")?,
    };
    let fields = Items::one(alloc, body)?;
    let (title, uuid) = texts(alloc, b"First", b"n-1")?;
    Ok(Row::Node(Node {
        changed: 100,
        created: 100,
        fields,
        grants: Items::none(alloc),
        path: None,
        promote: true,
        refs: Items::none(alloc),
        status: true,
        sticky: false,
        terms: Items::none(alloc),
        title,
        node_type: name(b"page"),
        uid: 1,
        uuid,
        vid: 1,
    }))
}

fn frontpage(alloc: Global) -> Result<Row, AllocError>
    ensures { IfOk result (λ r. r ≡ starter_frontpage) }
{
    let (path, title) = texts(alloc, b"/node", b"Home")?;
    Ok(Row::Listing(Listing {
        age: None,
        path: Some(path),
        promoted: true,
        recent: None,
        term: None,
        title,
        types: Items::none(alloc),
    }))
}
