//! The cells of a site: the places that a row can stand in.
ghost use Rattle.std.specs.Prelude.{◌≡◌, ◌++◌, IfOk};
ghost use Rattle.std.specs.Fmt.{decimal};

use crate::text::Text;
use cacheability::Name;
use std::alloc::{AllocError, Global};
use std::cmp::Ordering;

/// The place of a row. Cells are in order of their kind as the variants stand here; within a kind
/// by number, or by the bytes of the name.
#[derive(Clone, Copy, Debug, PartialEq, Eq, PartialOrd, Ord)]
pub enum Cell {
    /// The settings of the site.
    Site,
    /// The next ids to give.
    Seq,
    /// A content type, by its machine name.
    NodeType(Name),
    /// A role, by its machine name.
    Role(Name),
    /// A user, by its id.
    User(u32),
    /// A taxonomy term, by its id.
    Term(u32),
    /// A node, by its id.
    Node(u32),
    /// A menu, by its machine name.
    Menu(Name),
    /// A listing of nodes, by its machine name.
    Listing(Name),
    /// A placed block, by its machine name.
    Block(Name),
    /// A session, by its token.
    Session(Name),
    /// A comment, by its id.
    Comment(u32),
    /// The next id to give to a comment; it is absent until the first one.
    Talk,
    /// The head number, which is no row; it is last.
    Head,
}

impl Cell {
    ghost use Rattle.std.specs.Prelude.{◌≡◌, ◌↔◌, IfOk, IsTrue};
    ghost use Rattle.content_rows.specs.CellText.{cell_text};
    ghost use Rattle.content_rows.specs.CellOrder.{cell_cmp, order_of_cells, TellsCellsApart};

    /// What the cell is called in a line of rows and in a store, as `site` or `node:1`.
    /// `Err` only where memory is wanting.
    pub fn text(&self, alloc: Global) -> Result<Text, AllocError>
        ensures { IfOk result (λ t. t ≡ cell_text self.now) }
    {
        match self {
            Cell::Site => Text::copied(alloc, b"site"),
            Cell::Seq => Text::copied(alloc, b"seq"),
            Cell::NodeType(name) => named(alloc, b"type:", name),
            Cell::Role(name) => named(alloc, b"role:", name),
            Cell::User(id) => numbered(alloc, b"user:", *id),
            Cell::Term(id) => numbered(alloc, b"term:", *id),
            Cell::Node(id) => numbered(alloc, b"node:", *id),
            Cell::Menu(name) => named(alloc, b"menu:", name),
            Cell::Listing(name) => named(alloc, b"listing:", name),
            Cell::Block(name) => named(alloc, b"block:", name),
            Cell::Session(name) => named(alloc, b"session:", name),
            Cell::Comment(id) => numbered(alloc, b"comment:", *id),
            Cell::Talk => Text::copied(alloc, b"talk"),
            Cell::Head => Text::copied(alloc, b"head"),
        }
    }

    /// How the two stand in the order of cells: by their kinds, and within a kind by number or by
    /// the bytes of the name.
    pub fn order(&self, other: &Cell) -> Ordering
        ensures told { result ≡ order_of_cells self.now other.now }
        ensures kept { result ≡ cell_cmp self.now other.now }
    {
        self.cmp(other)
    }

    /// Whether both are the same place, which the order of cells tells too: it is `Equal` there alone.
    pub fn equals(&self, other: &Cell) -> bool
        ensures same { IsTrue result ↔ (self.now ≡ other.now) }
        ensures apart { TellsCellsApart }
    {
        self == other
    }
}

/// The word of a kind, and a name after it.
fn named(alloc: Global, kind: &[u8], name: &Name) -> Result<Text, AllocError>
    ensures { IfOk result (λ t. t ≡ kind.now ++ name.now) }
{
    let mut bytes = Vec::from_slice(alloc, kind)?;
    bytes.extend_from_slice(name.as_bytes())?;
    Ok(Text::from_vec(bytes))
}

/// The word of a kind, and a number after it.
fn numbered(alloc: Global, kind: &[u8], number: u32) -> Result<Text, AllocError>
    ensures { IfOk result (λ t. t ≡ kind.now ++ decimal number) }
{
    let digits = number.to_string(alloc)?;
    let mut bytes = Vec::from_slice(alloc, kind)?;
    bytes.extend_from_slice(digits.as_bytes())?;
    Ok(Text::from_vec(bytes))
}
