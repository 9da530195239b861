//! What the types of cells and tags say of their texts.
ghost use Rattle.std.specs.Prelude.{◌≡◌, ◌<◌, ◌^◌, Some, IsTrue};
ghost use Rattle.cacheability.specs.Tag.{tag_text};
ghost use Rattle.content_rows.specs.LiteralName.{is_name};
ghost use Rattle.keeper_sqlite.specs.Cells.{HasTypedNumber};
ghost use Rattle.keeper_sqlite.specs.Tags.{tag_of, IsTypedTag};

use cacheability::{Name, Tag};
use content_rows::Cell;
use row_kinds::name_bytes;

/// A number of 32 bits is one.
fn is_small(_number: u32)
    ensures { _number < 2 ^ 32 }
{}

/// A name is one.
fn is_one(name: &Name)
    ensures { IsTrue (is_name name.now) }
{
    let _ = name_bytes(name);
}

/// The number of a cell has 32 bits, as its type says.
pub(crate) fn has_its_number(cell: &Cell)
    ensures { HasTypedNumber cell.now }
{
    match cell {
        Cell::User(id) => is_small(*id),
        Cell::Term(id) => is_small(*id),
        Cell::Node(id) => is_small(*id),
        Cell::Comment(id) => is_small(*id),
        _ => {}
    }
}

/// The name of a tag is one and its number has 32 bits, as its type says.
fn is_typed(tag: &Tag)
    ensures { IsTypedTag tag.now }
{
    match tag {
        Tag::NodeType(name) => is_one(name),
        Tag::Role(name) => is_one(name),
        Tag::NodeListOf(name) => is_one(name),
        Tag::Menu(name) => is_one(name),
        Tag::Listing(name) => is_one(name),
        Tag::Block(name) => is_one(name),
        Tag::User(number) => is_small(*number),
        Tag::Term(number) => is_small(*number),
        Tag::Node(number) => is_small(*number),
        Tag::Comment(number) => is_small(*number),
        Tag::CommentList(number) => is_small(*number),
        _ => {}
    }
}

/// A tag is read of its text.
pub(crate) fn is_read_back(tag: &Tag)
    ensures { tag_of (tag_text tag.now) ≡ Some tag.now }
{
    is_typed(tag);
}
