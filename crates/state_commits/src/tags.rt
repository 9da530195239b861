//! The tags that an edit invalidates.
ghost use Rattle.std.specs.Prelude.{◌≡◌, ◌++◌, IfOk, OnOk};
ghost use Rattle.std.specs.List.Sorted.{IsStrictlySortedBy};
ghost use Rattle.std.specs.Option.{option_copied};
ghost use Rattle.cacheability.specs.InOrder.{union};
ghost use Rattle.cacheability.specs.Tag.{tag_cmp};
ghost use Rattle.content_state.specs.Replay.{bumps, if_absent, list_of_node, list_of_type, tags_of_write, tags_of_commit};

use cacheability::{OrderedSet, Tag};
use content_rows::{Cell, Row};
use content_state::{Commit, Rows, Write};
use std::alloc::{AllocError, Global};

/// The tags that an edit of these rows invalidates, each once, in the order of their texts: those of its writes, by the
/// rows that stand before it, and its own. `Err` only where memory is wanting.
pub fn tags_of_commit(
    alloc: Global,
    rows: &Rows,
    commit: &Commit,
) -> Result<OrderedSet<Tag>, AllocError>
    ensures same { IfOk result (λ tags. tags ≡ tags_of_commit rows.now commit.now) }
    ensures ordered { IfOk result (λ tags. IsStrictlySortedBy tag_cmp tags) }
{
    let mut tags = OrderedSet::new(alloc);
    'writes: for write in commit.writes.as_slice() {
        let more = tags_of_write(alloc, rows, write)?;
        add_all(&mut tags, more.as_slice())?;
    }
    add_all(&mut tags, commit.extra.as_slice())?;
    Ok(tags)
}

/// Adds each of these tags that is not there yet.
fn add_all(tags: &mut OrderedSet<Tag>, more: &[Tag]) -> Result<(), AllocError>
    ensures { OnOk result (tags.new ≡ union tag_cmp tags.old more.now) }
{
    'more: for tag in more {
        tags.insert(*tag)?;
    }
    Ok(())
}

/// The tags that a write to these rows invalidates, each once, in the order in which their counts are raised. Only want of
/// memory refuses.
pub fn tags_of_write(alloc: Global, rows: &Rows, write: &Write) -> Result<Vec<Tag>, AllocError>
    ensures { IfOk result (λ tags. tags.items ≡ tags_of_write rows.now write.now) }
{
    let new = match &write.row {
        Some(row) => Some(row.as_ref()),
        None => None,
    };
    bumps(alloc, &write.cell, rows.get(write.cell), new)
}

/// The tags that a write to a cell invalidates, by the row that was there and the one that is there then.
/// <https://www.drupal.org/docs/drupal-apis/cache-api/cache-tags>
fn bumps(
    alloc: Global,
    cell: &Cell,
    old: Option<&Row>,
    new: Option<&Row>,
) -> Result<Vec<Tag>, AllocError>
    ensures { IfOk result (λ tags. tags.items ≡ bumps cell.now (option_copied old.entry) (option_copied new.entry)) }
{
    match cell {
        Cell::Site => Vec::from_slice(alloc, &[Tag::Site]),
        Cell::Seq => Ok(Vec::new(alloc)),
        Cell::NodeType(name) => Vec::from_slice(alloc, &[Tag::NodeType(*name)]),
        Cell::Role(name) => Vec::from_slice(alloc, &[Tag::Role(*name)]),
        Cell::User(uid) => with_absent(Vec::from_slice(alloc, &[Tag::User(*uid)])?, old),
        Cell::Term(tid) => {
            with_absent(
                Vec::from_slice(alloc, &[Tag::Term(*tid), Tag::TermList])?,
                old,
            )
        }
        Cell::Node(nid) => node_bumps(alloc, *nid, old, new),
        Cell::Menu(name) => Vec::from_slice(alloc, &[Tag::Menu(*name)]),
        Cell::Listing(name) => Vec::from_slice(alloc, &[Tag::Listing(*name), Tag::NotFound]),
        Cell::Block(name) => Vec::from_slice(alloc, &[Tag::Block(*name), Tag::BlockList]),
        Cell::Session(_) => Ok(Vec::new(alloc)),
        Cell::Comment(cid) => comment_bumps(alloc, *cid, old, new),
        Cell::Talk => Ok(Vec::new(alloc)),
        Cell::Head => Ok(Vec::new(alloc)),
    }
}

/// These tags, and `4xx-response` where no row was there.
fn with_absent(mut tags: Vec<Tag>, old: Option<&Row>) -> Result<Vec<Tag>, AllocError>
    ensures { IfOk result (λ all. all.items ≡ tags.items ++ if_absent (option_copied old.entry)) }
{
    if old.is_none() {
        tags.push(Tag::NotFound)?;
    }
    Ok(tags)
}

/// The tags of a write to a node: its own, those of the lists that it stood in and of those that it
/// stands in then, and `4xx-response`, since its path may be another.
fn node_bumps(
    alloc: Global,
    nid: u32,
    old: Option<&Row>,
    new: Option<&Row>,
) -> Result<Vec<Tag>, AllocError>
    ensures { IfOk result (λ tags. tags.items ≡ bumps (Cell.Node nid) (option_copied old.entry) (option_copied new.entry)) }
{
    let mut tags = Vec::from_slice(alloc, &[Tag::Node(nid), Tag::NodeList, Tag::NotFound])?;
    add_list_of_type(&mut tags, old)?;
    add_list_of_type(&mut tags, new)?;
    Ok(tags)
}

/// Adds the tag of the list of nodes of a node's type.
fn add_list_of_type(tags: &mut Vec<Tag>, row: Option<&Row>) -> Result<(), AllocError>
    ensures { OnOk result (tags.new.items ≡ tags.old.items ++ list_of_type (option_copied row.entry)) }
{
    if let Some(Row::Node(node)) = row {
        tags.push(Tag::NodeListOf(node.node_type))?;
    }
    Ok(())
}

/// The tags of a write to a comment: its own, and those of the lists of comments of the nodes that it stood on and stands
/// on then.
fn comment_bumps(
    alloc: Global,
    cid: u32,
    old: Option<&Row>,
    new: Option<&Row>,
) -> Result<Vec<Tag>, AllocError>
    ensures { IfOk result (λ tags. tags.items ≡ bumps (Cell.Comment cid) (option_copied old.entry) (option_copied new.entry)) }
{
    let mut tags = Vec::from_slice(alloc, &[Tag::Comment(cid)])?;
    add_list_of_node(&mut tags, old)?;
    add_list_of_node(&mut tags, new)?;
    Ok(tags)
}

/// Adds the tag of the list of comments of a comment's node.
fn add_list_of_node(tags: &mut Vec<Tag>, row: Option<&Row>) -> Result<(), AllocError>
    ensures { OnOk result (tags.new.items ≡ tags.old.items ++ list_of_node (option_copied row.entry)) }
{
    if let Some(Row::Comment(comment)) = row {
        tags.push(Tag::CommentList(comment.node))?;
    }
    Ok(())
}
