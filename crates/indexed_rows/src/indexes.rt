//! The indexes of a state's rows: the keys that its rows give, in order.
ghost use Rattle.std.specs.Prelude.{◌≡◌, List, IfOk, OnOk};
ghost use Rattle.std.specs.Option.{option_copied};
ghost use Rattle.index_law.specs.Index.{index_of, keys_at};
ghost use Rattle.content_rows.specs.declared.cell.Cell.{Cell};
ghost use Rattle.content_rows.specs.declared.row.Row.{Row};
ghost use Rattle.indexed_rows.specs.Indexes.{AreIndexes, AreKeysOf};
ghost use Rattle.indexed_rows.specs.Write.{written};

use crate::rows::Rows;
use crate::text_mark::TextKey;
use crate::write::Write;
use content_rows::{Cell, Row};
use row_keys::{BlockKey, CommentKey, Key, NodeRank, ParentKey, TermKey, TypeKey};
use shared_set::SharedSet;
use std::alloc::{AllocError, Global};

/// The indexes of some rows.
pub struct Indexes {
    /// The published nodes, in the order of listings.
    pub nodes: SharedSet<NodeRank>,
    /// The published nodes, by their types, each type in the order of listings.
    pub types: SharedSet<TypeKey>,
    /// The published nodes, by their terms, each term in the order of listings.
    pub terms: SharedSet<TermKey>,
    /// The terms, by the terms above them.
    pub parents: SharedSet<ParentKey>,
    /// The comments, by their nodes.
    pub comments: SharedSet<CommentKey>,
    /// The blocks, by their regions.
    pub blocks: SharedSet<BlockKey>,
    /// The texts that no two rows may have in common.
    pub texts: SharedSet<TextKey>,
}

impl Drop for Indexes {
    fn drop(self) {
        let Indexes {
            nodes: _,
            types: _,
            terms: _,
            parents: _,
            comments: _,
            blocks: _,
            texts: _,
        } = self;
    }
}

impl Indexes {
    /// The indexes of some rows, by one walk over them. `Err` only where memory is wanting.
    pub fn of(alloc: Global, rows: &Rows) -> Result<Indexes, AllocError>
        ensures { IfOk result (λ indexes. AreIndexes rows.now indexes) }
    {
        let mut nodes = Vec::new(alloc);
        let mut types = Vec::new(alloc);
        let mut terms = Vec::new(alloc);
        let mut parents = Vec::new(alloc);
        let mut comments = Vec::new(alloc);
        let mut blocks = Vec::new(alloc);
        let mut texts = Vec::new(alloc);
        'rows: for (cell, row) in rows.each() {
            NodeRank::add(&mut nodes, cell, row)?;
            TypeKey::add(&mut types, cell, row)?;
            TermKey::add(&mut terms, cell, row)?;
            ParentKey::add(&mut parents, cell, row)?;
            CommentKey::add(&mut comments, cell, row)?;
            BlockKey::add(&mut blocks, cell, row)?;
            TextKey::add(&mut texts, cell, row)?;
        }
        // the longest keys first, since their room is free then
        Ok(Indexes {
            texts: set_of(alloc, texts)?,
            types: set_of(alloc, types)?,
            terms: set_of(alloc, terms)?,
            nodes: set_of(alloc, nodes)?,
            parents: set_of(alloc, parents)?,
            comments: set_of(alloc, comments)?,
            blocks: set_of(alloc, blocks)?,
        })
    }

    /// A copy of the indexes, which shares all sets with these. `Err` only where memory is wanting.
    pub fn share(&self) -> Result<Indexes, AllocError>
        ensures { IfOk result (λ indexes. indexes ≡ self.now) }
    {
        Ok(Indexes {
            nodes: self.nodes.share()?,
            types: self.types.share()?,
            terms: self.terms.share()?,
            parents: self.parents.share()?,
            comments: self.comments.share()?,
            blocks: self.blocks.share()?,
            texts: self.texts.share()?,
        })
    }

    /// Keeps the indexes of some rows through a write to these, which is still to be made. An index that the write does not
    /// touch stays shared. `Err` only where memory is wanting; then some of them may be those of the rows after it.
    pub fn follow(&mut self, alloc: Global, rows: &Rows, write: &Write) -> Result<(), AllocError>
        requires { AreIndexes rows.now self.old }
        ensures { OnOk result (AreIndexes (written rows.now write.now) self.new) }
    {
        follow(alloc, &mut self.nodes, rows, write)?;
        follow(alloc, &mut self.types, rows, write)?;
        follow(alloc, &mut self.terms, rows, write)?;
        follow(alloc, &mut self.parents, rows, write)?;
        follow(alloc, &mut self.comments, rows, write)?;
        follow(alloc, &mut self.blocks, rows, write)?;
        follow(alloc, &mut self.texts, rows, write)
    }
}

/// The index of the rows whose keys these are, in whatever order.
fn set_of<K: Key>(alloc: Global, keys: Vec<K>) -> Result<SharedSet<K>, AllocError>
    ensures { (rows : List (Cell × Row)) → AreKeysOf K.keys rows keys.items → IfOk result (λ set. set ≡ index_of K.cmp K.keys rows) }
{
    let mut keys = keys;
    keys.sort_unstable();
    keys.dedup();
    SharedSet::of(alloc, keys.as_slice())
}

/// Keeps an index of some rows through a write.
fn follow<K: Key>(
    alloc: Global,
    set: &mut SharedSet<K>,
    rows: &Rows,
    write: &Write,
) -> Result<(), AllocError>
    requires { set.old ≡ index_of K.cmp K.keys rows.now }
    ensures { OnOk result (set.new ≡ index_of K.cmp K.keys (written rows.now write.now)) }
{
    rows.stands_in_order();
    let old = keys_of(alloc, &write.cell, rows.get(write.cell))?;
    let new = new_keys(alloc, write)?;
    set.exchange(old.as_slice(), new.as_slice())
}

/// The keys that a cell gives after a write.
fn new_keys<K: Key>(alloc: Global, write: &Write) -> Result<Vec<K>, AllocError>
    ensures { IfOk result (λ keys. keys.items ≡ keys_at K.keys write.now.cell write.now.row) }
{
    match &write.row {
        Some(row) => keys_of(alloc, &write.cell, Some(row.as_ref())),
        None => Ok(Vec::new(alloc)),
    }
}

/// The keys that a cell gives, by its row, if it has one.
fn keys_of<K: Key>(alloc: Global, cell: &Cell, row: Option<&Row>) -> Result<Vec<K>, AllocError>
    ensures { IfOk result (λ keys. keys.items ≡ keys_at K.keys cell.now (option_copied row.entry)) }
{
    let mut keys = Vec::new(alloc);
    if let Some(row) = row {
        K::add(&mut keys, cell, row)?;
    }
    Ok(keys)
}
