//! The rows of a state.
ghost use Rattle.std.specs.Prelude.{◌≡◌, ◌≤◌, ◌<◌, ◌+◌, ◌++◌, ◌∷◌, ◌↔◌, [], Some, None, IsTrue, IsPermutation, IfOk, IfErr, OnOk, OnErr, length, map};
ghost use Rattle.std.specs.Option.{option_copied, option_map};
ghost use Rattle.std.specs.Arc.{arc_value};
ghost use Rattle.std.specs.Iterator.{YieldsFirstBy, item_count};
ghost use Rattle.bucket_map.specs.Buckets.{bucket_size};
ghost use Rattle.cell_keys.specs.Places.{cell_place};
ghost use Rattle.indexed_rows.specs.Rows.{entry_of, shown, entries_left, with_row, without_row};

use bucket_map::{Again, BucketMap, Steps, Walk};
use cell_keys::CellKey;
use content_rows::{Cell, Row};
use std::alloc::{AllocError, AllocFailed, Global};
use std::marker::{Brand, Model};
use std::sync::Arc;
use std::sync::ledger::{Blank, Ledger};
use std::vec::IntoIter;

/// A row that several states may share, which contracts see as the row.
struct Shared {
    row: Arc<Row>,
}

impl Drop for Shared {
    fn drop(self) {
        let Shared { row: _ } = self;
    }
}

impl Model for Shared {
    ghost use Rattle.std.specs.Arc.{arc_value};
    ghost use Rattle.content_rows.specs.declared.row.Row.{Row as RowValue};

    ghost Value = { RowValue };

    ghost view = { λ s. arc_value s.row };
}

impl Shared {
    fn into_row(self) -> Arc<Row>
        ensures { arc_value result ≡ self }
    {
        let Shared { row } = self;
        row
    }
}

impl Again for Shared {
    fn again(&self) -> Result<Shared, AllocError> {
        Ok(Shared {
            row: Arc::try_clone(&self.row)?,
        })
    }
}

/// The rows of a state: a finite map from cells to rows, which contracts see as the list of its pairs in cell order.
/// Several states may share a row, and all rows of a bucket.
pub struct Rows {
    map: BucketMap<CellKey, Shared>,
}

impl Drop for Rows {
    fn drop(self) {
        let Rows { map: _ } = self;
    }
}

impl Model for Rows {
    ghost use Rattle.std.specs.Prelude.{List};
    ghost use Rattle.content_rows.specs.declared.cell.Cell.{Cell as CellValue};
    ghost use Rattle.content_rows.specs.declared.row.Row.{Row as RowValue};

    ghost Value = { List (CellValue × RowValue) };

    ghost view = { λ r. r.map };
}

/// The cells that have a row, each with its row, in an order that is not told. Contracts see it as the list of those that are
/// left.
#[derive(Drop)]
pub struct RowsIter<'a> {
    entries: Walk<'a, CellKey, Shared>,
}

impl<'a> Model for RowsIter<'a> {
    ghost use Rattle.std.specs.Prelude.{List};
    ghost use Rattle.content_rows.specs.declared.cell.Cell.{Cell as CellValue};
    ghost use Rattle.content_rows.specs.declared.row.Row.{Row as RowValue};

    ghost Value = { List (CellValue × RowValue) };

    ghost view = { λ i. i.entries };
}

impl<'a> Iterator for RowsIter<'a> {
    type Item = (&'a Cell, &'a Row);

    ghost next_gives = { YieldsFirstBy entry_of entries_left };

    ghost remaining = { item_count entries_left };

    fn next(&mut self) -> Option<(&'a Cell, &'a Row)> {
        match self.entries.next() {
            Some((key, shared)) => Some((&key.0, shared.row.as_ref())),
            None => None,
        }
    }
}

/// The cells that have a row, each with its row, in cell order. Contracts see it as the list of those that are left.
#[derive(Drop)]
pub struct RowsInOrder<'a> {
    entries: IntoIter<(Cell, &'a Row)>,
}

impl<'a> Model for RowsInOrder<'a> {
    ghost use Rattle.std.specs.Prelude.{List, map};
    ghost use Rattle.std.specs.Vec.Iter.{into_iter_items};
    ghost use Rattle.content_rows.specs.declared.cell.Cell.{Cell as CellValue};
    ghost use Rattle.content_rows.specs.declared.row.Row.{Row as RowValue};
    ghost use Rattle.indexed_rows.specs.Rows.{shown};

    ghost Value = { List (CellValue × RowValue) };

    ghost view = { λ i. map shown (into_iter_items i.entries) };
}

impl<'a> Iterator for RowsInOrder<'a> {
    type Item = (Cell, &'a Row);

    ghost next_gives = { YieldsFirstBy shown entries_left };

    ghost remaining = { item_count entries_left };

    fn next(&mut self) -> Option<(Cell, &'a Row)> {
        self.entries.next()
    }
}

impl Rows {
    ghost use Rattle.indexed_rows.specs.Rows.{row_at, with_row, without_row, InOrder, AreValidRows};

    /// No rows.
    pub fn new(alloc: Global) -> Rows
        ensures { result ≡ [] }
    {
        Rows {
            map: BucketMap::new(alloc),
        }
    }

    /// The row of a cell.
    pub fn get(&self, cell: Cell) -> Option<&Row>
        ensures { option_copied result ≡ row_at self.now cell }
    {
        match self.map.get(&CellKey(cell)) {
            Some(shared) => Some(shared.row.as_ref()),
            None => None,
        }
    }

    /// The row of a cell, to be shared. `Err` only where memory is wanting.
    pub fn shared(&self, cell: Cell) -> Result<Option<Arc<Row>>, AllocError>
        ensures { IfOk result (λ row. option_map (λ r. arc_value r) row ≡ row_at self.now cell) }
    {
        match self.map.get(&CellKey(cell)) {
            Some(shared) => Ok(Some(Arc::try_clone(&shared.row)?)),
            None => Ok(None),
        }
    }

    /// How many rows there are.
    pub fn len(&self) -> usize
        ensures { result ≡ length self.now }
    {
        self.map.len()
    }

    /// How many rows the bucket of a cell has.
    pub fn bucket_len(&self, cell: Cell) -> usize
        ensures { result ≡ bucket_size cell_place self.now (cell_place cell) }
    {
        self.map.bucket_len(&CellKey(cell))
    }

    /// Whether there is no row.
    pub fn is_empty(&self) -> bool
        ensures { IsTrue result ↔ (self.now ≡ []) }
    {
        self.map.is_empty()
    }

    /// The law that each cell has one row, and that contracts see the rows in cell order.
    pub fn stands_in_order(&self)
        ensures { InOrder self.now }
    {
        self.map.stands_in_order();
    }

    /// The cells that have a row, each with its row, in an order that is not told. It takes no memory.
    pub fn each(&self) -> RowsIter<'_>
        ensures { IsPermutation self.now result }
    {
        RowsIter {
            entries: self.map.each(),
        }
    }

    /// The cells that have a row, each with its row, in cell order. `Err` only where memory is wanting.
    pub fn in_order(&self, alloc: Global) -> Result<RowsInOrder<'_>, AllocError>
        ensures rows { IfOk result (λ entries. entries ≡ self.now) }
        ensures ordered { InOrder self.now }
    {
        self.stands_in_order();
        let keys = self.map.keys_in_order(alloc)?;
        let mut entries = Vec::with_capacity(alloc, keys.len())?;
        'keys: for key in &keys {
            if let Some(row) = self.get(key.0) {
                push(&mut entries, key.0, row)?;
            }
        }
        Ok(RowsInOrder {
            entries: entries.into_iter(),
        })
    }

    /// Whether each row is right, by itself.
    pub fn are_right(&self) -> bool
        ensures { IsTrue result ↔ AreValidRows self.now }
    {
        'rows: for (cell, row) in self.each() {
            if !row.is_right(cell) {
                return false;
            }
        }
        true
    }

    /// Sets the row of a cell. Where memory is wanting, the rows are as they were, and the cell and the row come back.
    pub fn set(&mut self, cell: Cell, row: Arc<Row>) -> Result<(), AllocFailed<(Cell, Arc<Row>)>>
        ensures ok { OnOk result (self.new ≡ with_row self.old cell (arc_value row)) }
        ensures err { OnErr result (self.new ≡ self.old) }
        ensures back { IfErr result (λ f. (f.value.0 ≡ cell) × (arc_value f.value.1 ≡ arc_value row)) }
    {
        let key = CellKey(cell);
        let shared = Shared { row };
        let set = put_from::<Brand>(&mut self.map, &key, &shared, Blank::new(1));
        match set {
            Ok(()) => Ok(()),
            Err(_) => Err(AllocFailed {
                value: (key.0, shared.into_row()),
            }),
        }
    }

    /// As `set`, with a count of the entries that are put into buckets: as many as the cell's bucket has, and one, at most.
    pub fn set_counted<L: Ledger>(
        &mut self,
        cell: Cell,
        row: Arc<Row>,
        steps: &mut Steps<L>,
    ) -> Result<(), AllocError>
        ensures ok { OnOk result (self.new ≡ with_row self.old cell (arc_value row)) }
        ensures err { OnErr result (self.new ≡ self.old) }
        ensures cost { steps.new ≤ steps.old + (bucket_size cell_place self.old (cell_place cell) + 1) }
    {
        self.map.put(&CellKey(cell), &Shared { row }, steps)
    }

    /// Removes the row of a cell, if it has one. `Err` only where memory is wanting, and then the rows are as they were.
    pub fn remove(&mut self, cell: &Cell) -> Result<(), AllocError>
        ensures ok { OnOk result (self.new ≡ without_row self.old cell.now) }
        ensures err { OnErr result (self.new ≡ self.old) }
    {
        remove_from::<Brand>(&mut self.map, &CellKey(*cell), Blank::new(1))
    }

    /// As `remove`, with a count of the entries that are put into buckets: as many as the cell's bucket has, at most.
    pub fn remove_counted<L: Ledger>(
        &mut self,
        cell: &Cell,
        steps: &mut Steps<L>,
    ) -> Result<(), AllocError>
        ensures ok { OnOk result (self.new ≡ without_row self.old cell.now) }
        ensures err { OnErr result (self.new ≡ self.old) }
        ensures cost { steps.new ≤ steps.old + bucket_size cell_place self.old (cell_place cell.now) }
    {
        self.map.remove(&CellKey(*cell), steps)
    }

    /// A copy of the rows, which shares each bucket with these. `Err` only where memory is wanting.
    pub fn duplicate(&self, _alloc: Global) -> Result<Rows, AllocError>
        ensures { IfOk result (λ copy. copy ≡ self.now) }
    {
        Ok(Rows {
            map: self.map.share()?,
        })
    }
}

/// Puts a cell and its row behind others. `Err` only where memory is wanting.
fn push<'a>(entries: &mut Vec<(Cell, &'a Row)>, cell: Cell, row: &'a Row) -> Result<(), AllocError>
    ensures { OnOk result (map shown entries.new.items ≡ map shown entries.old.items ++ (cell, row.now) ∷ []) }
{
    match entries.push((cell, row)) {
        Ok(()) => Ok(()),
        Err(_) => Err(AllocError),
    }
}

/// Sets the row of a key, with a count of steps of its own.
fn put_from<L: Ledger>(
    map: &mut BucketMap<CellKey, Shared>,
    key: &CellKey,
    row: &Shared,
    blank: Blank,
) -> Result<(), AllocError>
    requires name { blank.name ≡ L.name }
    requires parts { blank.parts ≡ L.parts }
    requires some { 0 < L.parts }
    ensures ok { OnOk result (map.new ≡ with_row map.old key.now row.now) }
    ensures err { OnErr result (map.new ≡ map.old) }
{
    let mut steps = Steps::<L>::new(blank);
    map.put(key, row, &mut steps)
}

/// Removes the row of a key, with a count of steps of its own.
fn remove_from<L: Ledger>(
    map: &mut BucketMap<CellKey, Shared>,
    key: &CellKey,
    blank: Blank,
) -> Result<(), AllocError>
    requires name { blank.name ≡ L.name }
    requires parts { blank.parts ≡ L.parts }
    requires some { 0 < L.parts }
    ensures ok { OnOk result (map.new ≡ without_row map.old key.now) }
    ensures err { OnErr result (map.new ≡ map.old) }
{
    let mut steps = Steps::<L>::new(blank);
    map.remove(key, &mut steps)
}
