//! Which tables a database has.
ghost use Rattle.std.specs.Prelude.{◌≡◌, ◌↔◌, [], ◌∷◌, None, false, true, IsTrue, IfSome, IfNone};
ghost use Rattle.sqlite.specs.Kind.{Kind};
ghost use Rattle.sqlite.specs.declared.types.Value.TheVariants.{Null};
ghost use Rattle.sqlite_schema.specs.declared.schema.Kind.TheVariants as kinds;
ghost use Rattle.tables_sqlite.specs.Faults.{HasOther, IsMisshapen};
ghost use Rattle.table_laws.specs.Schema.{column_of, pairs, index_of, no_tables, two_tables, cell_row, cachetags, by_cell, by_tag};

use crate::fault::StoreTable;
use sqlite_items::Items;
use sqlite_schema::schema::{Column, Index, Kind, Schema, Stamps, Table};
use sqlite_value::keys::{Collation, Order};
use sqlite_value::value::{Bytes, Value};

/// Whether these are the bytes of a text.
fn is_text(bytes: &Bytes, text: &[u8]) -> bool
    ensures { IsTrue result ↔ (bytes.now ≡ text.now) }
{
    bytes.as_slice() == text
}

/// Whether a value is NULL.
fn is_null(value: &Value) -> bool
    ensures { IsTrue result ↔ (value.now ≡ Null) }
{
    match value {
        Value::Null => true,
        _ => false,
    }
}

/// Whether this is one place, the first column's.
fn is_first(places: &Items<usize>) -> bool
    ensures { IsTrue result ↔ (places.now ≡ 1 ∷ []) }
{
    match places.as_slice() {
        [place] => *place == 1,
        _ => false,
    }
}

/// Whether a column has this name and kind, in a table that isn't strict, and no default.
fn is_column(column: &Column, name: &[u8], kind: Kind, not_null: bool) -> bool
    ensures { IsTrue result ↔ (column.now ≡ column_of name.now kind not_null) }
{
    is_text(&column.name, name)
        && column.kind == kind
        && !column.is_strict
        && column.not_null == not_null
        && is_null(&column.default)
        && column.collation == Collation::Binary
}

/// Whether no default reads the time.
fn is_unstamped(stamps: &Stamps) -> bool
    ensures { IsTrue result ↔ (stamps.now ≡ record { places = []; terms = []; formats = [] }) }
{
    stamps.places.is_empty() && stamps.terms.roots.is_empty() && stamps.formats.is_empty()
}

/// Whether the first column alone is the key, in plain order.
fn is_keyed(table: &Table) -> bool
    ensures { IsTrue result ↔ ((table.now.key ≡ None) × (table.now.primary ≡ 1 ∷ []) × (table.now.uniques ≡ (1 ∷ []) ∷ []) × (table.now.orders ≡ (record { digits = 0 }) ∷ [])) }
{
    if table.key.is_some() || !is_first(&table.primary) {
        return false;
    }
    let [unique] = table.uniques.as_slice() else {
        return false;
    };
    let [order] = table.orders.as_slice() else {
        return false;
    };
    is_first(unique) && order.digits == 0
}

/// Whether a table has no rule beyond its columns'.
fn is_free(table: &Table) -> bool
    ensures { IsTrue result ↔ ((table.now.checks ≡ []) × (table.now.references ≡ []) × (table.now.computed ≡ []) × (table.now.stamps ≡ record { places = []; terms = []; formats = [] }) × (table.now.is_counted ≡ false)) }
{
    table.checks.roots.is_empty()
        && table.references.is_empty()
        && table.computed.is_empty()
        && is_unstamped(&table.stamps)
        && !table.is_counted
}

/// Whether these are the two columns of a table of a store.
fn are_columns(columns: &Items<Column>, key: &[u8], beside: &[u8], kind: Kind) -> bool
    ensures { IsTrue result ↔ (columns.now ≡ column_of key.now kinds.Text false ∷ column_of beside.now kind true ∷ []) }
{
    match columns.as_slice() {
        [first, second] => {
            is_column(first, key, Kind::Text, false) && is_column(second, beside, kind, true)
        }
        _ => false,
    }
}

/// Whether this is a table of a store, at a tree.
fn is_pairs(table: &Table, tree: u32, name: &[u8], key: &[u8], beside: &[u8], kind: Kind) -> bool
    ensures { IsTrue result ↔ (table.now ≡ record (pairs name.now key.now beside.now kind) { tree = tree }) }
{
    is_text(&table.name, name)
        && table.tree == tree
        && are_columns(&table.columns, key, beside, kind)
        && is_keyed(table)
        && is_free(table)
}

/// Whether this is the index that comes with the key of a table.
fn is_index(index: &Index, name: &[u8], tree: u32, table: u32) -> bool
    ensures { IsTrue result ↔ (index.now ≡ index_of name.now tree table) }
{
    is_text(&index.name, name)
        && index.tree == tree
        && index.table == table
        && is_first(&index.columns)
        && index.order.digits == 0
        && index.is_unique
}

/// Whether this is the table of cells.
fn is_cells(table: &Table) -> bool
    ensures { IsTrue result ↔ (table.now ≡ cell_row) }
{
    is_pairs(table, 0, b"cell_row", b"cell", b"body", Kind::Text)
}

/// Whether this is the table of tags.
fn is_tags(table: &Table) -> bool
    ensures { IsTrue result ↔ (table.now ≡ record cachetags { tree = 2 }) }
{
    is_pairs(table, 2, b"cachetags", b"tag", b"invalidations", Kind::Any)
}

/// Whether these are the two tables of a store.
fn are_tables(tables: &Items<Table>) -> bool
    ensures { IsTrue result ↔ (tables.now ≡ two_tables.tables) }
{
    match tables.as_slice() {
        [cells, tags] => is_cells(cells) && is_tags(tags),
        _ => false,
    }
}

/// Whether this is the index of the cells.
fn is_by_cell(index: &Index) -> bool
    ensures { IsTrue result ↔ (index.now ≡ by_cell) }
{
    is_index(index, b"sqlite_autoindex_cell_row_1", 1, 0)
}

/// Whether this is the index of the tags.
fn is_by_tag(index: &Index) -> bool
    ensures { IsTrue result ↔ (index.now ≡ by_tag) }
{
    is_index(index, b"sqlite_autoindex_cachetags_1", 3, 2)
}

/// Whether these are the indexes that come with the keys of the two tables.
fn are_indexes(indexes: &Items<Index>) -> bool
    ensures { IsTrue result ↔ (indexes.now ≡ by_cell ∷ by_tag ∷ []) }
{
    match indexes.as_slice() {
        [first, second] => is_by_cell(first) && is_by_tag(second),
        _ => false,
    }
}

/// Whether a database has just the two tables of a store.
pub(crate) fn is_store(schema: &Schema) -> bool
    ensures { IsTrue result ↔ (schema.now ≡ two_tables) }
{
    if !are_tables(&schema.tables) || !are_indexes(&schema.indexes) {
        return false;
    }
    schema.views.is_empty()
}

/// Whether a database has no table, no index and no view.
pub(crate) fn is_bare(schema: &Schema) -> bool
    ensures { IsTrue result ↔ (schema.now ≡ no_tables) }
{
    schema.tables.is_empty() && schema.indexes.is_empty() && schema.views.is_empty()
}

/// Whether a database has a table of this name, with other columns than these.
fn has_other(schema: &Schema, name: &[u8], key: &[u8], beside: &[u8], kind: Kind) -> bool
    ensures { IsTrue result ↔ HasOther (pairs name.now key.now beside.now kind) schema.now }
{
    let Some(at) = schema.table_named(name) else {
        return false;
    };
    match schema.tables.get(at) {
        Some(table) => !are_columns(&table.columns, key, beside, kind),
        None => false,
    }
}

/// Which table has the name of one of a store, but other columns; none where there is none.
pub(crate) fn misshapen(schema: &Schema) -> Option<StoreTable>
    ensures some { IfSome result (λ table. IsMisshapen table schema.now) }
    ensures none { IfNone result ((table : _) → ¬ (IsMisshapen table schema.now)) }
{
    if has_other(schema, b"cell_row", b"cell", b"body", Kind::Text) {
        return Some(StoreTable::Cells);
    }
    if has_other(schema, b"cachetags", b"tag", b"invalidations", Kind::Any) {
        return Some(StoreTable::Tags);
    }
    None
}
