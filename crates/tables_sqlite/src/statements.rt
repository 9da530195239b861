//! The statements on the two tables, each of them run on a connection.
ghost use Rattle.std.specs.Prelude.{◌≡◌, true, false, map};
ghost use Rattle.sqlite.specs.Held.{state};
ghost use Rattle.sqlite.specs.Order.{column};
ghost use Rattle.sqlite.specs.Values.{bound};
ghost use Rattle.store_six.specs.Tables.{IsSet, IsRemoved, AreAll, AreBeside, OnCells, OnTags};
ghost use Rattle.table_laws.specs.Moments.{ServesClean, Starts, Alters, Keeps, Drops, Finds, Queries};
ghost use Rattle.table_laws.specs.Stored.{text_of, bytes_of, shown_entry, cells_of, tags_of};

use sqlite::types::ValueRef;
use sqlite::{Alter, Connection, Error, Row};

const ALL_ROWS: &str = "SELECT cell, body FROM cell_row ORDER BY cell";

const ALL_TAGS: &str = "SELECT tag, invalidations FROM cachetags ORDER BY tag";

const ONE_ROW: &str = "SELECT body FROM cell_row WHERE cell = ?1";

const SET_ROW: &str =
    "INSERT INTO cell_row (cell, body) VALUES (?1, ?2) ON CONFLICT (cell) DO UPDATE SET body = excluded.body";

const REMOVE_ROW: &str = "DELETE FROM cell_row WHERE cell = ?1";

const SET_TAG: &str =
    "INSERT INTO cachetags (tag, invalidations) VALUES (?1, ?2) ON CONFLICT (tag) DO UPDATE SET invalidations = excluded.invalidations";

/// Begins a transaction.
pub(crate) fn begin<S: Alter>(conn: &mut Connection<S>) -> Result<usize, Error>
    requires serves { ServesClean (state S.Store conn.old) }
    ensures { Starts (state S.Store conn.old) (state S.Store conn.new) result }
{
    conn.execute("BEGIN", &[])
}

/// Sets the body of a cell.
pub(crate) fn set_row<S: Alter>(
    conn: &mut Connection<S>,
    cell: &[u8],
    body: &[u8],
) -> Result<usize, Error>
    requires inside { conn.old.in_transaction ≡ true }
    requires serves { ServesClean (state S.Store conn.old) }
    ensures { Alters (OnCells (IsSet cell.now body.now)) (state S.Store conn.old) (state S.Store conn.new) result }
{
    conn.execute(SET_ROW, &[ValueRef::Text(cell), ValueRef::Text(body)])
}

/// Removes the row of a cell.
pub(crate) fn remove_row<S: Alter>(conn: &mut Connection<S>, cell: &[u8]) -> Result<usize, Error>
    requires inside { conn.old.in_transaction ≡ true }
    requires serves { ServesClean (state S.Store conn.old) }
    ensures { Alters (OnCells (IsRemoved cell.now)) (state S.Store conn.old) (state S.Store conn.new) result }
{
    conn.execute(REMOVE_ROW, &[ValueRef::Text(cell)])
}

/// Sets the count of a tag.
pub(crate) fn set_tag<S: Alter>(
    conn: &mut Connection<S>,
    tag: &[u8],
    count: &[u8],
) -> Result<usize, Error>
    requires inside { conn.old.in_transaction ≡ true }
    requires serves { ServesClean (state S.Store conn.old) }
    ensures { Alters (OnTags (IsSet tag.now count.now)) (state S.Store conn.old) (state S.Store conn.new) result }
{
    conn.execute(SET_TAG, &[ValueRef::Text(tag), ValueRef::Blob(count)])
}

/// Commits the transaction.
pub(crate) fn commit<S: Alter>(conn: &mut Connection<S>) -> Result<usize, Error>
    requires inside { conn.old.in_transaction ≡ true }
    requires serves { ServesClean (state S.Store conn.old) }
    ensures { Keeps (state S.Store conn.old) (state S.Store conn.new) result }
{
    conn.execute("COMMIT", &[])
}

/// Rolls the transaction back.
pub(crate) fn rollback<S: Alter>(conn: &mut Connection<S>)
    requires inside { conn.old.in_transaction ≡ true }
    requires serves { ServesClean (state S.Store conn.old) }
    ensures { Drops (state S.Store conn.old) (state S.Store conn.new) }
{
    let _ = conn.execute("ROLLBACK", &[]);
}

/// The answer of a query in a transaction of its own, which is rolled back, so that it commits nothing whatever it says.
pub(crate) fn query<S: Alter>(
    conn: &mut Connection<S>,
    sql: &str,
    params: &[ValueRef<'_>],
) -> Result<Vec<Row>, Error>
    requires { conn.old.in_transaction ≡ false }
    ensures { Queries S.Store sql.now (bound params.now) conn.old conn.new result }
{
    let mut turn = conn.transaction();
    let rows = turn.query_all(sql, params);
    turn.rollback();
    rows
}

/// All rows, by cell.
pub(crate) fn all_rows<S: Alter>(conn: &mut Connection<S>) -> Result<Vec<Row>, Error>
    requires outside { conn.old.in_transaction ≡ false }
    requires serves { ServesClean (state S.Store conn.old) }
    ensures { Finds (λ rows. AreAll (cells_of (state S.Store conn.old).committed.trees) (map (shown_entry text_of) rows)) (state S.Store conn.old) (state S.Store conn.new) result }
{
    query(conn, ALL_ROWS, &[])
}

/// All tags, by tag.
pub(crate) fn all_tags<S: Alter>(conn: &mut Connection<S>) -> Result<Vec<Row>, Error>
    requires outside { conn.old.in_transaction ≡ false }
    requires serves { ServesClean (state S.Store conn.old) }
    ensures { Finds (λ rows. AreAll (tags_of (state S.Store conn.old).committed.trees) (map (shown_entry bytes_of) rows)) (state S.Store conn.old) (state S.Store conn.new) result }
{
    query(conn, ALL_TAGS, &[])
}

/// The row of a cell, of which there is one or none.
pub(crate) fn one_row<S: Alter>(conn: &mut Connection<S>, cell: &[u8]) -> Result<Vec<Row>, Error>
    requires outside { conn.old.in_transaction ≡ false }
    requires serves { ServesClean (state S.Store conn.old) }
    ensures { Finds (λ rows. AreBeside cell.now (cells_of (state S.Store conn.old).committed.trees) (map (λ x. text_of (column x 0)) rows)) (state S.Store conn.old) (state S.Store conn.new) result }
{
    query(conn, ONE_ROW, &[ValueRef::Text(cell)])
}
