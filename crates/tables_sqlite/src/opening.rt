//! A store is opened over a connection: the tables that are there are tested, and where there is nothing they are made.
ghost use Rattle.std.specs.Prelude.{◌≡◌, ◌≢◌, ◌↔◌, ◌⊎◌, [], ◌∷◌, ℤ, None, false, IfSome, IfNone, IfOk, IfErr, IsErrOf, OnOk, IsTrue};
ghost use Rattle.sqlite.specs.Held.{state};
ghost use Rattle.sqlite.specs.Order.{column};
ghost use Rattle.sqlite.specs.declared.types.Value.TheVariants.{Int};
ghost use Rattle.table_laws.specs.Ids.{IsAbove, RisesFrom};
ghost use Rattle.table_laws.specs.Moments.{HasTables, IsOver};
ghost use Rattle.table_laws.specs.Schema.{row_ids, tag_ids, begin, make_rows, make_tags, commit, no_tables, two_tables};
ghost use Rattle.tables_sqlite.specs.Faults.{IsRefusal, IfShape};
ghost use Rattle.tables_sqlite.specs.Refusals.{Passes, Fails, OneFails, OneIsRefused, IsNoStore, IsNotToBe};

use crate::fault::NoKeeper;
use crate::layout::{is_bare, is_store, misshapen};
use crate::sqlite_six::SqliteSix;
use crate::statements::query;
use sqlite::types::ValueRef;
use sqlite::{Alter, Connection, Error, Row};

const MAKE_ROWS: &str =
    "CREATE TABLE IF NOT EXISTS cell_row(cell TEXT PRIMARY KEY, body TEXT NOT NULL)";

const MAKE_TAGS: &str =
    "CREATE TABLE IF NOT EXISTS cachetags(tag TEXT PRIMARY KEY, invalidations BLOB NOT NULL)";

const ROW_IDS: &str = "SELECT rowid FROM cell_row ORDER BY rowid";

const TAG_IDS: &str = "SELECT rowid FROM cachetags ORDER BY rowid";

/// Makes the two tables, both or none of them.
fn make_tables<S: Alter>(conn: &mut Connection<S>) -> Result<(), Error>
    requires { (state S.Store conn.old).now.schema ≡ no_tables }
    ensures made { OnOk result (IsOver (state S.Store conn.old) (state S.Store conn.new)) }
    ensures refused { IfErr result (λ e. IsRefusal e → OneIsRefused S.Store (begin ∷ make_rows ∷ make_tags ∷ commit ∷ []) conn.old) }
{
    conn.execute("BEGIN", &[])?;
    conn.execute(MAKE_ROWS, &[])?;
    conn.execute(MAKE_TAGS, &[])?;
    conn.execute("COMMIT", &[])?;
    Ok(())
}

/// Whether a number is above the last, if there was one.
fn is_above(last: Option<i64>, id: i64) -> bool
    ensures { IsTrue result ↔ IsAbove last id }
{
    match last {
        Some(last) => last < id,
        None => true,
    }
}

/// The number that a row begins with, if it does with one.
fn number_in(row: &Row) -> Option<i64>
    ensures some { IfSome result (λ n. column row.now 0 ≡ Int n) }
    ensures none { IfNone result ((n : ℤ) → column row.now 0 ≢ Int n) }
{
    let Ok(value) = row.get_ref(0) else {
        return None;
    };
    match value {
        ValueRef::Int(number) => Some(number),
        _ => None,
    }
}

/// Whether each row is a number above those of the rows before it.
fn do_rise(rows: &[Row]) -> bool
    ensures { IsTrue result ↔ RisesFrom None rows.now }
{
    let mut last = None;
    'rows: for row in rows {
        let Some(id) = number_in(row) else {
            return false;
        };
        if !is_above(last, id) {
            return false;
        }
        last = Some(id);
    }
    true
}

/// Whether the rowids that a query shows come once, and no transaction is open after it.
fn come_once<S: Alter>(conn: &mut Connection<S>, sql: &str) -> Result<bool, Error>
    requires { conn.old.in_transaction ≡ false }
    ensures passes { IfOk result (λ once. IsTrue once → Passes S.Store sql.now conn.old conn.new) }
    ensures fails { IfOk result (λ once. once ≡ false → Fails S.Store sql.now conn.old conn.new) }
    ensures refused { IfErr result (λ e. IsRefusal e → Fails S.Store sql.now conn.old conn.new) }
{
    let rows = query(conn, sql, &[])?;
    if !do_rise(&rows) {
        return Ok(false);
    }
    Ok(conn.is_autocommit())
}

/// Whether a database holds the two tables and nothing else, and no transaction is open.
fn has_tables<S: Alter>(conn: &Connection<S>) -> bool
    ensures has { IsTrue result → HasTables (state S.Store conn.now) }
    ensures lacks { result ≡ false → (conn.now.schema ≢ two_tables) ⊎ IsTrue conn.now.in_transaction }
{
    conn.is_autocommit() && is_store(conn.schema())
}

/// Whether in both tables each rowid comes once, as a write that goes by rowid wants it.
fn is_sound<S: Alter>(conn: &mut Connection<S>) -> Result<bool, Error>
    requires { HasTables (state S.Store conn.old) }
    ensures sound { IfOk result (λ sound. IsTrue sound → IsOver (state S.Store conn.old) (state S.Store conn.new)) }
    ensures fails { IfOk result (λ sound. sound ≡ false → OneFails S.Store (row_ids ∷ tag_ids ∷ []) conn.old) }
    ensures refused { IfErr result (λ e. IsRefusal e → OneFails S.Store (row_ids ∷ tag_ids ∷ []) conn.old) }
{
    if !come_once(conn, ROW_IDS)? {
        return Ok(false);
    }
    come_once(conn, TAG_IDS)
}

/// A store over a database that holds the two tables and nothing else. The entries that are there stay. No fault is counted yet.
///
/// It is `Shape` only where a table has the name of one of the two and other columns. It is `Refused` only where none has, and
/// the database holds anything else or nothing, or a transaction is open, or a rowid comes twice, or a query of the rowids was
/// refused for another cause than memory. Nothing is made.
pub fn over_tables<S: Alter + Drop>(mut conn: Connection<S>) -> Result<SqliteSix<S>, NoKeeper>
    ensures over { IfOk result (λ six. (six.1 ≡ 0) × IsOver (state S.Store conn) (state S.Store six.0)) }
    ensures shape { IfErr result (λ e. IfShape e (state S.Store conn).now.schema) }
    ensures refused { IsErrOf result NoKeeper.Refused → IsNoStore S.Store conn }
{
    if let Some(table) = misshapen(conn.schema()) {
        return Err(NoKeeper::Shape(table));
    }
    if !has_tables(&conn) {
        return Err(NoKeeper::Refused);
    }
    if !is_sound(&mut conn)? {
        return Err(NoKeeper::Refused);
    }
    Ok(SqliteSix::new(conn))
}

/// A store over a database that holds the two tables and nothing else, or nothing, where the two are made, both or none. The
/// entries that are there stay. No fault is counted yet.
///
/// A database that holds nothing is `Refused` only where a statement that makes the tables was refused for another cause than
/// memory; any other is refused as `over_tables` refuses. Then nothing was written but, at most, the two empty tables.
pub fn over<S: Alter + Drop>(mut conn: Connection<S>) -> Result<SqliteSix<S>, NoKeeper>
    ensures over { IfOk result (λ six. (six.1 ≡ 0) × IsOver (state S.Store conn) (state S.Store six.0)) }
    ensures shape { IfErr result (λ e. IfShape e (state S.Store conn).now.schema) }
    ensures refused { IsErrOf result NoKeeper.Refused → IsNotToBe S.Store conn }
{
    if is_bare(conn.schema()) {
        make_tables(&mut conn)?;
        return Ok(SqliteSix::new(conn));
    }
    over_tables(conn)
}
