//! Why a store was not opened over a database.
ghost use Rattle.std.specs.Prelude.{◌≡◌};
ghost use Rattle.tables_sqlite.specs.declared.fault.NoKeeper.TheVariants as no_keeper;

use sqlite::{Error, ErrorCode};

/// One of the two tables of a store.
#[derive(Clone, Copy, Debug, PartialEq, Eq)]
pub enum StoreTable {
    /// That of cells with their bodies.
    Cells,
    /// That of tags with their counts.
    Tags,
}

/// Why a store was not opened over a database.
#[derive(Clone, Copy, Debug, PartialEq, Eq)]
pub enum NoKeeper {
    /// The database or a statement was refused, for another cause than memory; or it holds something else than the two
    /// tables of a store, or a rowid that comes twice; or a transaction is open.
    Refused,
    /// This table has other columns than that of a store.
    Shape(StoreTable),
    /// Memory is wanting.
    OutOfMemory,
}

impl From<Error> for NoKeeper {
    ghost use Rattle.tables_sqlite.specs.Faults.{no_keeper_of};

    ghost from_gives = { λ error e. e ≡ no_keeper_of error };

    fn from(error: Error) -> NoKeeper {
        match error {
            Error::SqliteFailure(ErrorCode::OutOfMemory) => NoKeeper::OutOfMemory,
            _ => NoKeeper::Refused,
        }
    }
}
