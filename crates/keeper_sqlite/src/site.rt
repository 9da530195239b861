//! The store of a keeper, by the site that its tables stand for.
ghost use Rattle.std.specs.Prelude.{IfOk};
ghost use Rattle.indexed_rows.specs.Rows.{AreValidRows};
ghost use Rattle.keeper_sqlite.specs.Telling.{Loads, TellsHead, Applies};
ghost use Rattle.sqlite.specs.Held.{state};
ghost use Rattle.table_laws.specs.Moments.{told};

use crate::finding::{fault_of, found, head};
use crate::keeping::keep;
use site_keeper::{Batch, KeeperFault, Stored};
use sqlite::Alter;
use std::alloc::Global;
use tables_sqlite::SqliteSix;

/// The site that the tables stand for.
#[tactic(none)]
pub(crate) fn load_site<S: Alter + Drop>(
    alloc: Global,
    six: &mut SqliteSix<S>,
) -> Result<Stored, KeeperFault>
    ensures right { IfOk result (λ stored. AreValidRows stored.rows) }
    ensures loads { Loads (told six.old.1 (state S.Store six.old.0)) (told six.new.1 (state S.Store six.new.0)) result }
{
    found(alloc, six)
}

/// Keeps a batch: then the tables stand for the site with it.
#[tactic(none)]
pub(crate) fn apply_batch<S: Alter + Drop>(
    alloc: Global,
    six: &mut SqliteSix<S>,
    batch: &Batch,
) -> Result<(), KeeperFault>
    ensures { Applies batch.now (told six.old.1 (state S.Store six.old.0)) (told six.new.1 (state S.Store six.new.0)) result }
{
    match keep(alloc, six, batch) {
        Ok(()) => Ok(()),
        Err(fault) => Err(fault_of(fault)),
    }
}

/// The number of the site that the tables stand for.
#[tactic(none)]
pub(crate) fn number_of_site<S: Alter + Drop>(
    alloc: Global,
    six: &mut SqliteSix<S>,
) -> Result<u64, KeeperFault>
    ensures { TellsHead (told six.old.1 (state S.Store six.old.0)) (told six.new.1 (state S.Store six.new.0)) result }
{
    head(alloc, six)
}
