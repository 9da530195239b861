//! The store of the real program.
ghost use Rattle.std.specs.Prelude.{◌≡◌};

use keeper_sqlite::FileKeeper;
use site_keeper::{Batch, Keeper, KeeperFault, Stored};
use std::alloc::Global;
use std::marker::Model;

/// A keeper over a file, whose type has no parameters: what a file and a database are made of stays here, and a program over it
/// is checked without them.
pub struct StoreFile {
    keeper: FileKeeper,
}

// It is written out, so that a program that lets a store end does not prove again how a file and a database end.
impl Drop for StoreFile {
    fn drop(self) {
        let StoreFile { keeper: _ } = self;
    }
}

impl Model for StoreFile {
    ghost use Rattle.std.specs.Prelude.{ℕ};

    ghost Value = { ℕ };

    ghost view = { λ s. s.keeper.1 };
}

impl StoreFile {
    /// The store of the real program over this keeper of a file, with the count of faults that the keeper has.
    pub fn new(keeper: FileKeeper) -> StoreFile
        ensures { result ≡ keeper.1 }
    {
        StoreFile { keeper }
    }

    /// Ends the store. What stands in its log is put into the database file first, as SQLite does where the last connection
    /// is closed, so that the store lies in one file. Where the disk refuses that, the log stays and is read at the next
    /// opening: nothing that was kept is lost, and it is no fault.
    /// <https://www.sqlite.org/wal.html#ckpt>
    pub fn close(self) {
        let StoreFile { keeper } = self;
        let _log_is_copied = keeper.into_connection().close();
    }
}

impl Keeper for StoreFile {
    ghost use Rattle.std.specs.Prelude.{None, false};

    ghost kept = { λ s. None };

    ghost faults = { λ s. s };

    ghost steadfast = { λ s. false };

    fn load(&mut self, alloc: Global) -> Result<Stored, KeeperFault> {
        self.keeper.load(alloc)
    }

    fn apply(&mut self, alloc: Global, batch: &Batch) -> Result<(), KeeperFault> {
        self.keeper.apply(alloc, batch)
    }

    fn head(&mut self, alloc: Global) -> Result<u64, KeeperFault> {
        self.keeper.head(alloc)
    }

    fn faults(&self) -> u64 {
        self.keeper.faults()
    }
}

fn needs_send<T: Send + Drop>(_: T) {}

/// A store may be sent to another thread.
pub fn stores_go_between_threads(store: StoreFile) {
    needs_send(store);
}
