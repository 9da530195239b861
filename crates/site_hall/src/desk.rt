//! The desk of a site.
ghost use Rattle.std.specs.Prelude.{◌≡◌, ◌≤◌, None, true, is_some, IfOk, OnOk, IfErr};
ghost use Rattle.site_keeper.specs.Keeper.{CountsFault, StaysSteadfast};
ghost use Rattle.site_hall.specs.Sides.{TellsKept, MayKeep, kept_of, with_faults, LeavesDesk};

use site_keeper::{Batch, Keeper, KeeperFault};
use std::alloc::Global;
use std::marker::Model;

/// The desk of a site, where its edits are kept: the keeper of the rows, and what is to be kept of an edit that was announced to the
/// hall and is neither published nor forgotten yet. Who has the desk keeps an edit while others read the hall.
pub struct Desk<K: Keeper> {
    keeper: K,
    pub(crate) pending: Option<Batch>,
}

impl<K: Keeper + Drop> Drop for Desk<K> {
    fn drop(self) {
        let Desk {
            keeper: _,
            pending: _,
        } = self;
    }
}

impl<K: Keeper> Model for Desk<K> {
    ghost use Rattle.site_hall.specs.Sides.{DeskSide};

    ghost Value = { DeskSide };

    ghost view = { λ d. record { pending = d.pending; kept = K.kept d.keeper; faults = K.faults d.keeper; steadfast = K.steadfast d.keeper } };
}

impl<K: Keeper> Desk<K> {
    /// The desk with this keeper. Nothing is pending.
    pub fn new(keeper: K) -> Desk<K>
        ensures { result ≡ record { pending = None; kept = K.kept keeper; faults = K.faults keeper; steadfast = K.steadfast keeper } }
    {
        Desk {
            keeper,
            pending: None,
        }
    }

    /// Whether an edit is pending: it was announced, and is neither published nor forgotten yet.
    pub fn pending(&self) -> bool
        ensures { result ≡ is_some self.now.pending }
    {
        self.pending.is_some()
    }

    /// How often the keeper has failed, up to the greatest u64. It never falls.
    pub fn faults(&self) -> u64
        ensures { result ≡ self.now.faults }
    {
        self.keeper.faults()
    }

    /// Asks the keeper for its number, and tells whether that is the number of the pending edit, which it has then kept. `Failed`
    /// comes exactly where the count of faults rose in this call, and nothing else changes.
    pub fn ask(&mut self, alloc: Global) -> Result<bool, KeeperFault>
        requires { is_some self.old.pending ≡ true }
        ensures told { IfOk result (λ kept. TellsKept self.old.kept self.old.pending kept) }
        ensures stays { self.new ≡ with_faults self.new.faults self.old }
        ensures steady { OnOk result (self.new ≡ self.old) }
        ensures cause { IfErr result (λ fault. CountsFault fault self.old.faults self.new.faults) }
        ensures never_falls { self.old.faults ≤ self.new.faults }
        ensures steadfast { StaysSteadfast self.old.steadfast self.new.steadfast self.old.faults self.new.faults }
    {
        let head = self.keeper.head(alloc)?;
        let Some(batch) = &self.pending else {
            unreachable!()
        };
        Ok(head == batch.head)
    }

    /// Keeps the pending edit, which stays pending. The rows that are held then are to be right, each by itself.
    ///
    /// At `OutOfMemory` nothing changes, at `Failed` the edit is kept or not. `Failed` comes exactly where the count of faults rose in
    /// this call.
    pub fn keep(&mut self, alloc: Global) -> Result<(), KeeperFault>
        requires pending { is_some self.old.pending ≡ true }
        requires right { MayKeep self.old }
        ensures kept { OnOk result (self.new ≡ kept_of self.old.pending self.old) }
        ensures tells { OnOk result (TellsKept self.new.kept self.new.pending true) }
        ensures leaves { IfErr result (λ fault. LeavesDesk fault self.old self.new) }
        ensures never_falls { self.old.faults ≤ self.new.faults }
        ensures steadfast { StaysSteadfast self.old.steadfast self.new.steadfast self.old.faults self.new.faults }
    {
        let Some(batch) = &self.pending else {
            unreachable!()
        };
        self.keeper.apply(alloc, batch)
    }

    /// The keeper, as it is.
    pub fn into_keeper(self) -> K
        ensures kept { K.kept result ≡ self.kept }
        ensures faults { K.faults result ≡ self.faults }
        ensures steadfast { K.steadfast result ≡ self.steadfast }
    {
        let Desk { keeper, pending: _ } = self;
        keeper
    }
}
