//! A keeper, as a trait.
ghost use Rattle.std.specs.Prelude.{◌≡◌, ◌≤◌, ℕ, Bool, Option, OnOk, IfOk, IfErr};

use crate::batch::Batch;
use crate::fault::KeeperFault;
use crate::stored::Stored;
use std::alloc::Global;

/// A keeper: the store of a site's rows. An implementor owns what it keeps them in: it holds no `&mut`.
pub trait Keeper {
    ghost use Rattle.indexed_rows.specs.Rows.{AreValidRows};
    ghost use Rattle.site_keeper.specs.Keeper.{Kept, with_batch, and_batch, IfTold, CountsFault, LeavesBatch, StaysSteadfast};

    /// What it was made of and the batches that it kept since, where it tells them.
    ghost kept: { Self → Option Kept };

    /// How often it has failed, up to the greatest u64.
    ghost faults: { Self → ℕ };

    /// Whether it tells that it never fails.
    ghost steadfast: { Self → Bool };

    /// All that it holds, which stays as it is. Each of the rows is right by itself. `Failed` comes exactly where the count of
    /// faults rose in this call.
    fn load(&mut self, alloc: Global) -> Result<Stored, KeeperFault>
        ensures held { IfOk result (λ stored. IfTold (kept self.old) (λ held. stored ≡ held)) }
        ensures right { IfOk result (λ stored. AreValidRows stored.rows) }
        ensures stays { kept self.new ≡ kept self.old }
        ensures steady { OnOk result (faults self.new ≡ faults self.old) }
        ensures cause { IfErr result (λ fault. CountsFault fault (faults self.old) (faults self.new)) }
        ensures never_falls { faults self.old ≤ faults self.new }
        ensures steadfast { StaysSteadfast (steadfast self.old) (steadfast self.new) (faults self.old) (faults self.new) };

    /// Keeps a batch: its writes are made, each count that it names is set, and its number is the head. The rows that are
    /// held then are to be right, each by itself.
    ///
    /// At `OutOfMemory` nothing of it is kept, at `Failed` all or nothing. `Failed` comes exactly where the count of
    /// faults rose in this call.
    fn apply(&mut self, alloc: Global, batch: &Batch) -> Result<(), KeeperFault>
        requires right { IfTold (kept self.old) (λ held. AreValidRows (with_batch held batch.now).rows) }
        ensures ok { OnOk result (kept self.new ≡ and_batch (kept self.old) batch.now) }
        ensures err { IfErr result (λ fault. LeavesBatch fault (kept self.old) batch.now (kept self.new)) }
        ensures steady { OnOk result (faults self.new ≡ faults self.old) }
        ensures cause { IfErr result (λ fault. CountsFault fault (faults self.old) (faults self.new)) }
        ensures never_falls { faults self.old ≤ faults self.new }
        ensures steadfast { StaysSteadfast (steadfast self.old) (steadfast self.new) (faults self.old) (faults self.new) };

    /// The number of the last batch that was kept, or what the keeper was made with. All stays as it is. `Failed`
    /// comes exactly where the count of faults rose in this call.
    fn head(&mut self, alloc: Global) -> Result<u64, KeeperFault>
        ensures head { IfOk result (λ number. IfTold (kept self.old) (λ held. number ≡ held.head)) }
        ensures stays { kept self.new ≡ kept self.old }
        ensures steady { OnOk result (faults self.new ≡ faults self.old) }
        ensures cause { IfErr result (λ fault. CountsFault fault (faults self.old) (faults self.new)) }
        ensures never_falls { faults self.old ≤ faults self.new }
        ensures steadfast { StaysSteadfast (steadfast self.old) (steadfast self.new) (faults self.old) (faults self.new) };

    /// How often it has failed, up to the greatest u64. It never falls.
    fn faults(&self) -> u64
        ensures { result ≡ faults self.now };
}
