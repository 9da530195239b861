//! A store of two tables, as a trait.
ghost use Rattle.std.specs.Prelude.{◌≡◌, ℕ, Bool, false, map, option_map};

use crate::fault::StoreFault;
use crate::line::Line;
use std::alloc::Global;

/// What keeps cells with their bodies in one table, and tags with their counts in another. Each statement is a call of its
/// own. One that writes changes what the open transaction sees, and `commit` alone what is kept.
///
/// What a call tells of the tables is so where the store is clean as the call ends. A call that writes, or commits, is
/// refused where no transaction is open, and one that reads, or begins, where one is. `Failed` comes exactly where the
/// count of faults rose in the call.
pub trait Six {
    ghost use Rattle.store_six.specs.Calls.{tells, Passes, Nothing, Begins, Changes, Commits, KeepsKept, Runs, Reads};
    ghost use Rattle.store_six.specs.Tables.{Tables, IsSet, IsRemoved, AreAll, AreBeside, OnCells, OnTags};

    /// Whether what it tells is so. It may end at any call, and doesn't come back.
    ghost clean: { Self → Type 0 };

    /// Whether it can be used.
    ghost is_open: { Self → Type 0 };

    /// Whether a transaction is open.
    ghost inside: { Self → Bool };

    /// The tables as the last commit left them.
    ghost kept: { Self → Tables };

    /// The tables as the open transaction sees them.
    ghost seen: { Self → Tables };

    /// The tables that may be found after a crash at this moment.
    ghost leaves: { Self → Tables → Type 0 };

    /// How often a statement was refused for another cause than memory, up to the greatest u64.
    ghost faults: { Self → ℕ };

    /// Begins a transaction, which sees what is kept.
    fn begin(&mut self) -> Result<(), StoreFault>
        ensures { Runs Nothing Begins (tells clean is_open inside kept seen leaves faults self.old) (tells clean is_open inside kept seen leaves faults self.new) result };

    /// Sets the body of a cell.
    fn set_row(&mut self, cell: &[u8], body: &[u8]) -> Result<(), StoreFault>
        ensures { Runs Nothing (Changes (OnCells (IsSet cell.now body.now))) (tells clean is_open inside kept seen leaves faults self.old) (tells clean is_open inside kept seen leaves faults self.new) result };

    /// Removes the row of a cell, if it has one.
    fn remove_row(&mut self, cell: &[u8]) -> Result<(), StoreFault>
        ensures { Runs Nothing (Changes (OnCells (IsRemoved cell.now))) (tells clean is_open inside kept seen leaves faults self.old) (tells clean is_open inside kept seen leaves faults self.new) result };

    /// Sets the count of a tag.
    fn set_tag(&mut self, tag: &[u8], count: &[u8]) -> Result<(), StoreFault>
        ensures { Runs Nothing (Changes (OnTags (IsSet tag.now count.now))) (tells clean is_open inside kept seen leaves faults self.old) (tells clean is_open inside kept seen leaves faults self.new) result };

    /// Commits the transaction: all of it is kept.
    fn commit(&mut self) -> Result<(), StoreFault>
        ensures { Runs (λ t. t ≡ seen self.old) Commits (tells clean is_open inside kept seen leaves faults self.old) (tells clean is_open inside kept seen leaves faults self.new) result };

    /// Ends the transaction, if one is open: nothing of it is kept. It isn't refused.
    fn rollback(&mut self)
        ensures passes { Passes Nothing (tells clean is_open inside kept seen leaves faults self.old) (tells clean is_open inside kept seen leaves faults self.new) }
        ensures kept { clean self.new → KeepsKept (tells clean is_open inside kept seen leaves faults self.old) (tells clean is_open inside kept seen leaves faults self.new) }
        ensures outside { clean self.new → inside self.new ≡ false }
        ensures steady { faults self.new ≡ faults self.old };

    /// All rows; none in place of one that isn't a text with a text.
    fn all_rows(&mut self, alloc: Global) -> Result<Vec<Option<Line>>, StoreFault>
        ensures { Reads (λ lines. AreAll (kept self.old).cells lines.items) (tells clean is_open inside kept seen leaves faults self.old) (tells clean is_open inside kept seen leaves faults self.new) result };

    /// All tags; none in place of one that isn't a text with bytes.
    fn all_tags(&mut self, alloc: Global) -> Result<Vec<Option<Line>>, StoreFault>
        ensures { Reads (λ lines. AreAll (kept self.old).tags lines.items) (tells clean is_open inside kept seen leaves faults self.old) (tells clean is_open inside kept seen leaves faults self.new) result };

    /// The body of a cell, or none where it has no row.
    fn one_row(&mut self, alloc: Global, cell: &[u8]) -> Result<Vec<Option<Vec<u8>>>, StoreFault>
        ensures { Reads (λ bodies. AreBeside cell.now (kept self.old).cells (map (option_map (λ body. body.items)) bodies.items)) (tells clean is_open inside kept seen leaves faults self.old) (tells clean is_open inside kept seen leaves faults self.new) result };

    /// How often a statement was refused for another cause than memory, up to the greatest u64.
    fn faults(&self) -> u64
        ensures { result ≡ faults self.now };

    /// While it is open, a crash leaves what is kept and nothing else.
    ghost settled: { (s : Self) (t : Tables) → clean s → is_open s → leaves s t → t ≡ kept s };
}
