//! Importing rows into what a keeper holds.
ghost use Rattle.std.specs.Prelude.{◌≡◌, ◌≤◌, ◌^◌, None, IfOk, IfErr, OnOk, length};
ghost use Rattle.std.specs.Arc.{arc_value};
ghost use Rattle.content_state.specs.Replay.{step};
ghost use Rattle.indexed_rows.specs.Rows.{AreValidRows};
ghost use Rattle.state_commits.specs.Apply.{full_tag};
ghost use Rattle.site_files.specs.Rows.{IsToldBy};
ghost use Rattle.site_import.specs.Imports.{IsImport};
ghost use Rattle.site_jobs.specs.Faults.{SaysFault};
ghost use Rattle.site_jobs.specs.Ground.{Holds};
ghost use Rattle.site_jobs.specs.Jobs.{CountsInput, CountsKeeper, IsNoEdit, IsNoImport, IsNotKept, KeepsChanges, KeepsImport};

use crate::fault::NoJob;
use crate::ground::load_ground;
use crate::texts::{cell_fault_text, full_text, line_text};
use content_rows::Text;
use content_state::{Commit, State};
use site_import::{ImportFault, Imported, Onto, import};
use site_io::Source;
use site_keeper::{Keeper, batch_over, batches_keep_steps};
use std::alloc::Global;
use std::sync::Arc;

/// What an import counted.
#[derive(Clone, Copy, Debug, PartialEq, Eq)]
pub struct Counted {
    /// The rows that were read.
    pub rows: u64,
    /// The cells that changed.
    pub changed: u64,
}

/// Why a fault of an import ends the job.
fn no_edit(alloc: Global, fault: &ImportFault) -> NoJob
    ensures { SaysFault fault.now result }
{
    let text = match fault {
        ImportFault::Line { number, fault } => line_text(alloc, *number, fault),
        ImportFault::Cell(fault) => cell_fault_text(alloc, fault),
        ImportFault::Full(cell) => full_text(alloc, cell),
        ImportFault::Source => return NoJob::Input,
        ImportFault::OutOfMemory => return NoJob::OutOfMemory,
    };
    match text {
        Ok(text) => NoJob::Refused(Text::from_vec(text)),
        Err(_) => NoJob::OutOfMemory,
    }
}

/// Reads the rows of a source, and gives the edit that puts those that change a state.
fn read_edit<S: Source>(alloc: Global, source: &mut S, base: &State) -> Result<Imported, NoJob>
    requires { AreValidRows base.now.rows }
    ensures told { IfOk result (λ i. IsToldBy (S.left source.old) (λ bytes. IsImport base.now bytes i)) }
    ensures right { IfOk result (λ i. AreValidRows (step base.now (arc_value i.commit)).rows) }
    ensures none_full { IfOk result (λ i. full_tag base.now (arc_value i.commit) ≡ None) }
    ensures none { IfErr result (IsNoEdit base.now (S.left source.old)) }
    ensures cause { IfErr result (λ why. CountsInput why (S.faults source.old) (S.faults source.new)) }
    ensures steady { OnOk result (S.faults source.new ≡ S.faults source.old) }
{
    match import(alloc, source, Onto::Site(base)) {
        Ok(imported) => Ok(imported),
        Err(fault) => Err(no_edit(alloc, &fault)),
    }
}

/// Keeps an edit of the state that a keeper holds, where it changes a cell, and answers how many it changes.
fn keep<K: Keeper>(
    alloc: Global,
    keeper: &mut K,
    base: &State,
    commit: &Arc<Commit>,
) -> Result<u64, NoJob>
    requires small { base.now.number ≤ 2 ^ 62 }
    requires holds { Holds (K.kept keeper.old) base.now }
    requires right { AreValidRows (step base.now (arc_value commit.now)).rows }
    requires none_full { full_tag base.now (arc_value commit.now) ≡ None }
    ensures kept { IfOk result (λ n. KeepsChanges n base.now (arc_value commit.now) (K.kept keeper.old) (K.kept keeper.new)) }
    ensures none { IfErr result (λ why. IsNotKept base.now (arc_value commit.now) why (K.kept keeper.old) (K.kept keeper.new)) }
    ensures cause { IfErr result (λ why. CountsKeeper why (K.faults keeper.old) (K.faults keeper.new)) }
    ensures steady { OnOk result (K.faults keeper.new ≡ K.faults keeper.old) }
{
    batches_keep_steps();
    let changed = commit.writes.len();
    if changed > 0 {
        let edit = Arc::try_clone(commit)?;
        let batch = batch_over(alloc, base.rows(), base.counts(), base.number(), edit)?;
        keeper.apply(alloc, &batch)?;
    }
    Ok(changed as u64)
}

/// Imports the rows of a source into what a keeper holds: each row is put in its cell, where it changes it.
///
/// The cells that change are kept at once, as one batch; where none does, nothing is kept. `Refused` comes exactly where
/// the keeper holds rows that are no site, or no row and too great a number, or else where the file has a fault over what
/// it holds; the text is that of the first fault. `Keeper` and `Input` come exactly where the count of faults of the
/// keeper, or of the source, rose in this call. Where nothing is imported, the keeper keeps what it held; where it failed,
/// that or all of the import.
pub fn import_into<K: Keeper, S: Source>(
    alloc: Global,
    keeper: &mut K,
    source: &mut S,
) -> Result<Counted, NoJob>
    ensures kept { IfOk result (λ c. KeepsImport (S.left source.old) c.rows c.changed (K.kept keeper.old) (K.kept keeper.new)) }
    ensures none { IfErr result (λ why. IsNoImport (S.left source.old) why (K.kept keeper.old) (K.kept keeper.new)) }
    ensures keeper { IfErr result (λ why. CountsKeeper why (K.faults keeper.old) (K.faults keeper.new)) }
    ensures source { IfErr result (λ why. CountsInput why (S.faults source.old) (S.faults source.new)) }
    ensures keeper_steady { OnOk result (K.faults keeper.new ≡ K.faults keeper.old) }
    ensures source_steady { OnOk result (S.faults source.new ≡ S.faults source.old) }
{
    let base = load_ground(alloc, keeper)?;
    let imported = read_edit(alloc, source, &base)?;
    match keep(alloc, keeper, &base, &imported.commit) {
        Ok(changed) => Ok(Counted {
            rows: imported.rows,
            changed,
        }),
        Err(why) => Err(why),
    }
}
