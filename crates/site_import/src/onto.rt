//! Imports of files of rows.
ghost use Rattle.std.specs.Prelude.{◌≡◌, None, IfOk, IfErr, OnOk};
ghost use Rattle.std.specs.Arc.{arc_value};
ghost use Rattle.content_state.specs.Replay.{step, IsCommit};
ghost use Rattle.indexed_rows.specs.Rows.{AreValidRows};
ghost use Rattle.content_state.specs.SiteRules.{IsValidState, MeetsSiteRules};
ghost use Rattle.state_commits.specs.Apply.{full_tag};
ghost use Rattle.site_files.specs.Rows.{IsToldBy};
ghost use Rattle.site_import.specs.Changes.{merged, writes_of};
ghost use Rattle.site_import.specs.Full.{first_full_cell};
ghost use Rattle.site_import.specs.Faults.{fault_of, IsImportCause};
ghost use Rattle.site_import.specs.Ground.{ground, HasValidRows};
ghost use Rattle.site_import.specs.Imports.{IsEdit, IsImport, IsImportFault, IsJudgement, IsNoSiteFault};

use crate::changes::{changes_of, rows_after};
use crate::fault::ImportFault;
use crate::full::first_full_cell;
use content_rows::Items;
use content_state::{Commit, Refusal, Rows, State, Write};
use site_files::read_rows;
use site_io::Source;
use std::alloc::{AllocError, Global};
use std::sync::Arc;
use tag_counts::Counts;

/// What a file is imported onto.
#[derive(Clone, Copy)]
pub enum Onto<'a> {
    /// The rows that are stored are those of a site.
    Site(&'a State),
    /// No row is stored. These are the stored counts.
    Empty(&'a Counts),
}

/// What a file that was imported had, and what it changes.
#[derive(Drop)]
pub struct Imported {
    /// How many rows were read.
    pub rows: u64,
    /// The edit that sets the cells whose rows the file changes, which may be none.
    pub commit: Arc<Commit>,
}

/// Reads a file of rows to its end, one row a line, and gives the edit that puts them where they change what is stored.
///
/// A row changes what is stored in its cell where no row is, or one that is another line. After the edit the rows are a
/// site, and no count that it raises is the greatest there is. Otherwise the fault is that of the first line that is no
/// row; or, where all are, that of the first cell that breaks a rule of sites, in the stored rows with those of the file
/// in their cells; or, where none does, the first cell whose change invalidates a tag whose count is
/// 18,446,744,073,709,551,615. `Source` comes exactly where the source's count of faults rose in this call.
pub fn import<S: Source>(
    alloc: Global,
    source: &mut S,
    onto: Onto<'_>,
) -> Result<Imported, ImportFault>
    requires { HasValidRows onto }
    ensures told { IfOk result (λ i. IsToldBy (S.left source.old) (λ bytes. IsImport (ground onto.entry) bytes i)) }
    ensures valid { IfOk result (λ i. IsValidState (step (ground onto.entry) (arc_value i.commit))) }
    ensures distinct { IfOk result (λ i. IsCommit (arc_value i.commit)) }
    ensures none_full { IfOk result (λ i. full_tag (ground onto.entry) (arc_value i.commit) ≡ None) }
    ensures fault { IfErr result (IsImportFault (ground onto.entry) (S.left source.old)) }
    ensures cause { IfErr result (IsImportCause (S.faults source.old) (S.faults source.new)) }
    ensures steady { OnOk result (S.faults source.new ≡ S.faults source.old) }
{
    match onto {
        Onto::Site(state) => import_onto(alloc, source, state),
        Onto::Empty(counts) => {
            let empty = State::new(alloc, Rows::new(alloc), counts.duplicate(alloc)?, 0)?;
            import_onto(alloc, source, &empty)
        }
    }
}

/// Reads a file of rows to its end, and gives the edit that imports them onto a state, as `import` says.
fn import_onto<S: Source>(
    alloc: Global,
    source: &mut S,
    base: &State,
) -> Result<Imported, ImportFault>
    requires { AreValidRows base.now.rows }
    ensures told { IfOk result (λ i. IsToldBy (S.left source.old) (λ bytes. IsImport base.now bytes i)) }
    ensures valid { IfOk result (λ i. IsValidState (step base.now (arc_value i.commit))) }
    ensures distinct { IfOk result (λ i. IsCommit (arc_value i.commit)) }
    ensures none_full { IfOk result (λ i. full_tag base.now (arc_value i.commit) ≡ None) }
    ensures fault { IfErr result (IsImportFault base.now (S.left source.old)) }
    ensures cause { IfErr result (IsImportCause (S.faults source.old) (S.faults source.new)) }
    ensures steady { OnOk result (S.faults source.new ≡ S.faults source.old) }
{
    let file = read_rows(alloc, source)?;
    edit_onto(alloc, base, &file)
}

/// The edit that puts the rows of a file where they change what is stored, and how many they are.
fn edit_onto(alloc: Global, base: &State, file: &Rows) -> Result<Imported, ImportFault>
    requires base { AreValidRows base.now.rows }
    requires file { AreValidRows file.now }
    ensures edit { IfOk result (λ i. IsEdit base.now file.now i) }
    ensures fault { IfErr result (IsJudgement base.now (merged base.now.rows file.now) (writes_of base.now.rows file.now)) }
{
    base.stands_in_order();
    let writes = changes_of(alloc, base, file)?;
    let rows = rows_after(alloc, base, writes.as_slice())?;
    judge(alloc, base, rows, writes.as_slice())?;
    let commit = Commit {
        writes: Items::from_vec(writes),
        extra: Items::none(alloc),
        pass: 0,
    };
    Ok(Imported {
        rows: file.len() as u64,
        commit: Arc::new(alloc, commit)?,
    })
}

/// Whether an edit of these writes may stand: the rows after it are a site, and it can raise its counts.
fn judge(alloc: Global, base: &State, rows: Rows, writes: &[Write]) -> Result<(), ImportFault>
    requires { AreValidRows rows }
    ensures site { OnOk result (MeetsSiteRules rows) }
    ensures none_full { OnOk result (first_full_cell base.now writes.now ≡ None) }
    ensures fault { IfErr result (IsJudgement base.now rows writes.now) }
{
    meets_site_rules(alloc, rows)?;
    match first_full_cell(alloc, base, writes)? {
        Some(cell) => Err(ImportFault::Full(cell)),
        None => Ok(()),
    }
}

/// Whether rows are those of a site.
fn meets_site_rules(alloc: Global, rows: Rows) -> Result<(), ImportFault>
    requires { AreValidRows rows }
    ensures site { OnOk result (MeetsSiteRules rows) }
    ensures fault { IfErr result (IsNoSiteFault rows) }
{
    match State::from_rows(alloc, rows, Counts::new(alloc), 0) {
        Ok(_) => Ok(()),
        Err(refused) => Err(no_site(refused.why)),
    }
}

/// Why rows are no site.
fn no_site(why: Refusal) -> ImportFault
    ensures { result ≡ fault_of why }
{
    match why {
        Refusal::NoSite(fault) => ImportFault::Cell(fault),
        Refusal::OutOfMemory => ImportFault::OutOfMemory,
    }
}
