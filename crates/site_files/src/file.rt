//! The rows of a file, and the site that they are.
ghost use Rattle.std.specs.Prelude.{◌≡◌, [], IfOk, IfErr, OnOk, Ok};
ghost use Rattle.indexed_rows.specs.Rows.{AreValidRows};
ghost use Rattle.content_state.specs.SiteRules.{IsValidState};
ghost use Rattle.site_files.specs.Faults.{IsCause, fault_of};
ghost use Rattle.site_files.specs.Rows.{rows_of, IsToldBy, IsFileFault, IsSiteFault};

use crate::chunk::Chunk;
use crate::fault::ReadFault;
use crate::line::{add_line, broken};
use content_rows::Text;
use content_state::{Refusal, Rows, State};
use json_keys::Rule;
use site_io::Source;
use std::alloc::Global;
use tag_counts::Counts;

/// Reads a file of rows to its end, one row a line.
///
/// What it gives is the rows of the lines, each right by itself, no two of one cell. Otherwise the
/// fault is that of the first line that is no row: at line 100,001 `many` of `-`; for a line of
/// more than 1,048,576 bytes `length` of `-`; for one that is no JSON object `BadJson`; else the
/// first rule that its object breaks, and last `twice` of `cell`, where a line before has that
/// cell. No line after the first such one is read but for what came with it in one piece. `Source`
/// comes exactly where the source's count of faults rose in this call.
pub fn read_rows<S: Source>(alloc: Global, source: &mut S) -> Result<Rows, ReadFault>
    ensures told { IfOk result (λ rows. IsToldBy (S.left source.old) (λ bytes. rows_of bytes ≡ Ok rows)) }
    ensures right { IfOk result (λ rows. AreValidRows rows) }
    ensures fault { IfErr result (IsFileFault (S.left source.old)) }
    ensures cause { IfErr result (IsCause (S.faults source.old) (S.faults source.new)) }
    ensures steady { OnOk result (S.faults source.new ≡ S.faults source.old) }
{
    let mut rows = Rows::new(alloc);
    let mut chunk = Chunk::new(alloc)?;
    let mut line = Vec::new(alloc);
    'lines: for number in 1..100_001 {
        let more = chunk.fill(source)?;
        if !more {
            return Ok(rows);
        }
        chunk.take_line(source, &mut line)?;
        add_line(alloc, number, &mut rows, line.as_slice())?;
    }
    let more = chunk.fill(source)?;
    if more {
        Err(broken(100_001, Text::copied(alloc, b"-")?, Rule::Many))
    } else {
        Ok(rows)
    }
}

/// Reads the site of a file of rows: the state of number 0 with these rows, no tag of which was
/// invalidated.
///
/// It is a valid state. Otherwise the fault is that of `read_rows`, or, where all lines are rows,
/// `Cell`: the first cell, in cell order, that breaks a rule on the rows of a site.
pub fn read_site<S: Source>(alloc: Global, source: &mut S) -> Result<State, ReadFault>
    ensures told { IfOk result (λ state. IsToldBy (S.left source.old) (λ bytes. rows_of bytes ≡ Ok state.rows)) }
    ensures new { IfOk result (λ state. (state.counts ≡ []) × (state.number ≡ 0)) }
    ensures valid { IfOk result IsValidState }
    ensures fault { IfErr result (IsSiteFault (S.left source.old)) }
    ensures cause { IfErr result (IsCause (S.faults source.old) (S.faults source.new)) }
    ensures steady { OnOk result (S.faults source.new ≡ S.faults source.old) }
{
    let rows = read_rows(alloc, source)?;
    match State::from_rows(alloc, rows, Counts::new(alloc), 0) {
        Ok(state) => Ok(state),
        Err(refused) => Err(no_site(refused.why)),
    }
}

/// Why rows are no site.
fn no_site(why: Refusal) -> ReadFault
    ensures { result ≡ fault_of why }
{
    match why {
        Refusal::NoSite(fault) => ReadFault::Cell(fault),
        Refusal::OutOfMemory => ReadFault::OutOfMemory,
    }
}
