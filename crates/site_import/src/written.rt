//! Files of the rows of a state.
ghost use Rattle.std.specs.Prelude.{◌≡◌, IfErr, OnErr, OnOk};
ghost use Rattle.indexed_rows.specs.Rows.{AreValidRows};
ghost use Rattle.site_io.specs.Told.{after, AddsFront};
ghost use Rattle.site_import.specs.Export.{ComesBack};
ghost use Rattle.site_import.specs.Faults.{IsExportCause};
ghost use Rattle.site_import.specs.Lines.{export_text, ended_line, TellsItsRow};
ghost use Rattle.content_rows.specs.ValidRow.{IsValidRow};

use crate::fault::ExportFault;
use crate::line::line_of;
use content_rows::{Cell, Row};
use content_state::State;
use site_io::{Sink, write_whole};
use std::alloc::Global;

/// Writes the rows of a state in the order of their cells, each as one line of JSON with its end.
///
/// At `Ok` exactly these lines were written; else a front of them. `Sink` comes exactly where the sink's count of faults
/// rose in this call, and `OutOfMemory` where memory is wanting. What was written of right rows is read as these rows
/// again, where they are no more than a file may have and no line is longer than it may be.
pub fn export<O: Sink>(alloc: Global, state: &State, sink: &mut O) -> Result<(), ExportFault>
    ensures whole { OnOk result (O.written sink.new ≡ after (O.written sink.old) (export_text state.now.rows)) }
    ensures back { OnOk result (AreValidRows state.now.rows → ComesBack state.now.rows) }
    ensures front { OnErr result (AddsFront (O.written sink.old) (O.written sink.new) (export_text state.now.rows)) }
    ensures cause { IfErr result (IsExportCause (O.faults sink.old) (O.faults sink.new)) }
    ensures steady { OnOk result (O.faults sink.new ≡ O.faults sink.old) }
{
    let rows = state.rows().in_order(alloc)?;
    'rows: for (cell, row) in rows {
        write_row(alloc, &cell, row, sink)?;
    }
    Ok(())
}

/// Writes a row as a line with its end.
fn write_row<O: Sink>(
    alloc: Global,
    cell: &Cell,
    row: &Row,
    sink: &mut O,
) -> Result<(), ExportFault>
    ensures whole { OnOk result (O.written sink.new ≡ after (O.written sink.old) (ended_line (cell.now, row.now))) }
    ensures told { OnOk result (IsValidRow cell.now row.now → TellsItsRow cell.now row.now) }
    ensures front { OnErr result (AddsFront (O.written sink.old) (O.written sink.new) (ended_line (cell.now, row.now))) }
    ensures cause { IfErr result (IsExportCause (O.faults sink.old) (O.faults sink.new)) }
    ensures steady { OnOk result (O.faults sink.new ≡ O.faults sink.old) }
{
    let mut line = line_of(alloc, cell, row)?;
    line.push(b'\n')?;
    write_whole(sink, line.as_slice())?;
    Ok(())
}
