//! How jobs end, and an import with what it prints.
ghost use Rattle.std.specs.Prelude.{◌≡◌, ◌≤◌, ◌⊎◌};
ghost use Rattle.site_jobs.specs.Jobs.{Imports, InputRises, KeeperRises, OutputRises, Prints};

use crate::fault::NoJob;
use crate::importing::import_into;
use crate::texts::imported_text;
use site_io::{Sink, Source, write_whole};
use site_keeper::Keeper;
use std::alloc::Global;

/// How a job over a store ended.
#[derive(Clone, Copy, Debug, PartialEq, Eq)]
pub enum JobEnd {
    /// It was done, and what it tells was printed.
    Done,
    /// Rows are refused, and the first fault was printed.
    Refused,
    /// The keeper failed, and its count of faults rose.
    KeeperFailed,
    /// The source failed, and its count of faults rose.
    InputFailed,
    /// The sink failed, and its count of faults rose.
    OutputFailed,
    /// Memory was wanting.
    OutOfMemory,
}

/// Prints why rows are refused, unless that fails.
pub(crate) fn print_refusal<O: Sink>(sink: &mut O, text: &[u8])
    ensures printed { Prints text.now (O.written sink.old) (O.written sink.new) (O.faults sink.old) (O.faults sink.new) }
    ensures never_falls { O.faults sink.old ≤ O.faults sink.new }
{
    let _ = write_whole(sink, text);
}

/// Imports the rows of a source into what a keeper holds, and prints how many rows were read and how many cells changed.
///
/// Each row is put in its cell, where it changes it. The cells that change are kept at once; where none does, nothing is
/// kept. `Refused`: what the keeper holds is neither a site nor no row at all, or the file has a fault over it; the first
/// fault is printed. Where telling it fails, or memory is wanting for that, the import stands; where the keeper failed, it
/// may stand; else the keeper keeps what it held.
pub fn import_rows<K: Keeper, S: Source, O: Sink>(
    alloc: Global,
    keeper: &mut K,
    source: &mut S,
    sink: &mut O,
) -> JobEnd
    ensures does { Imports (S.left source.old) result
        (record { kept = K.kept keeper.old; written = O.written sink.old; writing = O.faults sink.old })
        (record { kept = K.kept keeper.new; written = O.written sink.new; writing = O.faults sink.new }) }
    ensures keeper { KeeperRises result (K.faults keeper.old) (K.faults keeper.new) }
    ensures input { InputRises result (S.faults source.old) (S.faults source.new) }
    ensures output { OutputRises result (O.faults sink.old) (O.faults sink.new) }
{
    match import_into(alloc, keeper, source) {
        Ok(counted) => match imported_text(alloc, counted.rows, counted.changed) {
            Ok(text) => match write_whole(sink, text.as_slice()) {
                Ok(()) => JobEnd::Done,
                Err(_) => JobEnd::OutputFailed,
            },
            Err(_) => JobEnd::OutOfMemory,
        },
        Err(NoJob::Refused(text)) => {
            print_refusal(sink, text.as_slice());
            JobEnd::Refused
        }
        Err(NoJob::Keeper) => JobEnd::KeeperFailed,
        Err(NoJob::Input) => JobEnd::InputFailed,
        Err(NoJob::OutOfMemory) => JobEnd::OutOfMemory,
    }
}
