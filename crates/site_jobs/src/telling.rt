//! Jobs that tell of the site that a keeper holds.
ghost use Rattle.std.specs.Prelude.{◌≡◌, ◌≤◌, ◌⊎◌, IfOk};
ghost use Rattle.site_jobs.specs.Jobs.{checked, exported, KeeperRises, OutputRises, TellsBy};
ghost use Rattle.site_targets.specs.Targets.{targets_text};

use crate::fault::NoJob;
use crate::ground::load_site;
use crate::job::{JobEnd, print_refusal};
use crate::texts::checked_text;
use content_state::State;
use site_import::{ExportFault, export};
use site_io::{Sink, write_whole};
use site_keeper::Keeper;
use site_targets::targets_text;
use std::alloc::{AllocError, Global};

/// Writes the rows of the site that a keeper holds, one a line, in the order of their cells.
///
/// What is stored stays. `Refused`: it is no site, and the first fault is printed.
pub fn export_rows<K: Keeper, O: Sink>(alloc: Global, keeper: &mut K, sink: &mut O) -> JobEnd
    ensures does { TellsBy exported result
        (record { kept = K.kept keeper.old; written = O.written sink.old; writing = O.faults sink.old })
        (record { kept = K.kept keeper.new; written = O.written sink.new; writing = O.faults sink.new }) }
    ensures stays { K.kept keeper.new ≡ K.kept keeper.old }
    ensures keeper { KeeperRises result (K.faults keeper.old) (K.faults keeper.new) }
    ensures output { OutputRises result (O.faults sink.old) (O.faults sink.new) }
{
    match load_site(alloc, keeper) {
        Ok(site) => match export(alloc, &site, sink) {
            Ok(()) => JobEnd::Done,
            Err(ExportFault::Sink) => JobEnd::OutputFailed,
            Err(ExportFault::OutOfMemory) => JobEnd::OutOfMemory,
        },
        Err(NoJob::Refused(text)) => {
            print_refusal(sink, text.as_slice());
            JobEnd::Refused
        }
        Err(NoJob::Keeper) => JobEnd::KeeperFailed,
        Err(NoJob::Input) => JobEnd::InputFailed,
        Err(NoJob::OutOfMemory) => JobEnd::OutOfMemory,
    }
}

/// What is printed of a site that was checked.
fn text_of(alloc: Global, site: &State) -> Result<Vec<u8>, AllocError>
    ensures { IfOk result (λ text. text.items ≡ checked site.now) }
{
    let rows = site.rows().len() as u64;
    checked_text(alloc, site.number(), rows)
}

/// Checks that a keeper holds a site, and prints its number and how many rows it has.
///
/// What is stored stays. `Refused`: it is no site, and the first fault is printed.
pub fn check_site<K: Keeper, O: Sink>(alloc: Global, keeper: &mut K, sink: &mut O) -> JobEnd
    ensures does { TellsBy checked result
        (record { kept = K.kept keeper.old; written = O.written sink.old; writing = O.faults sink.old })
        (record { kept = K.kept keeper.new; written = O.written sink.new; writing = O.faults sink.new }) }
    ensures stays { K.kept keeper.new ≡ K.kept keeper.old }
    ensures keeper { KeeperRises result (K.faults keeper.old) (K.faults keeper.new) }
    ensures output { OutputRises result (O.faults sink.old) (O.faults sink.new) }
{
    match load_site(alloc, keeper) {
        Ok(site) => match text_of(alloc, &site) {
            Ok(text) => match write_whole(sink, text.as_slice()) {
                Ok(()) => JobEnd::Done,
                Err(_) => JobEnd::OutputFailed,
            },
            Err(_) => JobEnd::OutOfMemory,
        },
        Err(NoJob::Refused(text)) => {
            print_refusal(sink, text.as_slice());
            JobEnd::Refused
        }
        Err(NoJob::Keeper) => JobEnd::KeeperFailed,
        Err(NoJob::Input) => JobEnd::InputFailed,
        Err(NoJob::OutOfMemory) => JobEnd::OutOfMemory,
    }
}

/// Prints the canonical targets of the site that a keeper holds, one a line: those whose pages a visitor without a session gets.
///
/// What is stored stays. `Refused`: it is no site, and the first fault is printed.
pub fn list_targets<K: Keeper, O: Sink>(alloc: Global, keeper: &mut K, sink: &mut O) -> JobEnd
    ensures does { TellsBy targets_text result
        (record { kept = K.kept keeper.old; written = O.written sink.old; writing = O.faults sink.old })
        (record { kept = K.kept keeper.new; written = O.written sink.new; writing = O.faults sink.new }) }
    ensures stays { K.kept keeper.new ≡ K.kept keeper.old }
    ensures keeper { KeeperRises result (K.faults keeper.old) (K.faults keeper.new) }
    ensures output { OutputRises result (O.faults sink.old) (O.faults sink.new) }
{
    match load_site(alloc, keeper) {
        Ok(site) => match targets_text(alloc, &site) {
            Ok(text) => match write_whole(sink, text.as_slice()) {
                Ok(()) => JobEnd::Done,
                Err(_) => JobEnd::OutputFailed,
            },
            Err(_) => JobEnd::OutOfMemory,
        },
        Err(NoJob::Refused(text)) => {
            print_refusal(sink, text.as_slice());
            JobEnd::Refused
        }
        Err(NoJob::Keeper) => JobEnd::KeeperFailed,
        Err(NoJob::Input) => JobEnd::InputFailed,
        Err(NoJob::OutOfMemory) => JobEnd::OutOfMemory,
    }
}
