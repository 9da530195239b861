//! The jobs over a store.
ghost use Rattle.std.specs.Prelude.{◌≡◌, ◌⊎◌};
ghost use Rattle.site_cli.specs.Jobs.{status_of_job, ImportsOrNot, TellsOrNot};
ghost use Rattle.site_cli.specs.Outside.{HasCause};
ghost use Rattle.site_jobs.specs.Jobs.{checked, exported};
ghost use Rattle.site_targets.specs.Targets.{targets_text};

use site_jobs::{JobEnd, check_site, export_rows, import_rows, list_targets};
use site_places::{NoDevice, Place};
use std::alloc::Global;

/// The status of a job's end.
fn status_of_job(end: JobEnd) -> u8
    ensures { result ≡ status_of_job end }
{
    match end {
        JobEnd::Done => 0,
        JobEnd::Refused => 3,
        JobEnd::KeeperFailed => 4,
        JobEnd::InputFailed => 5,
        JobEnd::OutputFailed => 6,
        JobEnd::OutOfMemory => 9,
    }
}

/// Imports the rows of the input into the store of that path, which is made where nothing is there.
pub(crate) fn import_job<P: Place>(
    alloc: Global,
    path: &str,
    place: &mut P,
    input: &mut P::In,
    output: &mut P::Out,
) -> u8
    ensures does { ImportsOrNot path.now
        (record { left = P.In.left input.old; written = P.Out.written output.old; reading = P.In.faults input.old; writing = P.Out.faults output.old; place = P.sees place.old })
        (record { left = P.In.left input.new; written = P.Out.written output.new; reading = P.In.faults input.new; writing = P.Out.faults output.new; place = P.sees place.new })
        result }
    ensures cause { HasCause
        (record { left = P.In.left input.old; written = P.Out.written output.old; reading = P.In.faults input.old; writing = P.Out.faults output.old; place = P.sees place.old })
        (record { left = P.In.left input.new; written = P.Out.written output.new; reading = P.In.faults input.new; writing = P.Out.faults output.new; place = P.sees place.new })
        result }
{
    let mut filled = match place.keeper_or_new(path) {
        Ok(keeper) => keeper,
        Err(NoDevice::Failed) => return 7,
        Err(NoDevice::OutOfMemory) => return 9,
    };
    let end = import_rows(alloc, &mut filled, input, output);
    place.keeper_back(filled);
    status_of_job(end)
}

/// Writes the rows of the store of that path to the output.
pub(crate) fn export_job<P: Place>(
    alloc: Global,
    path: &str,
    place: &mut P,
    input: &P::In,
    output: &mut P::Out,
) -> u8
    ensures does { TellsOrNot exported path.now
        (record { left = P.In.left input.now; written = P.Out.written output.old; reading = P.In.faults input.now; writing = P.Out.faults output.old; place = P.sees place.old })
        (record { left = P.In.left input.now; written = P.Out.written output.new; reading = P.In.faults input.now; writing = P.Out.faults output.new; place = P.sees place.new })
        result }
    ensures cause { HasCause
        (record { left = P.In.left input.now; written = P.Out.written output.old; reading = P.In.faults input.now; writing = P.Out.faults output.old; place = P.sees place.old })
        (record { left = P.In.left input.now; written = P.Out.written output.new; reading = P.In.faults input.now; writing = P.Out.faults output.new; place = P.sees place.new })
        result }
{
    let mut keeper = match place.keeper(path) {
        Ok(keeper) => keeper,
        Err(NoDevice::Failed) => return 7,
        Err(NoDevice::OutOfMemory) => return 9,
    };
    let end = export_rows(alloc, &mut keeper, output);
    place.keeper_back(keeper);
    status_of_job(end)
}

/// Checks that the store of that path holds a site.
pub(crate) fn check_job<P: Place>(
    alloc: Global,
    path: &str,
    place: &mut P,
    input: &P::In,
    output: &mut P::Out,
) -> u8
    ensures does { TellsOrNot checked path.now
        (record { left = P.In.left input.now; written = P.Out.written output.old; reading = P.In.faults input.now; writing = P.Out.faults output.old; place = P.sees place.old })
        (record { left = P.In.left input.now; written = P.Out.written output.new; reading = P.In.faults input.now; writing = P.Out.faults output.new; place = P.sees place.new })
        result }
    ensures cause { HasCause
        (record { left = P.In.left input.now; written = P.Out.written output.old; reading = P.In.faults input.now; writing = P.Out.faults output.old; place = P.sees place.old })
        (record { left = P.In.left input.now; written = P.Out.written output.new; reading = P.In.faults input.now; writing = P.Out.faults output.new; place = P.sees place.new })
        result }
{
    let mut keeper = match place.keeper(path) {
        Ok(keeper) => keeper,
        Err(NoDevice::Failed) => return 7,
        Err(NoDevice::OutOfMemory) => return 9,
    };
    let end = check_site(alloc, &mut keeper, output);
    place.keeper_back(keeper);
    status_of_job(end)
}

/// Lists the targets of the site in the store of that path that a visitor without a session gets.
pub(crate) fn targets_job<P: Place>(
    alloc: Global,
    path: &str,
    place: &mut P,
    input: &P::In,
    output: &mut P::Out,
) -> u8
    ensures does { TellsOrNot targets_text path.now
        (record { left = P.In.left input.now; written = P.Out.written output.old; reading = P.In.faults input.now; writing = P.Out.faults output.old; place = P.sees place.old })
        (record { left = P.In.left input.now; written = P.Out.written output.new; reading = P.In.faults input.now; writing = P.Out.faults output.new; place = P.sees place.new })
        result }
    ensures cause { HasCause
        (record { left = P.In.left input.now; written = P.Out.written output.old; reading = P.In.faults input.now; writing = P.Out.faults output.old; place = P.sees place.old })
        (record { left = P.In.left input.now; written = P.Out.written output.new; reading = P.In.faults input.now; writing = P.Out.faults output.new; place = P.sees place.new })
        result }
{
    let mut keeper = match place.keeper(path) {
        Ok(keeper) => keeper,
        Err(NoDevice::Failed) => return 7,
        Err(NoDevice::OutOfMemory) => return 9,
    };
    let end = list_targets(alloc, &mut keeper, output);
    place.keeper_back(keeper);
    status_of_job(end)
}
