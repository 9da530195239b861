//! The drill, as a job.
ghost use Rattle.std.specs.Prelude.{◌≡◌};
ghost use Rattle.site_cli.specs.Drilling.{status_of_drill, DrillsOrStarves};
ghost use Rattle.site_cli.specs.Outside.{HasCause};

use site_drill::{DrillEnd, drill};
use site_places::Place;
use std::alloc::Global;

/// The status of a drill's end.
fn status_of_drill(end: DrillEnd) -> u8
    ensures { result ≡ status_of_drill end }
{
    match end {
        DrillEnd::Printed => 0,
        DrillEnd::NoSite => 3,
        DrillEnd::OutputFailed => 6,
        DrillEnd::Unanswered => 8,
        DrillEnd::OutOfMemory => 9,
    }
}

/// Does the drill that is made from a number.
pub(crate) fn drill_job<P: Place>(
    alloc: Global,
    number: u64,
    place: &P,
    input: &P::In,
    output: &mut P::Out,
) -> u8
    ensures does { DrillsOrStarves number
        (record { left = P.In.left input.now; written = P.Out.written output.old; reading = P.In.faults input.now; writing = P.Out.faults output.old; place = P.sees place.now })
        (record { left = P.In.left input.now; written = P.Out.written output.new; reading = P.In.faults input.now; writing = P.Out.faults output.new; place = P.sees place.now })
        result }
    ensures cause { HasCause
        (record { left = P.In.left input.now; written = P.Out.written output.old; reading = P.In.faults input.now; writing = P.Out.faults output.old; place = P.sees place.now })
        (record { left = P.In.left input.now; written = P.Out.written output.new; reading = P.In.faults input.now; writing = P.Out.faults output.new; place = P.sees place.now })
        result }
{
    status_of_drill(drill(alloc, number, output))
}
