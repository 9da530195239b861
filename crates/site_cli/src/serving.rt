//! The job of serving.
ghost use Rattle.std.specs.Prelude.{◌≡◌};
ghost use Rattle.serve_store.specs.Job.{to_serve};
ghost use Rattle.site_cli.specs.Serving.{status_of_serve, HasServingCause, Serves};

use serve_store::{ServeEnd, Serving, serve_store};
use site_io::Door;
use site_places::Place;
use std::alloc::Global;
use std::sync::Wait;
use std::thread::Threads;

/// The status of the job's end.
fn status_of_serve(end: ServeEnd) -> u8
    ensures { result ≡ status_of_serve end }
{
    match end {
        ServeEnd::Served => 0,
        ServeEnd::Refused => 3,
        ServeEnd::KeeperFailed => 4,
        ServeEnd::OutputFailed => 6,
        ServeEnd::PlaceFailed => 7,
        ServeEnd::OutOfMemory => 9,
    }
}

/// Serves the site that a store holds, as is told.
pub(crate) fn serve_job<P: Place, R: Threads + Wait + Sync>(
    rt: &R,
    alloc: Global,
    serving: &Serving,
    place: &mut P,
    input: &P::In,
    output: &mut P::Out,
) -> u8
where
    <P::Door as Door>::In: Send,
    <P::Door as Door>::Out: Send,
    ensures does { Serves (to_serve serving.now)
        (record { left = P.In.left input.now; written = P.Out.written output.old; reading = P.In.faults input.now; writing = P.Out.faults output.old; place = P.sees place.old })
        (record { left = P.In.left input.now; written = P.Out.written output.new; reading = P.In.faults input.now; writing = P.Out.faults output.new; place = P.sees place.new })
        result }
    ensures cause { HasServingCause
        (record { left = P.In.left input.now; written = P.Out.written output.old; reading = P.In.faults input.now; writing = P.Out.faults output.old; place = P.sees place.old })
        (record { left = P.In.left input.now; written = P.Out.written output.new; reading = P.In.faults input.now; writing = P.Out.faults output.new; place = P.sees place.new })
        result }
{
    status_of_serve(serve_store(rt, alloc, serving, place, output))
}
