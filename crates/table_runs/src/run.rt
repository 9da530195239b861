//! The program over a store in a database.
ghost use Rattle.std.specs.Prelude.{map};
ghost use Rattle.std.specs.String.{string_bytes};
ghost use Rattle.site_cli.specs.Run.{Runs, RunsWithCause};
ghost use Rattle.site_cli.specs.Words.{asked};
ghost use Rattle.table_places.specs.Tabled.{table_view};
ghost use Rattle.table_runs.specs.Leaves.{StoreTells};
ghost use Rattle.table_runs.specs.Tables.{Left};

use site_cli::run_site;
use site_io::Door;
use site_places::Place;
use sqlite::Alter;
use std::alloc::Global;
use std::sync::Wait;
use std::thread::Threads;
use table_places::TablePlace;

/// Does what the words ask for as `run_site` says it, over a store in a database. Where the keeper of the store is given back,
/// its database stands for what the job left, as far as its device gave back what it took and it can be used (`tells`).
pub fn run_over_tables<P: Place + Drop, S: Alter + Drop + Send, R: Threads + Wait + Sync>(
    rt: &R,
    alloc: Global,
    words: &[String],
    place: &mut TablePlace<P, S>,
    input: &mut P::In,
    output: &mut P::Out,
) -> u8
where
    <P::Door as Door>::In: Send,
    <P::Door as Door>::Out: Send,
    ensures runs { Runs (asked (map string_bytes words.now))
        (record { left = P.In.left input.old; written = P.Out.written output.old; reading = P.In.faults input.old; writing = P.Out.faults output.old; place = table_view (P.sees place.old.place) place.old })
        (record { left = P.In.left input.new; written = P.Out.written output.new; reading = P.In.faults input.new; writing = P.Out.faults output.new; place = table_view (P.sees place.new.place) place.new })
        result }
    ensures cause { RunsWithCause (asked (map string_bytes words.now))
        (record { left = P.In.left input.old; written = P.Out.written output.old; reading = P.In.faults input.old; writing = P.Out.faults output.old; place = table_view (P.sees place.old.place) place.old })
        (record { left = P.In.left input.new; written = P.Out.written output.new; reading = P.In.faults input.new; writing = P.Out.faults output.new; place = table_view (P.sees place.new.place) place.new })
        result }
    ensures tells { StoreTells (Left S.Store place.new) (asked (map string_bytes words.now)) place.old.path place.old.listed
        (record { left = P.In.left input.old; written = P.Out.written output.old; reading = P.In.faults input.old; writing = P.Out.faults output.old; place = table_view (P.sees place.old.place) place.old })
        (record { left = P.In.left input.new; written = P.Out.written output.new; reading = P.In.faults input.new; writing = P.Out.faults output.new; place = table_view (P.sees place.new.place) place.new })
        result }
{
    let status = run_site(rt, alloc, words, place, input, output);
    place.stands();
    status
}
