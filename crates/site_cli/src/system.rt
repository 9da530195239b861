//! The program at the place of the system.
ghost use Rattle.std.specs.Prelude.{map};
ghost use Rattle.std.specs.String.{string_bytes};
ghost use Rattle.site_places.specs.Place.{system_view};
ghost use Rattle.site_cli.specs.Run.{Runs, RunsWithCause};
ghost use Rattle.site_cli.specs.Words.{asked};

use crate::run::run_site;
use site_io::{Reading, Writing};
use site_places::SystemPlace;
use std::alloc::Global;
use std::io::{BufWriter, Stdin, Stdout};
use std::sync::Wait;
use std::thread::Threads;

/// Does what the words ask for at the place of the system, from its input to its output, as `run_site` says. A program that calls
/// this is checked without seeing what that place is made of.
pub fn run_system<R: Threads + Wait + Sync>(
    rt: &R,
    alloc: Global,
    words: &[String],
    place: &mut SystemPlace,
    input: &mut Reading<Stdin>,
    output: &mut Writing<BufWriter<Stdout>>,
) -> u8
    ensures runs { Runs (asked (map string_bytes words.now))
        (record { left = input.old.left; written = output.old.written; reading = input.old.faults; writing = output.old.faults; place = system_view place.old })
        (record { left = input.new.left; written = output.new.written; reading = input.new.faults; writing = output.new.faults; place = system_view place.new })
        result }
    ensures cause { RunsWithCause (asked (map string_bytes words.now))
        (record { left = input.old.left; written = output.old.written; reading = input.old.faults; writing = output.old.faults; place = system_view place.old })
        (record { left = input.new.left; written = output.new.written; reading = input.new.faults; writing = output.new.faults; place = system_view place.new })
        result }
{
    run_site(rt, alloc, words, place, input, output)
}
