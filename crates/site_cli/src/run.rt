//! What the program does.
ghost use Rattle.std.specs.Prelude.{◌≡◌, ◌≤◌, ◌⊎◌, IfErr, IfOk, OnErr, Some, map};
ghost use Rattle.std.specs.String.{string_bytes};
ghost use Rattle.site_io.specs.Told.{after, AddsFront, Rose};
ghost use Rattle.content_state.specs.SiteRules.{IsValidState};
ghost use Rattle.serve_store.specs.Job.{to_serve};
ghost use Rattle.site_cli.specs.Words.{asked, serves, usage};
ghost use Rattle.site_cli.specs.Outside.{HasCause};
ghost use Rattle.site_alone.specs.Sites.{starter_site};
ghost use Rattle.site_cli.specs.Run.{status_of, ReplaysFileOrStarves, ReplaysOrStarves, Runs, RunsJob, RunsWithCause};

use crate::drilling::drill_job;
use crate::jobs::{check_job, export_job, import_job, targets_job};
use crate::load::{NoSite, load};
use crate::serving::serve_job;
use crate::words::{Job, WordFault, read_words};
use content_state::State;
use serve_store::Serving;
use site_alone::{alone_with, starter_state};
use site_http::serve_connection;
use site_io::{Door, Ended, Sink, Source, write_whole};
use site_places::Place;
use std::alloc::Global;
use std::sync::Wait;
use std::thread::Threads;

/// Prints how the program is called.
#[tactic(auto, unfolding(crate::specs::Words::usage))]
pub fn refuse_words<O: Sink>(output: &mut O) -> u8
    ensures status { result ≡ 2 }
    ensures printed { (O.written output.new ≡ after (O.written output.old) usage) ⊎ (AddsFront (O.written output.old) (O.written output.new) usage × Rose (O.faults output.old) (O.faults output.new)) }
    ensures never_falls { O.faults output.old ≤ O.faults output.new }
{
    let _ = write_whole(
        output,
        b"usage: site replay|serve|import|export|check|drill\n",
    );
    2
}

/// The status of a connection's end.
fn status_of(ended: Ended) -> u8
    ensures { result ≡ status_of ended }
{
    match ended {
        Ended::Closed | Ended::Asked | Ended::Spent => 0,
        Ended::Refused(_) | Ended::Truncated(_) => 8,
        Ended::ReadFault => 5,
        Ended::WriteFault => 6,
        Ended::OutOfMemory => 9,
    }
}

/// Prints why the rows of a file are refused.
fn refuse_rows<O: Sink>(output: &mut O, text: &[u8]) -> u8
    ensures status { result ≡ 3 }
    ensures printed { (O.written output.new ≡ after (O.written output.old) text.now) ⊎ (AddsFront (O.written output.old) (O.written output.new) text.now × Rose (O.faults output.old) (O.faults output.new)) }
    ensures never_falls { O.faults output.old ≤ O.faults output.new }
{
    let _ = write_whole(output, text);
    3
}

/// Answers one connection over a site.
fn connect<P: Place, R>(
    rt: &R,
    alloc: Global,
    state: State,
    place: &mut P,
    input: &mut P::In,
    output: &mut P::Out,
) -> u8
    requires { IsValidState state }
    ensures does { ReplaysOrStarves state
        (record { left = P.In.left input.old; written = P.Out.written output.old; reading = P.In.faults input.old; writing = P.Out.faults output.old; place = P.sees place.old })
        (record { left = P.In.left input.new; written = P.Out.written output.new; reading = P.In.faults input.new; writing = P.Out.faults output.new; place = P.sees place.new })
        result }
    ensures cause { HasCause
        (record { left = P.In.left input.old; written = P.Out.written output.old; reading = P.In.faults input.old; writing = P.Out.faults output.old; place = P.sees place.old })
        (record { left = P.In.left input.new; written = P.Out.written output.new; reading = P.In.faults input.new; writing = P.Out.faults output.new; place = P.sees place.new })
        result }
{
    let Ok(mut house) = alone_with(alloc, &state) else {
        return 9;
    };
    let mut clock = place.clock();
    let mut entropy = place.entropy();
    let mut gate = place.gate();
    let ended = serve_connection(
        rt,
        alloc,
        &mut house,
        input,
        output,
        &mut clock,
        &mut entropy,
        &mut gate,
    );
    // All that was published is what this caller handed in, since nobody else was there.
    let _handed = house.handed();
    status_of(ended)
}

/// Answers one connection over the starter site.
fn replay<P: Place, R>(
    rt: &R,
    alloc: Global,
    place: &mut P,
    input: &mut P::In,
    output: &mut P::Out,
) -> u8
    ensures does { ReplaysOrStarves starter_site
        (record { left = P.In.left input.old; written = P.Out.written output.old; reading = P.In.faults input.old; writing = P.Out.faults output.old; place = P.sees place.old })
        (record { left = P.In.left input.new; written = P.Out.written output.new; reading = P.In.faults input.new; writing = P.Out.faults output.new; place = P.sees place.new })
        result }
    ensures cause { HasCause
        (record { left = P.In.left input.old; written = P.Out.written output.old; reading = P.In.faults input.old; writing = P.Out.faults output.old; place = P.sees place.old })
        (record { left = P.In.left input.new; written = P.Out.written output.new; reading = P.In.faults input.new; writing = P.Out.faults output.new; place = P.sees place.new })
        result }
{
    match starter_state(alloc) {
        Ok(state) => connect(rt, alloc, state, place, input, output),
        Err(_) => 9,
    }
}

/// Answers one connection over the site of the file of rows of that path.
#[tactic(auto, using(crate::proofs::Loading::over_file, crate::proofs::Loading::one_rose))]
fn replay_file<P: Place, R>(
    rt: &R,
    alloc: Global,
    path: &str,
    place: &mut P,
    input: &mut P::In,
    output: &mut P::Out,
) -> u8
    ensures does { ReplaysFileOrStarves path.now
        (record { left = P.In.left input.old; written = P.Out.written output.old; reading = P.In.faults input.old; writing = P.Out.faults output.old; place = P.sees place.old })
        (record { left = P.In.left input.new; written = P.Out.written output.new; reading = P.In.faults input.new; writing = P.Out.faults output.new; place = P.sees place.new })
        result }
    ensures cause { HasCause
        (record { left = P.In.left input.old; written = P.Out.written output.old; reading = P.In.faults input.old; writing = P.Out.faults output.old; place = P.sees place.old })
        (record { left = P.In.left input.new; written = P.Out.written output.new; reading = P.In.faults input.new; writing = P.Out.faults output.new; place = P.sees place.new })
        result }
{
    match load(alloc, place, path) {
        Ok(state) => connect(rt, alloc, state, place, input, output),
        Err(NoSite::Failed) => 7,
        Err(NoSite::Refused(text)) => refuse_rows(output, text.as_slice()),
        Err(NoSite::OutOfMemory) => 9,
    }
}

/// Does what the words ask for, unless they ask to serve, and answers the status of the program as `run_site` says it.
/// `Err` only where they ask to serve: what is to be served then, and nothing is done.
///
/// It returns for every job, since nothing here may wait but a read, a write and a store's file.
pub fn run_job<P: Place, R>(
    rt: &R,
    alloc: Global,
    words: &[String],
    place: &mut P,
    input: &mut P::In,
    output: &mut P::Out,
) -> Result<u8, Serving>
    ensures runs { IfOk result (RunsJob (asked (map string_bytes words.now))
        (record { left = P.In.left input.old; written = P.Out.written output.old; reading = P.In.faults input.old; writing = P.Out.faults output.old; place = P.sees place.old })
        (record { left = P.In.left input.new; written = P.Out.written output.new; reading = P.In.faults input.new; writing = P.Out.faults output.new; place = P.sees place.new })) }
    ensures cause { IfOk result (RunsWithCause (asked (map string_bytes words.now))
        (record { left = P.In.left input.old; written = P.Out.written output.old; reading = P.In.faults input.old; writing = P.Out.faults output.old; place = P.sees place.old })
        (record { left = P.In.left input.new; written = P.Out.written output.new; reading = P.In.faults input.new; writing = P.Out.faults output.new; place = P.sees place.new })) }
    ensures serves { IfErr result (λ serving. asked (map string_bytes words.now) ≡ Some (serves (to_serve serving))) }
    ensures input { OnErr result (input.new ≡ input.old) }
    ensures output { OnErr result (output.new ≡ output.old) }
    ensures place { OnErr result (place.new ≡ place.old) }
{
    match read_words(alloc, words) {
        Ok(Job::Replay(None)) => Ok(replay(rt, alloc, place, input, output)),
        Ok(Job::Replay(Some(path))) => Ok(replay_file(
            rt,
            alloc,
            path.as_str(),
            place,
            input,
            output,
        )),
        Ok(Job::Serve(serving)) => Err(serving),
        Ok(Job::Import(path)) => Ok(import_job(alloc, path.as_str(), place, input, output)),
        Ok(Job::Export(path)) => Ok(export_job(alloc, path.as_str(), place, input, output)),
        Ok(Job::Check(path)) => Ok(check_job(alloc, path.as_str(), place, input, output)),
        Ok(Job::Targets(path)) => Ok(targets_job(alloc, path.as_str(), place, input, output)),
        Ok(Job::Drill(number)) => Ok(drill_job(alloc, number, place, input, output)),
        Err(WordFault::BadWords) => Ok(refuse_words(output)),
        Err(WordFault::OutOfMemory) => Ok(9),
    }
}

/// Does what the words ask for, and answers the status of the program.
///
/// 0: the connection was answered to its end, the job over the store or the drill was done, or as many connections were served
/// as there was leave for. 2: the words are no command line, and how the program is called was printed. 3: the rows of the file, of
/// the input or of the store are refused, and the first fault was printed. 4: the store's keeper failed to load or at an
/// import, and the place's count of those rose; nothing was printed. 5, 6: the input or the output failed, and its count of
/// faults rose. 7: the file of rows, the store or a door wasn't opened, reading the file failed, or a worker stopped for its
/// door, and one of the place's counts rose. 8: the connection was refused, or its input ended within a request. 9: memory
/// was wanting, or a reply of the drill says so. What the place gave to read the rows, the keeper of the store and the doors are given back.
#[tactic(auto, using(crate::proofs::Loading::runs_job, crate::proofs::Loading::serving_runs, crate::proofs::Loading::serving_causes))]
pub fn run_site<P: Place, R: Threads + Wait + Sync>(
    rt: &R,
    alloc: Global,
    words: &[String],
    place: &mut P,
    input: &mut P::In,
    output: &mut P::Out,
) -> u8
where
    <P::Door as Door>::In: Send,
    <P::Door as Door>::Out: Send,
    ensures runs { Runs (asked (map string_bytes words.now))
        (record { left = P.In.left input.old; written = P.Out.written output.old; reading = P.In.faults input.old; writing = P.Out.faults output.old; place = P.sees place.old })
        (record { left = P.In.left input.new; written = P.Out.written output.new; reading = P.In.faults input.new; writing = P.Out.faults output.new; place = P.sees place.new })
        result }
    ensures cause { RunsWithCause (asked (map string_bytes words.now))
        (record { left = P.In.left input.old; written = P.Out.written output.old; reading = P.In.faults input.old; writing = P.Out.faults output.old; place = P.sees place.old })
        (record { left = P.In.left input.new; written = P.Out.written output.new; reading = P.In.faults input.new; writing = P.Out.faults output.new; place = P.sees place.new })
        result }
{
    match run_job(rt, alloc, words, place, input, output) {
        Ok(status) => status,
        Err(serving) => serve_job(rt, alloc, &serving, place, input, output),
    }
}
