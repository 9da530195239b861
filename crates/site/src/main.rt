//! The program `site`.
#![tactic(auto)]

use site_cli::{SystemPlace, WordsFault, command_words, refuse_words, run_system};
use site_io::{Reading, Sink, Writing};
use std::io::BufWriter;
use std::process::ExitCode;

/// How many bytes the output holds back until it is flushed.
const ROOM: usize = 65_536;

/// Makes the real input, output and place, and does what the words ask for. Where memory is wanting for what the output holds
/// back, nothing is done: the status is 9. Where the system's chance can't be had, no place can be made, and nothing is done: the
/// status is 7.
fn main(rt: HostRuntime) -> ExitCode {
    let mut input = Reading::new(rt.stdin());
    let Ok(writer) = BufWriter::with_capacity(rt.alloc(), ROOM, rt.stdout()) else {
        return ExitCode::from(9);
    };
    let mut output = Writing::new(writer);
    let Ok(mut place) = SystemPlace::new(rt) else {
        return ExitCode::from(7);
    };
    let status = match command_words(&rt) {
        Ok(words) => run_system(&rt, rt.alloc(), &words, &mut place, &mut input, &mut output),
        Err(WordsFault::NoText) => refuse_words(&mut output),
        Err(WordsFault::OutOfMemory) => 9,
    };
    let flushed = output.flush();
    if status == 0 && flushed.is_err() {
        return ExitCode::from(6);
    }
    ExitCode::from(status)
}
