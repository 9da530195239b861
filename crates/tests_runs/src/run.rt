//! A run of the program.

use crate::devices::{last, sink, source};
use crate::place::place;
use case_files::{Section, word_list};
use site_cli::{MemoryPlace, run_site};
use site_io::{MemoryDoor, MemorySink};
use site_keeper::{Keeper, Stored};
use std::alloc::{AllocError, Global};
use std::sync::Wait;
use std::thread::Threads;

/// What a run left.
#[derive(Drop)]
pub struct Ran {
    /// Its status.
    pub status: u8,
    /// What it printed, and what was written to those whom it served, in order.
    pub output: Vec<u8>,
    /// What its store holds then, where it opened one.
    pub stored: Option<Stored>,
}

/// The words of a command line.
fn strings(alloc: Global, text: &[u8]) -> Result<Vec<String>, AllocError> {
    let mut strings = Vec::new(alloc);
    for part in &word_list(alloc, text)? {
        strings.push(String::from_utf8_lossy(alloc, part)?)?;
    }
    Ok(strings)
}

/// Appends what was written to those who came to a door.
fn add_replies(door: &MemoryDoor, output: &mut Vec<u8>) -> Result<(), AllocError> {
    for back in door.returned() {
        output.extend_from_slice(back.sink.bytes())?;
    }
    Ok(())
}

/// What was printed, and what was written to those who came to the place's doors.
fn written(alloc: Global, sink: &MemorySink, place: &MemoryPlace) -> Result<Vec<u8>, AllocError> {
    let mut output = Vec::from_slice(alloc, sink.bytes())?;
    for door in place.doors_back() {
        add_replies(door, &mut output)?;
    }
    Ok(output)
}

/// What the keeper that was given back holds.
fn left_by(alloc: Global, place: MemoryPlace) -> Option<Stored> {
    let mut keeper = place.into_returned()?;
    keeper.load(alloc).ok()
}

/// Runs the program on these words, at the place that is set over what is stored.
pub fn run<R: Threads + Wait + Sync>(
    rt: &R,
    alloc: Global,
    set: &[Section],
    stored: &Option<Stored>,
    words: &[u8],
) -> Result<Ran, AllocError> {
    let words = strings(alloc, words)?;
    let input = match last(set, b"input") {
        Some(section) => section.text.as_slice(),
        None => &[],
    };
    let mut source = source(alloc, set, input)?;
    let mut sink = sink(alloc, set)?;
    let mut place = place(alloc, set, stored)?;
    let status = run_site(rt, alloc, &words, &mut place, &mut source, &mut sink);
    let output = written(alloc, &sink, &place);
    let stored = left_by(alloc, place);
    match output {
        Ok(output) => Ok(Ran {
            status,
            output,
            stored,
        }),
        Err(_) => {
            drop(stored);
            Err(AllocError)
        }
    }
}
