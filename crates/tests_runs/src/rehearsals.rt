//! Tests of rehearsals, by the cases of a file: lists of turns, each line with the answer that its turn is to have.

mod asks;
mod edits;
mod fault;
mod keys;
mod replies;
mod sites;
mod subjects;
mod turns;

use crate::rehearsals::fault::{Fault, told_fault};
use crate::rehearsals::replies::told_turns;
use crate::rehearsals::sites::told_sum;
use case_files::{Case, Found, Section, Tally};
use std::alloc::{AllocError, Global};

/// The file of the cases.
pub const FILE: &str = "rehearsals.cases";

/// What a text is to be compared with, or why there is none.
fn found(told: Result<Vec<u8>, Fault>) -> Result<Found, AllocError> {
    match told {
        Ok(text) => Ok(Found::Text(text)),
        Err(fault) => match told_fault(fault) {
            Some(why) => Ok(Found::Wrong(why)),
            None => Err(AllocError),
        },
    }
}

/// What is found for a section, after those that were before it.
fn take(alloc: Global, set: &[Section], section: &Section) -> Result<Found, AllocError> {
    match section.word.as_slice() {
        b"site" | b"number" | b"full" | b"rooms" => Ok(Found::Set),
        b"turns" => found(told_turns(alloc, set, section.text.as_slice())),
        b"sum" => found(told_sum(alloc, set, section.rest.as_slice())),
        _ => Ok(Found::Wrong("no such section")),
    }
}

/// Runs a case of the file, and tells each section of it that differs, a line each.
pub fn run_case(
    alloc: Global,
    case: &Case,
    tally: &mut Tally,
    told: &mut Vec<u8>,
) -> Result<(), AllocError> {
    let sections = case.sections.as_slice();
    for (at, section) in sections.iter().enumerate() {
        let found = take(alloc, sections.get(..at).unwrap_or(&[]), section)?;
        if let Some(line) = tally.judge(alloc, case, section, &found)? {
            told.extend_from_slice(line.as_slice())?;
        }
    }
    Ok(())
}
