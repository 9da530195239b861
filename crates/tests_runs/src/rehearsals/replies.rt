//! What is answered to turns, as text.

use crate::rehearsals::fault::Fault;
use crate::rehearsals::sites::{rooms, state, stored};
use crate::rehearsals::turns::{Turns, add_turns};
use cache_entries::Found;
use case_files::{Section, Words};
use site_commands::{Answer, Refusal};
use site_rehearsal::{Reply, Turn, rehearse_in};
use std::alloc::{AllocError, Global};

/// What stands between a turn and its answer.
const ARROW: &[u8] = b" => ";

/// The part of a line that tells its turn.
fn turn_part(line: &[u8]) -> &[u8] {
    let found = line.windows(ARROW.len()).position(|part| part == ARROW);
    match found {
        Some(at) => line.get(..at).unwrap_or(line),
        None => line,
    }
}

/// The turns of the lines of a text, none of which is empty.
fn turn_lines<'a>(alloc: Global, text: &'a [u8]) -> Result<Words<'a>, AllocError> {
    let mut lines = Vec::new(alloc);
    for line in text.split(|byte| *byte == b'\n') {
        if !line.is_empty() {
            lines.push(turn_part(line))?;
        }
    }
    Ok(lines)
}

/// Appends a number.
fn add_number(alloc: Global, number: u64, out: &mut Vec<u8>) -> Result<(), AllocError> {
    out.extend_from_slice(number.to_string(alloc)?.as_bytes())
}

/// The word of a refusal.
fn refusal_word(refusal: &Refusal) -> &'static [u8] {
    match refusal {
        Refusal::Csrf => b"csrf",
        Refusal::NoTarget => b"no-target",
        Refusal::Denied(_) => b"denied",
        Refusal::TokenClash => b"token-clash",
        Refusal::Broken(_, _) => b"rule",
        Refusal::UuidTaken(_) => b"uuid-taken",
        Refusal::Stale(_) => b"stale",
        Refusal::PathTaken(_) => b"path-taken",
        Refusal::CountFull(_) => b"count-full",
        Refusal::LogFull => b"log-full",
    }
}

/// Appends why an edit was refused, and the tag whose count is full.
fn add_refusal(alloc: Global, refusal: &Refusal, out: &mut Vec<u8>) -> Result<(), AllocError> {
    out.extend_from_slice(refusal_word(refusal))?;
    if let Refusal::CountFull(tag) = refusal {
        out.push(b' ')?;
        out.extend_from_slice(tag.text(alloc)?.as_slice())?;
    }
    Ok(())
}

/// Appends what became of an edit.
fn add_answer(alloc: Global, answer: &Answer, out: &mut Vec<u8>) -> Result<(), AllocError> {
    match answer {
        Answer::Done(_, number) => {
            out.extend_from_slice(b"done ")?;
            add_number(alloc, *number, out)
        }
        Answer::Refused(refusal, _) => add_refusal(alloc, refusal, out),
        Answer::Keeper => out.extend_from_slice(b"keeper"),
        Answer::OutOfMemory => out.extend_from_slice(b"memory"),
    }
}

/// The word of what was found, and of whether it may be shown.
fn found_word(found: &Found, fresh: bool) -> &'static [u8] {
    match found {
        Found::Absent => b"absent",
        Found::Redirect(_) => b"redirect",
        Found::Entry(_) => if fresh { b"fresh" } else { b"not fresh" },
    }
}

/// Appends a reply.
fn add_reply(alloc: Global, reply: &Reply, out: &mut Vec<u8>) -> Result<(), AllocError> {
    match reply {
        Reply::Snapshot(number) => add_number(alloc, *number, out),
        Reply::Look(found, fresh) => out.extend_from_slice(found_word(found, *fresh)),
        Reply::Build(text) => out.extend_from_slice(text.as_slice()),
        Reply::Keep(true) => out.extend_from_slice(b"kept"),
        Reply::Keep(false) => out.extend_from_slice(b"nothing kept"),
        Reply::Commit(answer) => add_answer(alloc, answer, out),
    }
}

/// The turns with their replies, a line each.
fn lines_told(alloc: Global, lines: &[&[u8]], replies: &[Reply]) -> Result<Vec<u8>, AllocError> {
    let mut told = Vec::new(alloc);
    for (line, reply) in lines.iter().zip(replies) {
        told.extend_from_slice(line)?;
        told.extend_from_slice(ARROW)?;
        add_reply(alloc, reply, &mut told)?;
        told.push(b'\n')?;
    }
    Ok(told)
}

/// The turns with their replies, over the site and with the room that are set.
fn rehearsed(
    alloc: Global,
    set: &[Section],
    lines: &[&[u8]],
    turns: &Turns,
) -> Result<Vec<u8>, Fault> {
    let rooms = rooms(alloc, set)?;
    let base = stored(alloc, set)?;
    match rehearse_in(alloc, base, rooms, turns.as_slice()) {
        Ok(replies) => match lines_told(alloc, lines, replies.as_slice()) {
            Ok(told) => Ok(told),
            Err(_) => Err(Fault::OutOfMemory),
        },
        Err(_) => Err(Fault::NoSite),
    }
}

/// The turns of a text with their replies, over the site and with the room that are set, a line each.
pub fn told_turns(alloc: Global, set: &[Section], text: &[u8]) -> Result<Vec<u8>, Fault> {
    let lines = turn_lines(alloc, text)?;
    let state = state(alloc, set)?;
    let mut turns = Turns::new(alloc);
    match add_turns(alloc, &state, lines.as_slice(), &mut turns) {
        Ok(()) => rehearsed(alloc, set, lines.as_slice(), &turns),
        Err(fault) => Err(fault),
    }
}
