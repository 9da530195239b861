//! What was found, compared with what a section says.

use crate::section::{Case, Section};
use std::alloc::{AllocError, Global};

/// What was found for a section.
#[derive(Drop)]
pub enum Found {
    /// The section only sets something.
    Set,
    /// Its text is to be this.
    Text(Vec<u8>),
    /// This is to begin with its text.
    Front(Vec<u8>),
    /// The rest of its head is to be this.
    Rest(Vec<u8>),
    /// Whether its text stands in what was looked through.
    Piece(bool),
    /// The section can't be run.
    Wrong(&'static str),
}

/// How many cases and comparisons there were, and how many of the latter differed.
#[derive(Clone, Copy)]
pub struct Tally {
    cases: u64,
    checks: u64,
    differing: u64,
}

/// How many bytes are shown of each of two texts that differ.
const SHOWN: usize = 60;

/// The first place where two texts differ.
fn difference(found: &[u8], wanted: &[u8]) -> Option<usize> {
    let differs = found
        .iter()
        .zip(wanted)
        .position(|(one, other)| *one != *other);
    match differs {
        Some(at) => Some(at),
        None if found.len() == wanted.len() => None,
        None => Some(found.len().min(wanted.len())),
    }
}

/// Appends the bytes from a place on, a few of them, as text.
fn show(bytes: &[u8], at: usize, out: &mut Vec<u8>) -> Result<(), AllocError> {
    let shown = bytes.get(at..).unwrap_or(&[]);
    out.push(b'"')?;
    for byte in shown.iter().take(SHOWN) {
        match *byte {
            b'\r' => out.extend_from_slice(b"\\r")?,
            b'\n' => out.extend_from_slice(b"\\n")?,
            byte => out.push(byte)?,
        }
    }
    out.push(b'"')?;
    Ok(())
}

/// Where two texts differ, and how they go on there.
fn told(alloc: Global, found: &[u8], wanted: &[u8], at: usize) -> Result<Vec<u8>, AllocError> {
    let mut text = Vec::new(alloc);
    let place = format!(in alloc; "at byte {at}, wanted ")?;
    text.extend_from_slice(place.as_bytes())?;
    show(wanted, at, &mut text)?;
    text.extend_from_slice(b", found ")?;
    show(found, at, &mut text)?;
    Ok(text)
}

/// What is wrong with what was found, none where it is as wanted.
fn compared(alloc: Global, found: &[u8], wanted: &[u8]) -> Result<Option<Vec<u8>>, AllocError> {
    match difference(found, wanted) {
        Some(at) => Ok(Some(told(alloc, found, wanted, at)?)),
        None => Ok(None),
    }
}

/// What is wrong with what was found for a section, none where it is as the section says.
fn wrong(alloc: Global, section: &Section, found: &Found) -> Result<Option<Vec<u8>>, AllocError> {
    let wanted = section.text.as_slice();
    match found {
        Found::Set | Found::Piece(true) => Ok(None),
        Found::Text(found) => compared(alloc, found, wanted),
        Found::Rest(found) => compared(alloc, found, section.rest.as_slice()),
        Found::Front(found) => {
            let end = wanted.len().min(found.len());
            compared(alloc, found.get(..end).unwrap_or(&[]), wanted)
        }
        Found::Piece(false) => {
            let mut text = Vec::from_slice(alloc, b"there is none of ")?;
            show(wanted, 0, &mut text)?;
            Ok(Some(text))
        }
        Found::Wrong(why) => Ok(Some(Vec::from_slice(alloc, why.as_bytes())?)),
    }
}

/// Whether what was found is compared with something.
fn is_check(found: &Found) -> bool {
    !matches!(found, Found::Set)
}

impl Tally {
    /// A tally in which nothing is counted yet.
    pub fn new() -> Tally {
        Tally {
            cases: 0,
            checks: 0,
            differing: 0,
        }
    }

    /// Counts a case.
    pub fn count_case(&mut self) {
        self.cases = self.cases.saturating_add(1);
    }

    /// A line that tells how many cases and comparisons there were, and how many differed.
    pub fn told(&self, alloc: Global) -> Result<String, AllocError> {
        let cases = self.cases;
        let checks = self.checks;
        match self.differing {
            0 => format!(in alloc; "{cases} cases, {checks} comparisons agree"),
            differing => {
                format!(in alloc; "{cases} cases, {differing} of {checks} comparisons differ")
            }
        }
    }

    /// Counts what was found for a section. Where it isn't as the section says, the result is a line that tells so.
    pub fn judge(
        &mut self,
        alloc: Global,
        case: &Case,
        section: &Section,
        found: &Found,
    ) -> Result<Option<Vec<u8>>, AllocError> {
        if is_check(found) {
            self.checks = self.checks.saturating_add(1);
        }
        match wrong(alloc, section, found)? {
            Some(why) => {
                self.differing = self.differing.saturating_add(1);
                Ok(Some(line(alloc, case, section, why.as_slice())?))
            }
            None => Ok(None),
        }
    }
}

/// The line that tells of a section that differs.
fn line(alloc: Global, case: &Case, section: &Section, why: &[u8]) -> Result<Vec<u8>, AllocError> {
    let number = section.line;
    let mut line = Vec::new(alloc);
    let place = format!(in alloc; "line {number}, ")?;
    line.extend_from_slice(place.as_bytes())?;
    line.extend_from_slice(case.name.as_slice())?;
    line.extend_from_slice(b": ")?;
    line.extend_from_slice(section.word.as_slice())?;
    line.push(b' ')?;
    line.extend_from_slice(section.rest.as_slice())?;
    line.extend_from_slice(b": ")?;
    line.extend_from_slice(why)?;
    line.push(b'\n')?;
    Ok(line)
}
