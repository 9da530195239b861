//! A case, section by section.

use crate::run::{Ran, run};
use crate::stores::{cells_text, fill, stored_of};
use case_files::{Found, Section, finds, number};
use site_keeper::Stored;
use std::alloc::{AllocError, Global};
use std::sync::Wait;
use std::thread::Threads;

/// What is stored, and what the last run of a case wrote.
#[derive(Drop)]
pub struct Bench {
    alloc: Global,
    stored: Option<Stored>,
    status: u8,
    output: Vec<u8>,
    /// How much of the output the pieces that were found take.
    passed: usize,
}

/// Whether a section with this word sets something for the runs after it.
fn is_setting(word: &[u8]) -> bool {
    matches!(
        word,
        b"file"
            | b"keeper"
            | b"openings"
            | b"moments"
            | b"chance"
            | b"port"
            | b"input"
            | b"piece"
            | b"reads"
            | b"room"
            | b"takes"
            | b"writes"
    )
}

/// A number as text.
fn decimal(alloc: Global, number: u64) -> Result<Vec<u8>, AllocError> {
    Ok(number.to_string(alloc)?.into_bytes())
}

/// Sets the number of what is stored, or a count.
fn set_stored(stored: &mut Stored, section: &Section) -> Result<Found, AllocError> {
    let rest = section.rest.as_slice();
    if section.word.as_slice() == b"number".as_slice() {
        stored.head = number(rest).unwrap_or(0);
        Ok(Found::Set)
    } else if fill(stored, rest)? {
        Ok(Found::Set)
    } else {
        Ok(Found::Wrong("no such tag"))
    }
}

/// What of what is stored a section is compared with.
fn look_at_stored(alloc: Global, stored: &Stored, word: &[u8]) -> Result<Found, AllocError> {
    match word {
        b"left" => Ok(Found::Rest(decimal(alloc, stored.head)?)),
        b"cells" => Ok(Found::Text(cells_text(alloc, stored)?)),
        _ => Ok(Found::Wrong("no such section")),
    }
}

impl Bench {
    /// Nothing is stored, and nothing ran yet.
    pub fn new(alloc: Global) -> Bench {
        Bench {
            alloc,
            stored: None,
            status: 0,
            output: Vec::new(alloc),
            passed: 0,
        }
    }

    /// Takes the next section, after those that were before it.
    pub fn take<R: Threads + Wait + Sync>(
        &mut self,
        rt: &R,
        set: &[Section],
        section: &Section,
    ) -> Result<Found, AllocError> {
        match section.word.as_slice() {
            b"run" => {
                let ran = run(rt, self.alloc, set, &self.stored, section.rest.as_slice())?;
                self.keep(ran);
                Ok(Found::Set)
            }
            b"store" => {
                self.stored = stored_of(self.alloc, section.text.as_slice())?;
                Ok(Found::Set)
            }
            word if is_setting(word) => Ok(Found::Set),
            _ => self.look(section),
        }
    }

    /// Keeps what a run left.
    fn keep(&mut self, ran: Ran) {
        let Ran {
            status,
            output,
            stored,
        } = ran;
        self.status = status;
        self.output = output;
        self.passed = 0;
        if stored.is_some() {
            self.stored = stored;
        }
    }

    /// What a section is compared with.
    fn look(&mut self, section: &Section) -> Result<Found, AllocError> {
        let alloc = self.alloc;
        let output = self.output.as_slice();
        match section.word.as_slice() {
            b"status" => Ok(Found::Rest(decimal(alloc, u64::from(self.status))?)),
            b"output" => Ok(Found::Text(Vec::from_slice(alloc, output)?)),
            b"begins" => Ok(Found::Front(Vec::from_slice(alloc, output)?)),
            b"length" => Ok(Found::Rest(decimal(alloc, output.len() as u64)?)),
            b"has" => {
                let piece = section.text.as_slice();
                Ok(Found::Piece(finds(output, &mut self.passed, piece)))
            }
            _ => self.look_inside(section),
        }
    }

    /// What is stored, as a section sets it or is compared with it.
    fn look_inside(&mut self, section: &Section) -> Result<Found, AllocError> {
        let alloc = self.alloc;
        let Some(stored) = &mut self.stored else {
            return Ok(Found::Wrong("no such section, or nothing is stored"));
        };
        match section.word.as_slice() {
            b"number" | b"full" => set_stored(stored, section),
            word => look_at_stored(alloc, stored, word),
        }
    }
}
