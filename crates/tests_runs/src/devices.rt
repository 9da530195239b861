//! What the sections of a case set, and devices in memory that are as they say.

use case_files::{Section, number, numbers};
use site_io::{MemorySink, MemorySource};
use std::alloc::{AllocError, Global};

/// The last section with that word, if there is one.
pub fn last<'a>(set: &'a [Section], word: &[u8]) -> Option<&'a Section> {
    set.iter()
        .rev()
        .find(|section| section.word.as_slice() == word)
}

/// The rest of the head of the last section with that word, empty where there is none.
pub fn rest_of<'a>(set: &'a [Section], word: &[u8]) -> &'a [u8] {
    match last(set, word) {
        Some(section) => section.rest.as_slice(),
        None => &[],
    }
}

/// The number that was set last by that word, or another where none was.
fn number_of(set: &[Section], word: &[u8], otherwise: u64) -> usize {
    let number = number(rest_of(set, word)).unwrap_or(otherwise);
    usize::try_from(number).unwrap_or(usize::MAX)
}

/// A source of this input, which comes in pieces of 64 bytes where nothing else is set.
pub fn source(alloc: Global, set: &[Section], input: &[u8]) -> Result<MemorySource, AllocError> {
    let failing = numbers(alloc, rest_of(set, b"reads"))?;
    let piece = number_of(set, b"piece", 64);
    Ok(MemorySource::new(Vec::from_slice(alloc, input)?, piece).failing_at(failing))
}

/// Where to is written, with room for 400,000 bytes where nothing else is set, which takes each piece whole where nothing else is.
pub fn sink(alloc: Global, set: &[Section]) -> Result<MemorySink, AllocError> {
    let failing = numbers(alloc, rest_of(set, b"writes"))?;
    let room = number_of(set, b"room", 400_000);
    let most = number_of(set, b"takes", u64::MAX);
    Ok(
        MemorySink::new(alloc, room)?
            .failing_at(failing)
            .taking(most),
    )
}
