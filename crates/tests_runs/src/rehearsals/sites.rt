//! The site of a rehearsal, as the sections of its case set it.
ghost use Rattle.std.specs.Prelude.{IfOk};
ghost use Rattle.indexed_rows.specs.Rows.{AreValidRows};

use crate::devices::last;
use crate::rehearsals::asks::name;
use crate::rehearsals::fault::Fault;
use crate::rehearsals::subjects::small;
use cacheability::Tag;
use case_files::{Section, number, numbers, word_list};
use content_state::State;
use site_files::{read_rows, read_site};
use site_hall::Rooms;
use site_io::MemorySource;
use site_keeper::Stored;
use std::alloc::{AllocError, Global};
use std::num::NonZeroUsize;
use tag_counts::Counts;

/// The rows of the site, as a source.
fn rows_source(alloc: Global, set: &[Section]) -> Result<MemorySource, Fault> {
    match last(set, b"site") {
        Some(section) => Ok(MemorySource::new(
            Vec::from_slice(alloc, section.text.as_slice())?,
            4096,
        )),
        None => Err(Fault::Unset),
    }
}

/// The state of the site, without counts.
pub fn state(alloc: Global, set: &[Section]) -> Result<State, Fault> {
    let mut source = rows_source(alloc, set)?;
    match read_site(alloc, &mut source) {
        Ok(state) => Ok(state),
        Err(_) => Err(Fault::NoSite),
    }
}

/// The tag of a text.
fn tag(text: &[u8]) -> Result<Tag, Fault> {
    if text == b"rendered".as_slice() {
        Ok(Tag::Rendered)
    } else if let Some(block) = text.strip_prefix(b"config:block.block.") {
        Ok(Tag::Block(name(block)?))
    } else if let Some(node) = text.strip_prefix(b"node:") {
        Ok(Tag::Node(small(node)?))
    } else {
        Err(Fault::Tag)
    }
}

/// The counts of the site: the greatest there is of each tag that is full.
fn counts(alloc: Global, set: &[Section]) -> Result<Counts, Fault> {
    let mut counts = Counts::new(alloc);
    for section in set {
        if section.word.as_slice() == b"full".as_slice() {
            counts.set(&tag(section.rest.as_slice())?, u64::MAX)?;
        }
    }
    Ok(counts)
}

/// What a keeper holds of the site.
pub fn stored(alloc: Global, set: &[Section]) -> Result<Stored, Fault>
    ensures { IfOk result (λ stored. AreValidRows stored.rows) }
{
    let head = match last(set, b"number") {
        Some(section) => number(section.rest.as_slice()).unwrap_or(0),
        None => 0,
    };
    let counts = counts(alloc, set)?;
    let mut source = rows_source(alloc, set)?;
    match read_rows(alloc, &mut source) {
        Ok(rows) => Ok(Stored { rows, counts, head }),
        Err(_) => Err(Fault::Rows),
    }
}

/// A capacity.
fn capacity(number: u64) -> Result<NonZeroUsize, Fault> {
    match usize::try_from(number).ok().and_then(NonZeroUsize::new) {
        Some(capacity) => Ok(capacity),
        None => Err(Fault::Capacity),
    }
}

/// The capacities of the bins: those of the program where none are set.
pub fn rooms(alloc: Global, set: &[Section]) -> Result<Rooms, Fault> {
    let Some(section) = last(set, b"rooms") else {
        return Ok(Rooms::of_program());
    };
    match numbers(alloc, section.rest.as_slice())?.as_slice() {
        [fragments, dynamic, anonymous] => Ok(Rooms {
            fragments: capacity(*fragments)?,
            dynamic: capacity(*dynamic)?,
            anonymous: capacity(*anonymous)?,
        }),
        _ => Err(Fault::Capacities),
    }
}

/// The sum of the counts of the tags that are named, as text.
pub fn told_sum(alloc: Global, set: &[Section], texts: &[u8]) -> Result<Vec<u8>, Fault> {
    let counts = counts(alloc, set)?;
    let mut tags = Vec::new(alloc);
    for text in &word_list(alloc, texts)? {
        tags.push(tag(text)?)?;
    }
    let sum = counts.sum(tags.as_slice());
    Ok(format!(in alloc; "{sum}")?.into_bytes())
}
