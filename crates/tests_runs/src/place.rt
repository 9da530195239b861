//! The place of a run, as the sections of its case set it.
ghost use Rattle.std.specs.Prelude.{IfOk};
ghost use Rattle.site_places.specs.Place.{IsNewDoor};

use crate::devices::{rest_of, sink, source};
use case_files::{Section, first_word, number, numbers, word_list};
use site_cli::{MemoryFile, MemoryPlace, MemoryPort, MemoryStore};
use site_io::MemoryDoor;
use site_keeper::{Fail, Stored};
use std::alloc::{AllocError, Global};

/// The lists of numbers of all sections with that word.
fn lists(alloc: Global, set: &[Section], word: &[u8]) -> Result<Vec<Vec<u64>>, AllocError> {
    let mut lists = Vec::new(alloc);
    for section in set {
        if section.word.as_slice() == word {
            lists.push(numbers(alloc, section.rest.as_slice())?)?;
        }
    }
    Ok(lists)
}

/// The file of a section: its path, the reads that fail, and its bytes.
fn file(alloc: Global, section: &Section) -> Result<MemoryFile, AllocError> {
    let (path, failing) = first_word(section.rest.as_slice());
    Ok(MemoryFile::new(
        String::from_utf8_lossy(alloc, path)?,
        Vec::from_slice(alloc, section.text.as_slice())?,
        numbers(alloc, failing)?,
    ))
}

/// The files that are set.
fn files(alloc: Global, set: &[Section]) -> Result<Vec<MemoryFile>, AllocError> {
    let mut files = Vec::new(alloc);
    for section in set {
        if section.word.as_slice() == b"file".as_slice() {
            files.push(file(alloc, section)?)?;
        }
    }
    Ok(files)
}

/// A call of the keeper that is to fail, as `2:kept` or `2:lost`.
fn fail_of(word: &[u8]) -> Option<Fail> {
    let kept = word.strip_suffix(b":kept");
    let call = kept.or(word.strip_suffix(b":lost"))?;
    Some(Fail {
        call: number(call)?,
        kept: kept.is_some(),
    })
}

/// The calls of the keeper that are to fail. A word that is none is left out.
fn fails(alloc: Global, set: &[Section]) -> Result<Vec<Fail>, AllocError> {
    let mut fails = Vec::new(alloc);
    for word in &word_list(alloc, rest_of(set, b"keeper"))? {
        if let Some(fail) = fail_of(word) {
            fails.push(fail)?;
        }
    }
    Ok(fails)
}

/// The store with what is stored, where its rows are right.
fn store(
    alloc: Global,
    set: &[Section],
    stored: &Stored,
) -> Result<Option<MemoryStore>, AllocError> {
    let path = String::from_utf8_lossy(alloc, rest_of(set, b"store"))?;
    let fails = fails(alloc, set)?;
    let copy = stored.duplicate(alloc)?;
    if copy.rows.are_right() {
        Ok(Some(MemoryStore::new(path, copy, fails)))
    } else {
        drop(copy);
        Ok(None)
    }
}

/// The stores: one, or none.
fn stores(
    alloc: Global,
    set: &[Section],
    stored: &Option<Stored>,
) -> Result<Vec<MemoryStore>, AllocError> {
    let mut stores = Vec::with_capacity(alloc, 1)?;
    if let Some(stored) = stored
        && let Some(store) = store(alloc, set, stored)?
    {
        stores.push(store)?;
    }
    Ok(stores)
}

/// A door where so many callers come, each with this input.
fn door(alloc: Global, count: u64, input: &[u8]) -> Result<MemoryDoor, AllocError>
    ensures { IfOk result IsNewDoor }
{
    let mut connections = Vec::new(alloc);
    for _ in 0..count {
        connections.push((source(alloc, &[], input)?, sink(alloc, &[])?))?;
    }
    MemoryDoor::new(alloc, connections)
}

/// The port of a section: its address, how many callers come to its door, and what each of them sends.
fn port(alloc: Global, section: &Section) -> Result<MemoryPort, AllocError> {
    let (address, count) = first_word(section.rest.as_slice());
    let address = String::from_utf8_lossy(alloc, address)?;
    let count = number(count).unwrap_or(1);
    let door = door(alloc, count, section.text.as_slice())?;
    Ok(MemoryPort::new(address, door))
}

/// The ports that are set.
fn ports(alloc: Global, set: &[Section]) -> Result<Vec<MemoryPort>, AllocError> {
    let mut ports = Vec::new(alloc);
    for section in set {
        if section.word.as_slice() == b"port".as_slice() {
            ports.push(port(alloc, section)?)?;
        }
    }
    Ok(ports)
}

/// The place that is set, over what is stored.
pub fn place(
    alloc: Global,
    set: &[Section],
    stored: &Option<Stored>,
) -> Result<MemoryPlace, AllocError> {
    let moments = lists(alloc, set, b"moments")?;
    let chance = lists(alloc, set, b"chance")?;
    let openings = numbers(alloc, rest_of(set, b"openings"))?;
    let files = files(alloc, set)?;
    let ports = ports(alloc, set)?;
    let stores = stores(alloc, set, stored)?;
    Ok(
        MemoryPlace::new(alloc, moments, chance)
            .with_files(files)
            .with_ports(ports)
            .with_stores(stores)
            .failing_at(openings),
    )
}
