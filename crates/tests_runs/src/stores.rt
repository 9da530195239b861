//! What a keeper holds, from the rows of a text, and as text.

use cacheability::Tag;
use case_files::number;
use site_files::read_rows;
use site_io::MemorySource;
use site_keeper::Stored;
use std::alloc::{AllocError, Global};
use tag_counts::Counts;

/// The rows of a text, without counts. None where they are no rows.
pub fn stored_of(alloc: Global, text: &[u8]) -> Result<Option<Stored>, AllocError> {
    let mut source = MemorySource::new(Vec::from_slice(alloc, text)?, 4096);
    match read_rows(alloc, &mut source) {
        Ok(rows) => Ok(Some(Stored {
            rows,
            counts: Counts::new(alloc),
            head: 0,
        })),
        Err(_) => Ok(None),
    }
}

/// The tag of a word: that of a node, of the list of nodes, or of the settings.
fn tag_of(word: &[u8]) -> Option<Tag> {
    match word {
        b"node_list" => Some(Tag::NodeList),
        b"config:system.site" => Some(Tag::Site),
        _ => {
            let node = number(word.strip_prefix(b"node:")?)?;
            Some(Tag::Node(u32::try_from(node).ok()?))
        }
    }
}

/// Makes the count of the tag of that word the greatest there is. False where there is no such tag.
pub fn fill(stored: &mut Stored, word: &[u8]) -> Result<bool, AllocError> {
    match tag_of(word) {
        Some(tag) => {
            stored.counts.set(&tag, u64::MAX)?;
            Ok(true)
        }
        None => Ok(false),
    }
}

/// The cells that have rows, one a line.
pub fn cells_text(alloc: Global, stored: &Stored) -> Result<Vec<u8>, AllocError> {
    let mut text = Vec::new(alloc);
    for (cell, _) in stored.rows.in_order(alloc)? {
        text.extend_from_slice(cell.text(alloc)?.as_slice())?;
        text.push(b'\n')?;
    }
    Ok(text)
}
