//! Batches in words, and what a keeper holds once they are kept, in short.

use cacheability::Tag;
use content_rows::{Cell, Items, Row};
use content_state::{Commit, Write};
use keeper_sqlite::tag_of;
use row_json::row_from_json;
use serde_json::Value;
use site_keeper::{Batch, Keeper, KeeperFault, Stored};
use std::alloc::Global;
use std::sync::Arc;

/// A batch in words.
struct Words {
    /// The rows that it sets, as JSON.
    rows: &'static [&'static str],
    /// The cell whose row it removes.
    gone: Option<Cell>,
    /// The tags whose counts it sets.
    counts: &'static [(&'static str, u64)],
    /// The head.
    head: u64,
}

/// The rows that a site begins with, a session and a comment.
const SITE: [&str; 11] = [
    "{\"cell\":\"site\",\"front\":\"/node\",\"name\":\"Site\"}",
    "{\"cell\":\"seq\",\"node\":2,\"term\":1,\"user\":2}",
    "{\"cell\":\"type:page\",\"fields\":[{\"edit\":null,\"label\":\"Body\",\"name\":\"body\",\"owner\":false,\"teaser\":true,\"view\":null}],\"label\":\"Page\",\"submitted\":false}",
    "{\"admin\":false,\"cell\":\"role:anonymous\",\"grants\":[],\"label\":\"Anonymous\",\"permissions\":[\"access content\"]}",
    "{\"admin\":false,\"cell\":\"role:authenticated\",\"grants\":[],\"label\":\"Member\",\"permissions\":[\"access content\"]}",
    "{\"cell\":\"user:1\",\"created\":0,\"digest\":null,\"grants\":[],\"name\":\"admin\",\"roles\":[],\"salt\":\"\",\"status\":true,\"uuid\":\"u-1\"}",
    "{\"cell\":\"node:1\",\"changed\":100,\"created\":100,\"fields\":{\"body\":\"Hello\"},\"grants\":[],\"path\":null,\"promote\":true,\"refs\":[],\"status\":true,\"sticky\":false,\"terms\":[],\"title\":\"First\",\"type\":\"page\",\"uid\":1,\"uuid\":\"n-1\",\"vid\":1}",
    "{\"age\":null,\"cell\":\"listing:frontpage\",\"path\":\"/node\",\"promoted\":true,\"recent\":null,\"term\":null,\"title\":\"Home\",\"types\":[]}",
    "{\"cell\":\"session:abc\",\"expires\":4000000000,\"uid\":1}",
    "{\"body\":\"Yes\",\"cell\":\"comment:1\",\"created\":100,\"node\":1,\"parent\":null,\"status\":true,\"uid\":1,\"uuid\":\"c-1\"}",
    "{\"cell\":\"talk\",\"comment\":2}",
];

/// The import of the site into a new store, with a count whose bytes all differ.
const BEGIN: Words = Words {
    rows: &SITE,
    gone: None,
    counts: &[
        ("4xx-response", 1),
        ("comment:1", 1),
        ("comment_list:1", 1),
        ("config:node.type.page", 1),
        ("config:system.site", 1),
        ("config:user.role.anonymous", 1),
        ("config:views.view.frontpage", 1),
        ("node:1", 1),
        ("node_list", 1),
        ("node_list:page", 1),
        ("user:0", 72_623_859_790_382_856),
        ("user:1", 1),
    ],
    head: 7,
};

/// The node gets another title, one more id of a node is given, and a user is gone. The head is the greatest.
const EDIT: Words = Words {
    rows: &[
        "{\"cell\":\"node:1\",\"changed\":1000,\"created\":100,\"fields\":{\"body\":\"Hello\"},\"grants\":[],\"path\":null,\"promote\":true,\"refs\":[],\"status\":true,\"sticky\":false,\"terms\":[],\"title\":\"A\",\"type\":\"page\",\"uid\":1,\"uuid\":\"n-1\",\"vid\":2}",
        "{\"cell\":\"seq\",\"node\":3,\"term\":1,\"user\":2}",
    ],
    gone: Some(Cell::User(1)),
    counts: &[("4xx-response", 2), ("node:1", 2), ("node_list", 3)],
    head: 18_446_744_073_709_551_615,
};

/// A write of a row, from its JSON.
fn write_of(alloc: Global, line: &str) -> Option<Write> {
    let value = Value::from_str(alloc, line).ok()?;
    let (cell, row) = row_from_json(alloc, &value).ok()?;
    let row = Arc::new(alloc, row).ok()?;
    Some(Write {
        cell,
        row: Some(row),
    })
}

/// The writes of a batch.
fn writes_of(alloc: Global, words: &Words) -> Option<Items<Write>> {
    let mut writes = Vec::new(alloc);
    for line in words.rows {
        writes.push(write_of(alloc, line)?).ok()?;
    }
    if let Some(cell) = words.gone {
        writes.push(Write { cell, row: None }).ok()?;
    }
    Some(Items::from_vec(writes))
}

/// The counts of a batch.
fn counts_of(alloc: Global, words: &Words) -> Option<Items<(Tag, u64)>> {
    let mut counts = Vec::new(alloc);
    for (text, count) in words.counts {
        counts.push((tag_of(text.as_bytes())?, *count)).ok()?;
    }
    Some(Items::from_vec(counts))
}

/// The batch that words say.
fn batch_from(alloc: Global, words: &Words) -> Option<Batch> {
    let counts = counts_of(alloc, words)?;
    let commit = Commit {
        writes: writes_of(alloc, words)?,
        extra: Items::none(alloc),
        pass: 0,
    };
    Some(Batch {
        commit: Arc::new(alloc, commit).ok()?,
        counts,
        head: words.head,
    })
}

/// A batch by its name, so that what a test is proved with has none of its words.
#[derive(Clone, Copy)]
pub(crate) enum Step {
    /// The import, as `BEGIN` says.
    Begin,
    /// The edit after it, as `EDIT` says.
    Edit,
}

/// The batch of this name.
pub(crate) fn batch_of(alloc: Global, step: Step) -> Option<Batch> {
    match step {
        Step::Begin => batch_from(alloc, &BEGIN),
        Step::Edit => batch_from(alloc, &EDIT),
    }
}

/// What is held, in short.
#[derive(Clone, Copy, PartialEq, Eq)]
pub(crate) struct Seen {
    /// How many rows.
    pub(crate) rows: usize,
    /// The next node's id, and 0 where no row has it.
    pub(crate) next_node: u32,
    /// The node's version, and 0 where it isn't there.
    pub(crate) version: u32,
    /// How many tags have a count.
    pub(crate) tags: usize,
    /// The sum of the counts of the anonymous user and of the tags that `EDIT` invalidates.
    pub(crate) sum: u128,
    /// The head that is loaded.
    pub(crate) head: u64,
    /// The head that is told by itself.
    pub(crate) told: u64,
}

/// What is held after `BEGIN`.
pub(crate) const BEGUN: Seen = Seen {
    rows: 11,
    next_node: 2,
    version: 1,
    tags: 12,
    sum: 72_623_859_790_382_859,
    head: 7,
    told: 7,
};

/// What is held after `BEGIN` and `EDIT`.
pub(crate) const EDITED: Seen = Seen {
    rows: 10,
    next_node: 3,
    version: 2,
    tags: 12,
    sum: 72_623_859_790_382_863,
    head: 18_446_744_073_709_551_615,
    told: 18_446_744_073_709_551_615,
};

/// What a keeper holds, in short.
pub(crate) fn held_by<K: Keeper>(alloc: Global, keeper: &mut K) -> Result<Seen, KeeperFault> {
    let told = keeper.head(alloc)?;
    let stored = keeper.load(alloc)?;
    Ok(in_short(&stored, told))
}

fn in_short(stored: &Stored, told: u64) -> Seen {
    Seen {
        rows: stored.rows.len(),
        next_node: number_in(stored, Cell::Seq),
        version: number_in(stored, Cell::Node(1)),
        tags: stored.counts.len(),
        sum: stored.counts.sum(&[Tag::User(0), Tag::NotFound, Tag::Node(1), Tag::NodeList]),
        head: stored.head,
        told,
    }
}

/// The next node's id, or a node's version; 0 where the cell holds none.
fn number_in(stored: &Stored, cell: Cell) -> u32 {
    match stored.rows.get(cell) {
        Some(Row::Seq(seq)) => seq.node,
        Some(Row::Node(node)) => node.vid,
        _ => 0,
    }
}
