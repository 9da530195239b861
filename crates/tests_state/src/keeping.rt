//! When entries are fresh, and the order of a bin.

use crate::club::{asked, name, site, viewer};
use cache_contexts::{ContextValue, values};
use cache_entries::{Bin, Entry, Found, Kept, Key, Subject, fresh};
use cacheability::{Cacheability, Context, OrderedSet, Tag};
use content_rows::Items;
use content_state::{Fragment, State};
use fragment_cache::Bins;
use html_out::Segments;
use site_access::{Account, Shared};
use std::alloc::{AllocError, Global};
use std::num::NonZeroUsize;
use std::sync::Arc;
use tag_counts::Counts;

/// The site with its first node invalidated so often, at most once.
fn site_after(alloc: Global, edits: u64) -> Result<State, AllocError> {
    let mut counts = Counts::new(alloc);
    counts.set(&Tag::Node(1), edits)?;
    site(alloc, counts)
}

/// What an entry says.
fn said(alloc: Global) -> Result<Cacheability, AllocError> {
    let mut said = Cacheability::new(alloc);
    said.add_tag(Tag::Node(1))?;
    said.add_tag(Tag::Rendered)?;
    said.add_context(Context::User)?;
    Ok(said)
}

/// The values of contexts for a user, on a path with a query.
fn values_for(
    alloc: Global,
    state: &State,
    uid: u32,
    path: &[u8],
    query: &[u8],
    contexts: &[Context],
) -> Result<Items<ContextValue>, AllocError> {
    let asked = asked(alloc, path, query)?;
    let account = Account::new(alloc, state, &viewer(uid))?;
    values(alloc, state, &account, &asked, contexts)
}

/// An entry that was made on a state for the member at moment 100, and holds until 160.
fn entry_on(alloc: Global, state: &State) -> Result<Entry, AllocError> {
    let said = said(alloc)?;
    let values = values_for(alloc, state, 2, b"/node/1", b"", said.contexts())?;
    Ok(Entry {
        segments: Segments::new(alloc),
        libraries: Items::none(alloc),
        values: Shared::new(alloc, values)?,
        sum: state.counts().sum(said.tags()),
        cacheability: said,
        made_at: state.number(),
        made_moment: 100,
        last: 160,
        status: None,
    })
}

/// An entry that was made on the site after one edit, for the member at moment 100, and holds until 160.
fn entry(alloc: Global) -> Result<Entry, AllocError> {
    let state = site_after(alloc, 1)?;
    entry_on(alloc, &state)
}

/// Whether an entry is fresh on a state, for a user and at a moment.
fn is_fresh_on(
    alloc: Global,
    state: &State,
    entry: &Entry,
    uid: u32,
    moment: u64,
) -> Result<bool, AllocError> {
    let contexts = entry.cacheability.contexts();
    let values = values_for(alloc, state, uid, b"/node", b"page=1", contexts)?;
    Ok(fresh(state, entry, values.as_slice(), moment))
}

/// Whether that entry is fresh after so many edits, for a user and at a moment.
fn is_fresh(alloc: Global, edits: u64, uid: u32, moment: u64) -> Result<bool, AllocError> {
    let entry = entry(alloc)?;
    let state = site_after(alloc, edits)?;
    is_fresh_on(alloc, &state, &entry, uid, moment)
}

#[test]
fn freshness(rt: HostRuntime) {
    let cases = [
        (1, 2, 100, true),
        (1, 2, 160, true),
        (1, 2, 99, false),
        (1, 2, 161, false),
        (2, 2, 130, false),
        (0, 2, 130, false),
        (1, 1, 130, false),
    ];
    for (edits, uid, moment, wanted) in cases {
        assert!(rt; is_fresh(rt.alloc(), edits, uid, moment) == Ok(wanted));
    }
}

/// The key of a block, whose values are none.
fn key(alloc: Global, block: &[u8]) -> Result<Key, AllocError> {
    Ok(Key {
        subject: Subject::Fragment(Fragment::Block(name(block)?)),
        values: Shared::new(alloc, Items::none(alloc))?,
    })
}

/// The entry, or a redirect.
fn kept(alloc: Global, redirects: bool) -> Result<Kept, AllocError> {
    if redirects {
        let contexts = Arc::new(alloc, OrderedSet::new(alloc))?;
        Ok(Kept::Redirect(contexts))
    } else {
        let entry = Arc::new(alloc, entry(alloc)?)?;
        Ok(Kept::Entry(entry))
    }
}

/// Keeps the entry, or a redirect, for a block.
fn keep(alloc: Global, bins: &mut Bins, block: &[u8], redirects: bool) -> Result<(), AllocError> {
    let key = key(alloc, block)?;
    let kept = kept(alloc, redirects)?;
    bins.keep(Bin::Fragments, key, kept).map_err(|_| AllocError)
}

/// What a bin finds for a block: `e` an entry, `r` a redirect, `-` nothing.
fn look(alloc: Global, bins: &mut Bins, bin: Bin, block: &[u8]) -> Result<u8, AllocError> {
    let key = key(alloc, block)?;
    Ok(match bins.look(bin, &key)? {
        Found::Entry(_) => b'e',
        Found::Redirect(_) => b'r',
        Found::Absent => b'-',
    })
}

/// Bins that have room for so many things each.
fn bins(alloc: Global, room: usize) -> Result<Bins, AllocError> {
    match NonZeroUsize::new(room) {
        Some(room) => Bins::new(alloc, room, room, room),
        None => Err(AllocError),
    }
}

/// Does to bins what a word says, letter by letter: a letter looks for the block of that name, an upper-case one keeps its
/// entry, and one behind `>` its redirect. It adds what was found.
fn run(alloc: Global, bins: &mut Bins, word: &str, found: &mut Vec<u8>) -> Result<(), AllocError> {
    let mut redirects = false;
    for letter in word.as_bytes() {
        match *letter {
            b'>' => redirects = true,
            block if block.is_ascii_uppercase() => {
                keep(alloc, bins, &[block.to_ascii_lowercase()], redirects)?;
                redirects = false;
            }
            block => found.push(look(alloc, bins, Bin::Fragments, &[block])?)?,
        }
    }
    Ok(())
}

/// Whether bins of room for two give this for a word, and drop so many keys.
fn gives(alloc: Global, word: &str, wanted: &str, dropped: u64) -> Result<bool, AllocError> {
    let mut found = Vec::new(alloc);
    let mut bins = bins(alloc, 2)?;
    run(alloc, &mut bins, word, &mut found)?;
    Ok(found.as_slice() == wanted.as_bytes() && bins.dropped() == dropped)
}

#[test]
fn order_of_a_bin(rt: HostRuntime) {
    let cases = [
        ("a", "-", 0),
        ("ABab", "ee", 0),
        ("ABCabc", "-ee", 1),
        ("ABaCabc", "ee-e", 1),
        ("AB>Aab", "re", 0),
        ("AB>ACabc", "r-e", 1),
    ];
    for (word, wanted, dropped) in cases {
        assert!(rt; gives(rt.alloc(), word, wanted, dropped) == Ok(true));
    }
}

/// What is found in another bin, and in its own, where an entry is kept.
fn found_in_both(alloc: Global, bins: &mut Bins) -> Result<(u8, u8), AllocError> {
    keep(alloc, bins, b"a", false)?;
    let elsewhere = look(alloc, bins, Bin::Dynamic, b"a")?;
    let there = look(alloc, bins, Bin::Fragments, b"a")?;
    Ok((elsewhere, there))
}

/// The other bins are as they were.
#[test]
fn bins_by_themselves(rt: HostRuntime) {
    let mut bins = bins(rt.alloc(), 1).expect(&rt, "memory");
    assert!(rt; found_in_both(rt.alloc(), &mut bins) == Ok((b'-', b'e')));
}
