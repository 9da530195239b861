//! Keeping what was built.
ghost use Rattle.std.specs.Prelude.{◌≡◌, IfOk, OnOk, option_map};
ghost use Rattle.std.specs.Arc.{arc_value};
ghost use Rattle.std.specs.Option.{option_copied};
ghost use Rattle.cache_entries.specs.Entries.{IsHere, IsClosed};
ghost use Rattle.cache_entries.specs.Sound.{IsAskedFor};
ghost use Rattle.fragment_cache.specs.Bins.{thing_of};
ghost use Rattle.page_meaning.specs.Meaning.{meaning};
ghost use Rattle.render_canvas.specs.Board.{pieces_of};
ghost use Rattle.site_house.specs.Bins.{MayBeKeptIn};
ghost use Rattle.element_entries.specs.Keys.{visit, declared_by, first_by, key_by};
ghost use Rattle.element_entries.specs.Making.{Bubbles};
ghost use Rattle.kept_pages.specs.Houses.{Steady, Reads, IsMadeFor};
ghost use Rattle.kept_pages.specs.Joins.{IsWhole};
ghost use Rattle.kept_pages.specs.Held.{Shelves, IsTold, first_of, IsLookedAt, Puts, second_in, Offers, Closes};

use crate::joining::{Child, Filled};
use crate::looking::has_second;
use cache_entries::{Bin, Entry, Kept, Key, Subject};
use cacheability::{Context, OrderedSet};
use element_entries::{
    Declared, Reader, declared_by, duplicate_subject, entry_of, first_key, key_beside, may_keep,
    redirect_to,
};
use site_house::House;
use std::alloc::{AllocError, Global};
use std::sync::Arc;

/// The key of something with the values that these contexts have for a reader, beside an entry that was made for the reader.
fn key_by_entry(
    alloc: Global,
    reader: &Reader<'_>,
    subject: &Subject,
    contexts: &[Context],
    entry: &Entry,
) -> Result<Key, AllocError>
    requires { IsMadeFor reader.now subject.now entry.now }
    ensures { IfOk result (λ key. key ≡ key_by (visit reader.now) subject.now contexts.now) }
{
    key_beside(alloc, reader, subject, contexts, entry)
}

/// The first key of something, from the one that was looked at last.
fn first_again(
    alloc: Global,
    reader: &Reader<'_>,
    key: Key,
    declared: Declared,
    told: Option<&OrderedSet<Context>>,
) -> Result<Key, AllocError>
    requires looked { IsLookedAt reader.now key (option_copied told) }
    requires declared { declared ≡ declared_by reader.now.state.rows key.subject }
    ensures { IfOk result (λ first. first ≡ first_of reader.now key.subject) }
{
    match told {
        None => Ok(key),
        Some(_) => {
            let subject = duplicate_subject(alloc, &key.subject)?;
            first_key(alloc, reader, subject, declared)
        }
    }
}

/// The contexts of the second key of something in a bin, where it has one there.
fn second_in(
    alloc: Global,
    bin: Bin,
    declared: Declared,
    told: Option<&OrderedSet<Context>>,
    contexts: &OrderedSet<Context>,
) -> Result<Option<Arc<OrderedSet<Context>>>, AllocError>
    ensures { IfOk result (λ second. option_map arc_value second ≡ second_in bin (first_by declared) (option_copied told.entry) contexts.now) }
{
    if has_second(bin) {
        redirect_to(alloc, declared, told, contexts)
    } else {
        Ok(None)
    }
}

/// Keeps something under a key, or lets it go where the house has no memory for it.
fn offer<H: House>(alloc: Global, house: &mut H, bin: Bin, key: Key, kept: Kept)
    requires { MayBeKeptIn (H.sees house.old) key kept }
    ensures steady { Steady (H.sees house.old) (H.sees house.new) }
    ensures told { (shelves : Shelves) → IsTold (H.sees house.old) shelves → Puts shelves bin key (thing_of kept) (H.sees house.new) }
{
    let _kept = house.keep(alloc, bin, key, kept);
}

/// Keeps an entry: under its first key, or, where it varies by more in a bin that has second keys, under its second one, behind a
/// redirect that takes over the contexts that one told. The key is the one that was looked at last.
fn keep<H: House>(
    alloc: Global,
    house: &mut H,
    reader: &Reader<'_>,
    bin: Bin,
    key: Key,
    entry: &Arc<Entry>,
    told: Option<&OrderedSet<Context>>,
) -> Result<(), AllocError>
    requires reads { Reads (H.sees house.old) reader.now }
    requires looked { IsLookedAt reader.now key (option_copied told) }
    requires made { IsMadeFor reader.now key.subject (arc_value entry.now) }
    ensures steady { Steady (H.sees house.old) (H.sees house.new) }
    ensures told { OnOk result ((shelves : Shelves) → IsTold (H.sees house.old) shelves → Offers reader.now shelves bin key.subject (option_copied told.entry) (arc_value entry.now) (H.sees house.new)) }
{
    let shared = Arc::try_clone(entry)?;
    let declared = declared_by(reader.state(), &key.subject);
    let behind = second_in(alloc, bin, declared, told, &entry.cacheability.contexts)?;
    let first = first_again(alloc, reader, key, declared, told)?;
    match behind {
        None => offer(alloc, house, bin, first, Kept::Entry(shared)),
        Some(contexts) => {
            let second = key_by_entry(alloc, reader, &first.subject, contexts.as_slice(), entry)?;
            offer(alloc, house, bin, first, Kept::Redirect(contexts));
            offer(alloc, house, bin, second, Kept::Entry(shared));
        }
    }
    Ok(())
}

/// Keeps an entry where it may be kept.
pub fn keep_if<H: House>(
    alloc: Global,
    house: &mut H,
    reader: &Reader<'_>,
    bin: Bin,
    key: Key,
    entry: &Arc<Entry>,
    told: Option<&OrderedSet<Context>>,
) -> Result<(), AllocError>
    requires reads { Reads (H.sees house.old) reader.now }
    requires looked { IsLookedAt reader.now key (option_copied told) }
    requires made { IsMadeFor reader.now key.subject (arc_value entry.now) }
    ensures steady { Steady (H.sees house.old) (H.sees house.new) }
    ensures told { OnOk result ((shelves : Shelves) → IsTold (H.sees house.old) shelves → Closes reader.now shelves bin key.subject (option_copied told.entry) (arc_value entry.now) (H.sees house.new)) }
{
    if may_keep(bin, &entry.cacheability) {
        keep(alloc, house, reader, bin, key, entry, told)
    } else {
        Ok(())
    }
}

/// An entry of what was put together, which is kept where it may be. The key is the one that was looked at last.
pub fn keep_filled<H: House>(
    alloc: Global,
    house: &mut H,
    reader: &Reader<'_>,
    bin: Bin,
    key: Key,
    filled: Filled,
    told: Option<&OrderedSet<Context>>,
) -> Result<Child, AllocError>
    requires reads { Reads (H.sees house.old) reader.now }
    requires looked { IsLookedAt reader.now key (option_copied told) }
    requires whole { IsWhole (meaning key.subject) (visit reader.now) filled.joined }
    requires closed { IsClosed key.subject (pieces_of filled.joined.segments) }
    requires asked { IsAskedFor key.subject reader.now.viewer reader.now.ask }
    ensures steady { Steady (H.sees house.old) (H.sees house.new) }
    ensures here { IfOk result (λ child. IsHere meaning key.subject (visit reader.now) (arc_value child.entry)) }
    ensures says { IfOk result (λ child. Bubbles (visit reader.now) filled.joined.cacheability (arc_value child.entry).cacheability) }
    ensures built { IfOk result (λ child. child.built ≡ filled.built) }
    ensures told { IfOk result (λ child. (shelves : Shelves) → IsTold (H.sees house.old) shelves → Closes reader.now shelves bin key.subject (option_copied told.entry) (arc_value child.entry) (H.sees house.new)) }
{
    let Filled { joined, built } = filled;
    let entry = Arc::new(alloc, entry_of(alloc, reader, joined)?)?;
    keep_if(alloc, house, reader, bin, key, &entry, told)?;
    Ok(Child { entry, built })
}
