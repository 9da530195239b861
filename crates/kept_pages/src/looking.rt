//! Looking for what is kept.
ghost use Rattle.std.specs.Prelude.{◌≡◌, IfOk, OnOk, IfSome, IsTrue, None, map, option_map};
ghost use Rattle.std.specs.Arc.{arc_value};
ghost use Rattle.cache_contexts.specs.Values.{valued};
ghost use Rattle.cache_entries.specs.declared.key.Subject.TheVariants as subject_is;
ghost use Rattle.cache_entries.specs.declared.kept.Bin.TheVariants as bin_is;
ghost use Rattle.cache_entries.specs.Entries.{HasSumOfNumber, IsFresh, IsHere};
ghost use Rattle.page_meaning.specs.Meaning.{meaning};
ghost use Rattle.element_entries.specs.Keys.{visit, required, declared_by, first_by, key_by};
ghost use Rattle.kept_pages.specs.Houses.{Steady, Reads, IsCurrent};
ghost use Rattle.kept_pages.specs.Held.{Shelves, IsTold, has_second, looked_by, SeenOnce, SeenIn};

use cache_entries::{Bin, Entry, Found, Key};
use cacheability::{Context, OrderedSet};
use element_entries::{Declared, Reader, first_contexts, if_fresh, shared_values};
use site_house::House;
use std::alloc::{AllocError, Global};
use std::sync::Arc;

/// What was seen: an entry that may be shown, or the contexts that a redirect told.
#[derive(Drop)]
pub struct Seen {
    pub entry: Option<Arc<Entry>>,
    pub told: Option<Arc<OrderedSet<Context>>>,
}

/// What is kept under one key, the one with the values of these contexts, where it may be shown, or the contexts of a redirect.
fn look_once<H: House>(
    alloc: Global,
    house: &mut H,
    reader: &Reader<'_>,
    bin: Bin,
    key: &Key,
    contexts: &[Context],
) -> Result<Seen, AllocError>
    requires reads { Reads (H.sees house.old) reader.now }
    requires valued { key.now.values ≡ map (valued (visit reader.now)) contexts.now }
    ensures steady { Steady (H.sees house.old) (H.sees house.new) }
    ensures here { IfOk result (λ seen. IfSome seen.entry (λ e. IsHere meaning key.now.subject (visit reader.now) (arc_value e))) }
    ensures told { IfOk result (λ seen. (shelves : Shelves) → IsTold (H.sees house.old) shelves → SeenOnce reader.now shelves bin key.now seen (H.sees house.new)) }
{
    match house.look(alloc, bin, key)? {
        Found::Entry(entry) => Ok(Seen {
            entry: if_fresh(alloc, reader, entry, contexts, key.values.get().as_slice())?,
            told: None,
        }),
        Found::Redirect(contexts) => Ok(Seen {
            entry: None,
            told: Some(contexts),
        }),
        Found::Absent => Ok(Seen {
            entry: None,
            told: None,
        }),
    }
}

/// What is kept of something, where it may be shown: at its first key, by what it declares, or, in a bin that has second keys, at the
/// second one that a redirect there gives. The key is lent, and is then the one that was looked at last: a path or a target is copied once, and what is built is kept under that key.
pub fn look<H: House>(
    alloc: Global,
    house: &mut H,
    reader: &Reader<'_>,
    bin: Bin,
    key: &mut Key,
    declared: Declared,
) -> Result<Seen, AllocError>
    requires reads { Reads (H.sees house.old) reader.now }
    requires is_first { key.old ≡ key_by (visit reader.now) key.old.subject (first_by declared) }
    requires declared { declared ≡ declared_by reader.now.state.rows key.old.subject }
    ensures steady { Steady (H.sees house.old) (H.sees house.new) }
    ensures here { IfOk result (λ seen. IfSome seen.entry (λ e. IsHere meaning key.old.subject (visit reader.now) (arc_value e))) }
    ensures told { IfOk result (λ seen. (shelves : Shelves) → IsTold (H.sees house.old) shelves → SeenIn reader.now shelves bin key.old.subject seen (H.sees house.new)) }
    ensures looked { IfOk result (λ seen. key.new ≡ key_by (visit reader.now) key.old.subject (looked_by (first_by declared) (option_map arc_value seen.told))) }
{
    let first = first_contexts(declared);
    let contexts = first.as_slice();
    let Seen { entry, told } = look_once(alloc, house, reader, bin, key, contexts)?;
    if !has_second(bin) {
        return Ok(Seen { entry, told: None });
    }
    match told {
        None => Ok(Seen { entry, told: None }),
        Some(told) => {
            turn_to(alloc, reader, key, told.as_slice())?;
            let behind = look_once(alloc, house, reader, bin, key, told.as_slice())?;
            Ok(Seen {
                entry: behind.entry,
                told: Some(told),
            })
        }
    }
}

/// What is kept of the whole page of the target that is asked for, where it may be shown. It stands at its first key alone, whose
/// values are those of the required contexts.
pub fn look_shared<H: House>(
    alloc: Global,
    house: &mut H,
    reader: &Reader<'_>,
    key: &Key,
) -> Result<Seen, AllocError>
    requires reads { Reads (H.sees house.old) reader.now }
    requires is_first { key.now ≡ key_by (visit reader.now) (subject_is.Target reader.now.ask.target) required }
    ensures steady { Steady (H.sees house.old) (H.sees house.new) }
    ensures here { IfOk result (λ seen. IfSome seen.entry (λ e. IsHere meaning (subject_is.Target reader.now.ask.target) (visit reader.now) (arc_value e))) }
    ensures told { IfOk result (λ seen. (shelves : Shelves) → IsTold (H.sees house.old) shelves → SeenIn reader.now shelves bin_is.Anonymous (subject_is.Target reader.now.ask.target) seen (H.sees house.new)) }
    ensures nowhere_else { IfOk result (λ seen. seen.told ≡ None) }
{
    match house.look(alloc, Bin::Anonymous, key)? {
        Found::Entry(entry) => Ok(Seen {
            entry: if_current(alloc, reader, entry, key)?,
            told: None,
        }),
        Found::Redirect(_) => Ok(Seen {
            entry: None,
            told: None,
        }),
        Found::Absent => Ok(Seen {
            entry: None,
            told: None,
        }),
    }
}

/// The page of a target, found under its key, where it is fresh for the reader: where it was made on the state that is read, nobody
/// asks, and it isn't too early or too late to show it, nothing is compared.
fn if_current(
    alloc: Global,
    reader: &Reader<'_>,
    entry: Arc<Entry>,
    key: &Key,
) -> Result<Option<Arc<Entry>>, AllocError>
    requires valued { key.now.values ≡ map (valued (visit reader.now)) required }
    requires of_log { HasSumOfNumber reader.now.state (arc_value entry) }
    requires current { IsCurrent reader.now (arc_value entry) → IsFresh reader.now.state reader.now.viewer reader.now.ask reader.now.moment (arc_value entry) }
    ensures fresh { IfOk result (λ found. IfSome found (λ e. (arc_value e ≡ arc_value entry) × IsFresh reader.now.state reader.now.viewer reader.now.ask reader.now.moment (arc_value e))) }
    ensures stale { IfOk result (λ found. found ≡ None → IsFresh reader.now.state reader.now.viewer reader.now.ask reader.now.moment (arc_value entry) → ⊥) }
{
    if is_current(reader, &entry) {
        return Ok(Some(entry));
    }
    let contexts = first_contexts(Declared::Nothing);
    if_fresh(
        alloc,
        reader,
        entry,
        contexts.as_slice(),
        key.values.get().as_slice(),
    )
}

/// Whether nobody asks, on the state of the number that an entry was made on, and it isn't too early or too late to show it.
fn is_current(reader: &Reader<'_>, entry: &Entry) -> bool
    ensures { IsTrue result → IsCurrent reader.now entry.now }
{
    let viewer = reader.viewer();
    viewer.uid == 0
        && viewer.session.is_none()
        && entry.made_at == reader.state().number()
        && entry.made_moment <= reader.moment()
        && reader.moment() <= entry.last
}

/// Whether what varies by more than its first contexts stands at a second key in this bin. The page of a target stands at its first
/// key alone: for those who ask for that target without a session, what it varies by has one value until it is stale.
pub fn has_second(bin: Bin) -> bool
    ensures { result ≡ has_second bin }
{
    match bin {
        Bin::Fragments | Bin::Dynamic => true,
        Bin::Anonymous => false,
    }
}

/// Turns a key into the one of the same subject with the values of these contexts.
fn turn_to(
    alloc: Global,
    reader: &Reader<'_>,
    key: &mut Key,
    contexts: &[Context],
) -> Result<(), AllocError>
    ensures { OnOk result (key.new ≡ key_by (visit reader.now) key.old.subject contexts.now) }
{
    key.values = shared_values(alloc, reader, contexts)?;
    Ok(())
}
