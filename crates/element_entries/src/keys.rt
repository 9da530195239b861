//! Under which keys elements are kept.
ghost use Rattle.std.specs.Prelude.{◌≡◌, IfOk, map};
ghost use Rattle.cache_contexts.specs.Values.{valued};
ghost use Rattle.element_entries.specs.Keys.{visit, required, first_by, key_by};

use crate::finding::same_contexts;
use crate::first::{Declared, first_contexts};
use crate::reader::Reader;
use cache_contexts::{ContextValue, values};
use cache_entries::{Entry, Key, Subject};
use cacheability::Context;
use content_rows::{Duplicate, Items};
use site_access::Shared;
use std::alloc::{AllocError, Global};

/// What is kept, once more. `Err` only where memory is wanting.
pub fn duplicate_subject(alloc: Global, subject: &Subject) -> Result<Subject, AllocError>
    ensures { IfOk result (λ copy. copy ≡ subject.now) }
{
    Ok(match subject {
        Subject::Fragment(fragment) => Subject::Fragment(*fragment),
        Subject::Page(path) => Subject::Page(path.duplicate(alloc)?),
        Subject::Target(target) => Subject::Target(target.duplicate(alloc)?),
    })
}

/// The values that contexts have for a reader, in their order. What the reader's viewer is permitted and granted is shared with its
/// account. `Err` only where memory is wanting.
pub fn values_for(
    alloc: Global,
    reader: &Reader<'_>,
    contexts: &[Context],
) -> Result<Items<ContextValue>, AllocError>
    ensures { IfOk result (λ found. found ≡ map (valued (visit reader.now)) contexts.now) }
{
    values(alloc, reader.state, reader.account, reader.ask, contexts)
}

/// The values that contexts have for a reader, in their order, to be held by several. `Err` only where memory is wanting.
pub fn shared_values(
    alloc: Global,
    reader: &Reader<'_>,
    contexts: &[Context],
) -> Result<Shared<Items<ContextValue>>, AllocError>
    ensures { IfOk result (λ found. found ≡ map (valued (visit reader.now)) contexts.now) }
{
    Shared::new(alloc, values_for(alloc, reader, contexts)?)
}

/// The values of the required contexts for a reader: those that it bears, or found anew.
fn required_values(
    alloc: Global,
    reader: &Reader<'_>,
) -> Result<Shared<Items<ContextValue>>, AllocError>
    ensures { IfOk result (λ found. found ≡ map (valued (visit reader.now)) required) }
{
    match &reader.required_values {
        Some(values) => values.share(),
        None => shared_values(alloc, reader, first_contexts(Declared::Nothing).as_slice()),
    }
}

/// The values of the required contexts and of what is declared, for a reader.
fn first_values(
    alloc: Global,
    reader: &Reader<'_>,
    declared: Declared,
) -> Result<Shared<Items<ContextValue>>, AllocError>
    ensures { IfOk result (λ found. found ≡ map (valued (visit reader.now)) (first_by declared)) }
{
    match declared {
        Declared::Nothing => required_values(alloc, reader),
        Declared::User | Declared::Session => {
            shared_values(alloc, reader, first_contexts(declared).as_slice())
        }
    }
}

/// The values that the contexts of an entry have for a reader, in their order: those that it bears, where the entry varies by the
/// required ones alone.
pub(crate) fn own_values(
    alloc: Global,
    reader: &Reader<'_>,
    contexts: &[Context],
) -> Result<Shared<Items<ContextValue>>, AllocError>
    ensures { IfOk result (λ found. found ≡ map (valued (visit reader.now)) contexts.now) }
{
    if same_contexts(contexts, first_contexts(Declared::Nothing).as_slice()) {
        required_values(alloc, reader)
    } else {
        shared_values(alloc, reader, contexts)
    }
}

/// The first key of what is kept, with the values of the required contexts and of what it declares, for a reader. `Err` only where
/// memory is wanting.
pub fn first_key(
    alloc: Global,
    reader: &Reader<'_>,
    subject: Subject,
    declared: Declared,
) -> Result<Key, AllocError>
    ensures { IfOk result (λ key. key ≡ key_by (visit reader.now) subject (first_by declared)) }
{
    Ok(Key {
        subject,
        values: first_values(alloc, reader, declared)?,
    })
}

/// The key of what is kept, with the values that these contexts have for a reader. `Err` only where memory is wanting.
pub fn key_of(
    alloc: Global,
    reader: &Reader<'_>,
    subject: &Subject,
    contexts: &[Context],
) -> Result<Key, AllocError>
    ensures { IfOk result (λ key. key ≡ key_by (visit reader.now) subject.now contexts.now) }
{
    Ok(Key {
        subject: duplicate_subject(alloc, subject)?,
        values: shared_values(alloc, reader, contexts)?,
    })
}

/// The key of what is kept, with the values that these contexts have for a reader, as `key_of` gives it, beside an entry that has the
/// values of its contexts for the reader: where they are the same, its values are shared and not found again. `Err` only where
/// memory is wanting.
pub fn key_beside(
    alloc: Global,
    reader: &Reader<'_>,
    subject: &Subject,
    contexts: &[Context],
    entry: &Entry,
) -> Result<Key, AllocError>
    requires { entry.now.values ≡ map (valued (visit reader.now)) entry.now.cacheability.contexts }
    ensures { IfOk result (λ key. key ≡ key_by (visit reader.now) subject.now contexts.now) }
{
    Ok(Key {
        subject: duplicate_subject(alloc, subject)?,
        values: values_beside(alloc, reader, contexts, entry)?,
    })
}

/// The values that contexts have for a reader, in their order, beside an entry that has those of its contexts.
fn values_beside(
    alloc: Global,
    reader: &Reader<'_>,
    contexts: &[Context],
    entry: &Entry,
) -> Result<Shared<Items<ContextValue>>, AllocError>
    requires { entry.now.values ≡ map (valued (visit reader.now)) entry.now.cacheability.contexts }
    ensures { IfOk result (λ found. found ≡ map (valued (visit reader.now)) contexts.now) }
{
    if same_contexts(entry.cacheability.contexts(), contexts) {
        entry.values.share()
    } else {
        shared_values(alloc, reader, contexts)
    }
}
