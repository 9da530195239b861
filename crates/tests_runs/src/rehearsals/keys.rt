//! The keys that are looked for.

use crate::rehearsals::fault::Fault;
use crate::rehearsals::subjects::subject;
use cache_contexts::{ContextValue, values};
use cache_entries::Key;
use cacheability::Context;
use case_files::word_list;
use content_rows::Items;
use content_state::{Ask, State};
use render_array::Element;
use site_access::{Account, Shared, viewer_of};
use std::alloc::{AllocError, Global};

/// The contexts of each first key.
const FIRST: [Context; 3] = [Context::Language, Context::Theme, Context::UserPermissions];

/// The context of a text.
fn context(text: &[u8]) -> Result<Context, Fault> {
    match text {
        b"languages:language_interface" => Ok(Context::Language),
        b"theme" => Ok(Context::Theme),
        b"user" => Ok(Context::User),
        b"user.permissions" => Ok(Context::UserPermissions),
        b"user.node_grants:view" => Ok(Context::NodeGrantsView),
        b"session" => Ok(Context::Session),
        _ => Err(Fault::Context),
    }
}

/// The contexts of a key: those of each first one, or those that are named.
fn contexts(alloc: Global, texts: &[u8]) -> Result<Vec<Context>, Fault> {
    let mut contexts = Vec::new(alloc);
    for text in &word_list(alloc, texts)? {
        contexts.push(context(text)?)?;
    }
    if contexts.is_empty() {
        contexts.extend_from_slice(&FIRST)?;
    }
    Ok(contexts)
}

/// The values that contexts have for whom asks.
fn values_of(
    alloc: Global,
    state: &State,
    ask: &Ask,
    now: u64,
    contexts: &[Context],
) -> Result<Shared<Items<ContextValue>>, AllocError> {
    let viewer = viewer_of(state, ask, now);
    let account = Account::new(alloc, state, &viewer)?;
    let values = values(alloc, state, &account, ask, contexts)?;
    Shared::new(alloc, values)
}

/// The key of an element, with the values that the named contexts have for whom asks.
pub fn key(
    alloc: Global,
    state: &State,
    element: Element,
    id: &[u8],
    ask: &Ask,
    now: u64,
    texts: &[u8],
) -> Result<Key, Fault> {
    let contexts = contexts(alloc, texts)?;
    let values = values_of(alloc, state, ask, now, contexts.as_slice())?;
    match subject(alloc, element, id) {
        Ok(subject) => Ok(Key { subject, values }),
        Err(_) => Err(Fault::OutOfMemory),
    }
}
