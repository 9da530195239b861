//! What is built and looked for.

use crate::rehearsals::asks::{decoded, name};
use crate::rehearsals::fault::Fault;
use cache_entries::{Bin, Subject};
use case_files::number;
use content_state::{Fragment, Mode, Placing};
use render_array::Element;
use std::alloc::{AllocError, Global};

/// The number of 32 bits that these digits are.
pub fn small(digits: &[u8]) -> Result<u32, Fault> {
    match number(digits).and_then(|number| u32::try_from(number).ok()) {
        Some(number) => Ok(number),
        None => Err(Fault::Number),
    }
}

/// The element of a kind and an id.
pub fn element(kind: &[u8], id: &[u8]) -> Result<Element, Fault> {
    Ok(match kind {
        b"page" => Element::Page,
        b"block" => Element::Fragment(Fragment::Block(name(id)?)),
        b"menu" => Element::Fragment(Fragment::Menu(name(id)?)),
        b"listing" => Element::Fragment(Fragment::Listing(name(id)?, Placing::OnPage)),
        b"node" => Element::Fragment(Fragment::Node(small(id)?, Mode::Full)),
        b"teaser" => Element::Fragment(Fragment::Node(small(id)?, Mode::Teaser)),
        _ => return Err(Fault::Element),
    })
}

/// The target that an element is asked for by: of a page its own.
pub fn target(element: Element, id: &[u8]) -> &[u8] {
    match element {
        Element::Page => id,
        Element::Fragment(_) => b"/",
    }
}

/// What is kept of an element.
pub fn subject(alloc: Global, element: Element, id: &[u8]) -> Result<Subject, AllocError> {
    match element {
        Element::Page => Ok(Subject::Page(decoded(alloc, id)?)),
        Element::Fragment(fragment) => Ok(Subject::Fragment(fragment)),
    }
}

/// The bin that an element is kept in.
pub fn bin(element: Element) -> Bin {
    match element {
        Element::Page => Bin::Dynamic,
        Element::Fragment(_) => Bin::Fragments,
    }
}
