//! What is built for pages.

use crate::site::site;
use content_rows::Text;
use content_state::{Ask, State, Viewer};
use render_array::{Element, build};
use renderer::page_on;
use std::alloc::{AllocError, Global};

fn sendable_and_shared<T: Send + Sync>(_: &T) {}

/// A request for a path.
fn asked(alloc: Global, path: &str) -> Result<Ask, AllocError> {
    let target = Text::copied(alloc, path.as_bytes())?;
    let path = Text::copied(alloc, path.as_bytes())?;
    Ok(Ask {
        target,
        path,
        query: Text::from_vec(Vec::new(alloc)),
        cookie: None,
    })
}

/// Whether a visitor's element of the page on a path has this status, and holds for good.
fn is_element(alloc: Global, state: &State, path: &str, status: u16) -> Result<bool, AllocError> {
    let viewer = Viewer {
        uid: 0,
        session: None,
    };
    let ask = asked(alloc, path)?;
    let element = build(alloc, state, &viewer, &ask, 1_000, &Element::Page)?;
    drop(ask);
    sendable_and_shared(&element);
    let right = element.status == Some(status) && element.last == u64::MAX;
    drop(element);
    Ok(right)
}

/// Whether the page on a path has this status, and so many elements are built for it.
fn is_page(
    alloc: Global,
    state: &State,
    path: &str,
    status: u16,
    built: u64,
) -> Result<bool, AllocError> {
    let ask = asked(alloc, path)?;
    let page = page_on(alloc, state, &ask, 1_000)?;
    drop(ask);
    let right = page.status == status && page.built == built;
    drop(page);
    Ok(right)
}

/// The page itself, and on it a node with its embedded ones, a block with its menu, or a listing with its teasers.
#[test]
fn elements_of_pages(rt: HostRuntime) {
    let state = site(rt.alloc(), "/node").expect(&rt, "memory");
    let pages: [(&str, u16, u64); 5] = [
        ("/node/1", 200, 4),
        ("/node/2", 200, 5),
        ("/node/3", 403, 1),
        ("/node/9", 404, 1),
        ("/node", 200, 3),
    ];
    for (path, status, built) in pages {
        assert!(rt; is_element(rt.alloc(), &state, path, status) == Ok(true));
        assert!(rt; is_page(rt.alloc(), &state, path, status, built) == Ok(true));
    }
}
