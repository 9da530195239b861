//! The page of a request.
ghost use Rattle.std.specs.Prelude.{◌≡◌, IfOk, IsTrue, min};
ghost use Rattle.content_state.specs.Viewer.{viewer_of as named_viewer};
ghost use Rattle.render_array.specs.Shown.{IsPage, is_page_status, page_count};

use crate::assembling::assembled;
use crate::filled::fill;
use content_state::{Ask, State, Viewer};
use render_array::Element;
use site_access::viewer_of;
use std::alloc::{AllocError, Global};

/// The page of a request: the status of its reply (RFC 9110, section 15), its body, and how many elements were built for
/// it, up to the greatest u64.
#[derive(Drop)]
pub struct Page {
    pub status: u16,
    pub body: Vec<u8>,
    pub built: u64,
}

/// The page of a request on a state, for the viewer that its cookie names at the moment, in seconds since 1970, as it is
/// without anything that is kept: the page is built, and each element that stands in one of its places. Its status is 200,
/// or 403 where it may not be viewed, or 404 where its path leads nowhere. `Err` only where memory is wanting.
/// <https://www.drupal.org/docs/drupal-apis/render-api/the-drupal-8-render-pipeline>
pub fn page_on(alloc: Global, state: &State, ask: &Ask, now: u64) -> Result<Page, AllocError>
    ensures page { IfOk result (λ p. IsPage state.now.rows ask.now now p.status p.body.items) }
    ensures status { IfOk result (λ p. IsTrue (is_page_status p.status)) }
    ensures built { IfOk result (λ p. p.built ≡ min (page_count state.now.rows ask.now now) 18446744073709551615) }
{
    let viewer = viewer_of(state, ask, now);
    page_of(alloc, state, &viewer, ask, now)
}

/// The page of a request on a state.
fn page_of(
    alloc: Global,
    state: &State,
    viewer: &Viewer,
    ask: &Ask,
    now: u64,
) -> Result<Page, AllocError>
    requires { viewer.now ≡ named_viewer state.now.rows ask.now.cookie now }
    ensures page { IfOk result (λ p. IsPage state.now.rows ask.now now p.status p.body.items) }
    ensures status { IfOk result (λ p. IsTrue (is_page_status p.status)) }
    ensures built { IfOk result (λ p. p.built ≡ min (page_count state.now.rows ask.now now) 18446744073709551615) }
{
    let page = fill(alloc, state, viewer, ask, now, Element::Page)?;
    let body = assembled(alloc, page.segments.parts(), page.libraries.as_slice())?;
    match page.status {
        Some(status) => Ok(Page {
            status,
            body,
            built: page.built,
        }),
        None => unreachable!(),
    }
}
