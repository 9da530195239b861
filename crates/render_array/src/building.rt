//! Building an element.
ghost use Rattle.std.specs.Prelude.{IfOk};
ghost use Rattle.site_access.specs.Account.{IsAccountOf};
ghost use Rattle.render_canvas.specs.Canvas.{Renders};
ghost use Rattle.render_array.specs.Built.{fragment_shown, plan_of, Builds};

use crate::blocks::block_shown;
use crate::element::Element;
use crate::listings::{listing_shown, term_listing_shown};
use crate::menus::menu_shown;
use crate::nodes::node_shown;
use crate::pages::page;
use content_state::{Ask, Fragment, State, Viewer};
use render_canvas::{Built, Canvas};
use site_access::Account;
use std::alloc::{AllocError, Global};

/// Builds an element for a viewer who asks for something at a moment, in seconds since 1970, and leaves the places of its
/// own elements open. What is built shows what the element's plan shows, attaches its libraries, and depends on just the
/// tags and contexts of all that was read, where access was denied too. `Err` only where memory is wanting.
/// <https://www.drupal.org/docs/drupal-apis/render-api/cacheability-of-render-arrays>
pub fn build(
    alloc: Global,
    state: &State,
    viewer: &Viewer,
    ask: &Ask,
    now: u64,
    element: &Element,
) -> Result<Built, AllocError>
    ensures { IfOk result (λ b. Builds (plan_of ask.now.path element.now) (record { rows = state.now.rows; viewer = viewer.now; ask = ask.now; moment = now }) b) }
{
    let account = Account::new(alloc, state, viewer)?;
    build_for(alloc, state, &account, ask, now, element)
}

/// Builds an element as `build` does, for the viewer of an account on the state, which is made once for all that is shown.
pub fn build_for(
    alloc: Global,
    state: &State,
    account: &Account,
    ask: &Ask,
    now: u64,
    element: &Element,
) -> Result<Built, AllocError>
    requires { IsAccountOf state.now.rows account.now.viewer account.now }
    ensures { IfOk result (λ b. Builds (plan_of ask.now.path element.now) (record { rows = state.now.rows; viewer = account.now.viewer; ask = ask.now; moment = now }) b) }
{
    let mut canvas = Canvas::new(alloc, state, account, ask, now);
    let status = write_element(&mut canvas, ask, element);
    canvas.finish(status)
}

/// Writes an element, and gives the status of its page where it is one.
fn write_element(canvas: &mut Canvas, ask: &Ask, element: &Element) -> Option<u16>
    ensures { Renders (plan_of ask.now.path element.now) canvas.old result canvas.new }
{
    match element {
        Element::Page => Some(page(canvas, ask.path.as_slice())),
        Element::Fragment(fragment) => {
            fragment_shown(canvas, *fragment);
            None
        }
    }
}

/// A fragment; nothing where what it shows isn't there or may not be viewed.
fn fragment_shown(canvas: &mut Canvas, fragment: Fragment)
    ensures { Renders (fragment_shown fragment) canvas.old tt canvas.new }
{
    match fragment {
        Fragment::Block(name) => block_shown(canvas, name),
        Fragment::Menu(name) => menu_shown(canvas, name),
        Fragment::Listing(name, placing) => listing_shown(canvas, name, placing),
        Fragment::TermListing(t) => term_listing_shown(canvas, t),
        Fragment::Node(n, mode) => node_shown(canvas, n, mode),
    }
}
