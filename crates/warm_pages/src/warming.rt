//! Rendering pages for nobody's session, one after the other.
ghost use Rattle.std.specs.Prelude.{◌≡◌, IfOk, length, min, take};
ghost use Rattle.site_house.specs.House.{Moves, Stays};
ghost use Rattle.site_house.specs.Bins.{IsSeenIn};
ghost use Rattle.kept_pages.specs.Houses.{Steady};
ghost use Rattle.kept_pages.specs.Held.{Shelves, IsTold};
ghost use Rattle.warm_pages.specs.Asked.{reader_of};
ghost use Rattle.warm_pages.specs.Warm.{Renders, Warms, OnSnapshot};

use crate::asking::asked;
use content_rows::Text;
use content_state::{State, Viewer};
use kept_pages::render_page;
use site_house::House;
use std::alloc::{AllocError, Global};

/// The most pages that one call renders: those of the first targets.
pub const MOST_PAGES: usize = 1_024;

/// Renders the page of a target for nobody's session, on a state that the house has seen.
fn warm_page<H: House>(
    alloc: Global,
    house: &mut H,
    state: &State,
    target: &Text,
    now: u64,
) -> Result<(), AllocError>
    requires { IsSeenIn (H.sees house.old) state.now }
    ensures steady { Steady (H.sees house.old) (H.sees house.new) }
    ensures renders { IfOk result (λ _. (shelves : Shelves) → IsTold (H.sees house.old) shelves → Renders (reader_of state.now now target.now) shelves (H.sees house.new)) }
{
    let ask = asked(alloc, target)?;
    let nobody = Viewer {
        uid: 0,
        session: None,
    };
    render_page(alloc, house, state, &nobody, &ask, now)?;
    Ok(())
}

/// Renders the pages of targets for nobody's session, one after the other, on a state that the house has seen.
fn warm_all<H: House>(
    alloc: Global,
    house: &mut H,
    state: &State,
    targets: &[Text],
    now: u64,
) -> Result<(), AllocError>
    requires { IsSeenIn (H.sees house.old) state.now }
    ensures steady { Steady (H.sees house.old) (H.sees house.new) }
    ensures warms { IfOk result (λ _. (shelves : Shelves) → IsTold (H.sees house.old) shelves → Warms state.now now targets.now shelves (H.sees house.new)) }
{
    for target in targets {
        warm_page(alloc, house, state, target, now)?;
    }
    Ok(())
}

/// Renders the pages of the first 1,024 of these targets for nobody's session, so that each that may be kept is kept before
/// anybody asks for it, and answers how many those were. All are rendered on one state, the newest as the call begins, at one
/// moment, in seconds since 1970. A page that is kept already, and fresh, is left as it is.
///
/// Where the house tells what is kept, and nothing of it was lost meanwhile (a full bin drops what was used least lately), the
/// page of each of these targets is held afterwards, if it may be kept. `Err` only where memory is wanting: the pages before
/// that one were rendered.
/// <https://www.drupal.org/docs/8/administering-a-drupal-8-site/internal-page-cache>
pub fn warm<H: House>(
    alloc: Global,
    house: &mut H,
    targets: &[Text],
    now: u64,
) -> Result<u64, AllocError>
    ensures moves { Moves (H.sees house.old) (H.sees house.new) }
    ensures stays { Stays (H.sees house.old) (H.sees house.new) }
    ensures count { IfOk result (λ count. count ≡ min (length targets.now) MOST_PAGES) }
    ensures held { IfOk result (λ _. OnSnapshot (H.sees house.old) (H.sees house.new) (λ state. (shelves : Shelves) → IsTold (H.sees house.old) shelves → Warms state now (take MOST_PAGES targets.now) shelves (H.sees house.new))) }
{
    let newest = house.snapshot(alloc)?;
    let state: &State = &newest;
    let count = targets.len().min(MOST_PAGES);
    warm_all(alloc, house, state, targets.split_at(count).0, now)?;
    Ok(count as u64)
}
