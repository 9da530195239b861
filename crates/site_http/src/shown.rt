//! The page of a request on a state.
ghost use Rattle.std.specs.Prelude.{◌≡◌, ◌≤◌, IfOk, IsTrue, length, min};
ghost use Rattle.content_state.specs.Ask.{IsAsk};
ghost use Rattle.content_state.specs.Viewer.{viewer_of as named_viewer};
ghost use Rattle.cache_contexts.specs.Values.{visit_on};
ghost use Rattle.http_heads.specs.Reply.{is_reply_status};
ghost use Rattle.render_array.specs.Shown.{IsPage, is_page_status, page_count};
ghost use Rattle.site_house.specs.House.{Moves, Stays};
ghost use Rattle.site_house.specs.Bins.{IsSeenIn};
ghost use Rattle.kept_pages.specs.Lasting.{Lasts};
ghost use Rattle.kept_pages.specs.Needed.{OfRequest};
ghost use Rattle.kept_pages.specs.Held.{Tells};
ghost use Rattle.site_http.specs.Kept.{Needing};
ghost use Rattle.site_http.specs.Recent.{AreRecent};
ghost use Rattle.site_http.specs.Reply.{IsPutTogether};

use crate::recent::RecentReplies;
use content_state::{Ask, State, Viewer};
use kept_pages::{Page, render_page, render_page_for};
use site_access::viewer_of;
use site_house::House;
use std::alloc::{AllocError, Global};

/// The page that is asked for, on a state that the house has seen, at a moment; its status is one of replies. What is kept
/// of it, and fresh on that state, is shown as it was kept, and the rest is built.
pub fn shown_page<H: House>(
    alloc: Global,
    house: &mut H,
    recent: &mut RecentReplies,
    state: &State,
    ask: &Ask,
    now: u64,
) -> Result<Page, AllocError>
    requires seen { IsSeenIn (H.sees house.old) state.now }
    requires right { IsAsk ask.now }
    requires recent { AreRecent (H.sees house.old) recent.old }
    ensures moves { Moves (H.sees house.old) (H.sees house.new) }
    ensures stays { Stays (H.sees house.old) (H.sees house.new) }
    ensures page { IfOk result (λ p. IsPage state.now.rows ask.now now p.status p.parts) }
    ensures length { IfOk result (λ p. p.length ≡ length p.parts) }
    ensures status { IfOk result (λ p. IsTrue (is_reply_status p.status)) }
    ensures built_for { IfOk result (λ p. Needing (H.sees house.old) (H.sees house.new) (λ needs. IsPutTogether state.now ask.now now p.built needs)) }
    ensures at_most { IfOk result (λ p. p.built ≤ min (page_count state.now.rows ask.now now) 18446744073709551615) }
    ensures lasts { IfOk result (λ p. Lasts state.now ask.now now p.last p.status p.parts) }
    ensures recent { AreRecent (H.sees house.new) recent.new }
{
    let viewer = viewer_of(state, ask, now);
    let page = page_for(alloc, house, recent, state, &viewer, ask, now)?;
    Ok(page)
}

/// The page that is asked for, for the viewer that the cookie names. Nobody is met once on a state.
fn page_for<H: House>(
    alloc: Global,
    house: &mut H,
    recent: &mut RecentReplies,
    state: &State,
    viewer: &Viewer,
    ask: &Ask,
    now: u64,
) -> Result<Page, AllocError>
    requires viewer { viewer.now ≡ named_viewer state.now.rows ask.now.cookie now }
    requires seen { IsSeenIn (H.sees house.old) state.now }
    requires right { IsAsk ask.now }
    requires recent { AreRecent (H.sees house.old) recent.old }
    ensures moves { Moves (H.sees house.old) (H.sees house.new) }
    ensures stays { Stays (H.sees house.old) (H.sees house.new) }
    ensures page { IfOk result (λ p. IsPage state.now.rows ask.now now p.status p.parts) }
    ensures length { IfOk result (λ p. p.length ≡ length p.parts) }
    ensures status { IfOk result (λ p. IsTrue (is_page_status p.status)) }
    ensures built { IfOk result (λ p. Tells (record { state = state.now; viewer = viewer.now; ask = ask.now; moment = now }) (OfRequest (visit_on state.now viewer.now ask.now now)) (H.sees house.old) (H.sees house.new) 0 p.built) }
    ensures at_most { IfOk result (λ p. p.built ≤ min (page_count state.now.rows ask.now now) 18446744073709551615) }
    ensures lasts { IfOk result (λ p. Lasts state.now ask.now now p.last p.status p.parts) }
    ensures recent { AreRecent (H.sees house.new) recent.new }
{
    if viewer.session.is_some() {
        return render_page(alloc, house, state, viewer, ask, now);
    }
    recent.meet(alloc, state, ask)?;
    match recent.nobody(state.number()) {
        Some(standing) => render_page_for(alloc, house, state, standing, ask, now),
        None => render_page(alloc, house, state, viewer, ask, now),
    }
}
