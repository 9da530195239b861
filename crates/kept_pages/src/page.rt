//! The page of a request.
ghost use Rattle.std.specs.Prelude.{◌≡◌, ◌≤◌, IfOk, IsTrue, None, length, min};
ghost use Rattle.std.specs.Option.{option_copied};
ghost use Rattle.content_state.specs.Ask.{IsAsk};
ghost use Rattle.content_state.specs.Met.{met_nothing};
ghost use Rattle.content_state.specs.Viewer.{viewer_of as named_viewer};
ghost use Rattle.cache_contexts.specs.Values.{visit_on};
ghost use Rattle.cache_entries.specs.declared.entry.Entry.{Entry};
ghost use Rattle.cache_entries.specs.declared.key.Subject.TheVariants as subject_is;
ghost use Rattle.cache_entries.specs.declared.kept.Bin.TheVariants as bin_is;
ghost use Rattle.render_canvas.specs.Board.{pieces_of};
ghost use Rattle.render_array.specs.Shown.{IsPage, is_page_status, page_count};
ghost use Rattle.element_entries.specs.Keys.{visit};
ghost use Rattle.element_entries.specs.Standing.{IsStandingOf};
ghost use Rattle.site_house.specs.House.{Moves, Stays};
ghost use Rattle.site_house.specs.Bins.{IsSeenIn};
ghost use Rattle.kept_pages.specs.Houses.{Steady, Reads};
ghost use Rattle.kept_pages.specs.Wholes.{parts_in, libraries_in, status_in, last_in};
ghost use Rattle.kept_pages.specs.Joins.{MakesPage};
ghost use Rattle.kept_pages.specs.Lasting.{Lasts};
ghost use Rattle.kept_pages.specs.Needed.{OfWhole, OfTarget, OfRequest};
ghost use Rattle.kept_pages.specs.Held.{IsLookedAt, Tells, BuiltUp};

use crate::compact::compact;
use crate::joining::Filled;
use crate::keeping::keep_filled;
use crate::looking::Seen;
use crate::pieces::Pieces;
use crate::whole::{look_for_target, whole_page};
use cache_entries::{Bin, Key};
use cacheability::{Context, OrderedSet};
use content_state::{Ask, State, Viewer};
use element_entries::{Reader, Standing};
use renderer::Parts;
use site_house::House;
use std::alloc::{AllocError, Global};

/// The page of a request: the status of its reply (RFC 9110, section 15), its text in the shared pieces that it was put together
/// from, how many bytes that is, how many elements were built for it, up to the greatest u64, and the last moment, in seconds
/// since 1970, at which it may be shown.
#[derive(Drop)]
pub struct Page {
    pub status: u16,
    pub parts: Parts,
    pub length: u128,
    pub built: u64,
    pub last: u64,
}

/// The page of a request on a state that the house has seen, for the viewer that its cookie names at the moment, in seconds
/// since 1970. Its status is 200, or 403 where it may not be viewed, or 404 where its path leads nowhere. It is the page that
/// would be shown if nothing were kept: each part of it that is kept, and fresh on the state, is shown as it was kept, on
/// whichever state that was, and else it is built, and kept where it may be. Nobody's session is given the whole page of the
/// target where that is kept. Else the page of the path is looked for that is kept for whoever views it, and the places of
/// lazy blocks, which are left open there, are filled in. Where there is no memory for keeping something it is let go. Where no
/// cookie was sent, the page is the same on the state at each later moment until its last. `Err` only where memory is wanting.
/// <https://www.drupal.org/docs/drupal-apis/render-api/the-drupal-8-render-pipeline>
pub fn render_page<H: House>(
    alloc: Global,
    house: &mut H,
    state: &State,
    viewer: &Viewer,
    ask: &Ask,
    now: u64,
) -> Result<Page, AllocError>
    requires viewer { viewer.now ≡ named_viewer state.now.rows ask.now.cookie now }
    requires seen { IsSeenIn (H.sees house.old) state.now }
    requires right { IsAsk ask.now }
    ensures moves { Moves (H.sees house.old) (H.sees house.new) }
    ensures stays { Stays (H.sees house.old) (H.sees house.new) }
    ensures page { IfOk result (λ p. IsPage state.now.rows ask.now now p.status p.parts) }
    ensures length { IfOk result (λ p. p.length ≡ length p.parts) }
    ensures status { IfOk result (λ p. IsTrue (is_page_status p.status)) }
    ensures built { IfOk result (λ p. Tells (record { state = state.now; viewer = viewer.now; ask = ask.now; moment = now }) (OfRequest (visit_on state.now viewer.now ask.now now)) (H.sees house.old) (H.sees house.new) 0 p.built) }
    ensures at_most { IfOk result (λ p. p.built ≤ min (page_count state.now.rows ask.now now) 18446744073709551615) }
    ensures lasts { IfOk result (λ p. Lasts state.now ask.now now p.last p.status p.parts) }
{
    let standing = Standing::new(alloc, state, viewer, ask)?;
    render_page_for(alloc, house, state, &standing, ask, now)
}

/// The page of a request, as `render_page` gives it, for the viewer of whom the account and the values of the required contexts on the
/// state were made before. `Err` only where memory is wanting.
pub fn render_page_for<H: House>(
    alloc: Global,
    house: &mut H,
    state: &State,
    standing: &Standing,
    ask: &Ask,
    now: u64,
) -> Result<Page, AllocError>
    requires standing { IsStandingOf state.now standing.now.account.viewer standing.now }
    requires viewer { standing.now.account.viewer ≡ named_viewer state.now.rows ask.now.cookie now }
    requires seen { IsSeenIn (H.sees house.old) state.now }
    requires right { IsAsk ask.now }
    ensures moves { Moves (H.sees house.old) (H.sees house.new) }
    ensures stays { Stays (H.sees house.old) (H.sees house.new) }
    ensures page { IfOk result (λ p. IsPage state.now.rows ask.now now p.status p.parts) }
    ensures length { IfOk result (λ p. p.length ≡ length p.parts) }
    ensures status { IfOk result (λ p. IsTrue (is_page_status p.status)) }
    ensures built { IfOk result (λ p. Tells (record { state = state.now; viewer = standing.now.account.viewer; ask = ask.now; moment = now }) (OfRequest (visit_on state.now standing.now.account.viewer ask.now now)) (H.sees house.old) (H.sees house.new) 0 p.built) }
    ensures at_most { IfOk result (λ p. p.built ≤ min (page_count state.now.rows ask.now now) 18446744073709551615) }
    ensures lasts { IfOk result (λ p. Lasts state.now ask.now now p.last p.status p.parts) }
{
    let reader = Reader::standing(state, standing, ask, now)?;
    request_page(alloc, house, &reader)
}

/// The page of a request, by whether its viewer has a session.
fn request_page<H: House>(
    alloc: Global,
    house: &mut H,
    reader: &Reader<'_>,
) -> Result<Page, AllocError>
    requires reads { Reads (H.sees house.old) reader.now }
    requires viewer { reader.now.viewer ≡ named_viewer reader.now.state.rows reader.now.ask.cookie reader.now.moment }
    ensures steady { Steady (H.sees house.old) (H.sees house.new) }
    ensures page { IfOk result (λ p. IsPage reader.now.state.rows reader.now.ask reader.now.moment p.status p.parts) }
    ensures length { IfOk result (λ p. p.length ≡ length p.parts) }
    ensures status { IfOk result (λ p. IsTrue (is_page_status p.status)) }
    ensures lasts { IfOk result (λ p. Lasts reader.now.state reader.now.ask reader.now.moment p.last p.status p.parts) }
    ensures told { IfOk result (λ p. Tells reader.now (OfRequest (visit reader.now)) (H.sees house.old) (H.sees house.new) 0 p.built) }
{
    match reader.viewer().session {
        None => shared_page(alloc, house, reader),
        Some(_) => own_page(alloc, house, reader),
    }
}

/// The page of a request for nobody's session.
fn shared_page<H: House>(
    alloc: Global,
    house: &mut H,
    reader: &Reader<'_>,
) -> Result<Page, AllocError>
    requires reads { Reads (H.sees house.old) reader.now }
    requires nobody { reader.now.viewer.session ≡ None }
    requires viewer { reader.now.viewer ≡ named_viewer reader.now.state.rows reader.now.ask.cookie reader.now.moment }
    ensures steady { Steady (H.sees house.old) (H.sees house.new) }
    ensures page { IfOk result (λ p. IsPage reader.now.state.rows reader.now.ask reader.now.moment p.status p.parts) }
    ensures length { IfOk result (λ p. p.length ≡ length p.parts) }
    ensures status { IfOk result (λ p. IsTrue (is_page_status p.status)) }
    ensures lasts { IfOk result (λ p. Lasts reader.now.state reader.now.ask reader.now.moment p.last p.status p.parts) }
    ensures told { IfOk result (λ p. Tells reader.now (OfTarget (visit reader.now)) (H.sees house.old) (H.sees house.new) 0 p.built) }
{
    let (Seen { entry, told }, key) = look_for_target(alloc, house, reader)?;
    match entry {
        Some(entry) => page_of(alloc, reader, Pieces::Kept(&entry), 0),
        None => built_page(alloc, house, reader, key, told.as_deref()),
    }
}

/// The page of a target for nobody's session, which is put together, and kept where it may be. Its text lies in few pieces of its own,
/// which it shares with what is kept of it, or, where there is no memory for them, in those that it is put together from.
fn built_page<H: House>(
    alloc: Global,
    house: &mut H,
    reader: &Reader<'_>,
    key: Key,
    told: Option<&OrderedSet<Context>>,
) -> Result<Page, AllocError>
    requires reads { Reads (H.sees house.old) reader.now }
    requires nobody { reader.now.viewer.session ≡ None }
    requires viewer { reader.now.viewer ≡ named_viewer reader.now.state.rows reader.now.ask.cookie reader.now.moment }
    requires asked { key.subject ≡ subject_is.Target reader.now.ask.target }
    requires looked { IsLookedAt reader.now key (option_copied told) }
    ensures steady { Steady (H.sees house.old) (H.sees house.new) }
    ensures page { IfOk result (λ p. IsPage reader.now.state.rows reader.now.ask reader.now.moment p.status p.parts) }
    ensures length { IfOk result (λ p. p.length ≡ length p.parts) }
    ensures status { IfOk result (λ p. IsTrue (is_page_status p.status)) }
    ensures lasts { IfOk result (λ p. Lasts reader.now.state reader.now.ask reader.now.moment p.last p.status p.parts) }
    ensures told { IfOk result (λ p. (kept : Entry) × BuiltUp reader.now met_nothing (OfWhole reader.now.ask.path (visit reader.now)) bin_is.Anonymous (subject_is.Target reader.now.ask.target) (option_copied told.entry) kept (H.sees house.old) (H.sees house.new) p.built) }
{
    let mut filled = whole_page(alloc, house, reader)?;
    let _compact = compact(alloc, &mut filled.joined);
    let page = page_of(alloc, reader, Pieces::Own(&filled.joined), filled.built)?;
    keep_filled(alloc, house, reader, Bin::Anonymous, key, filled, told)?;
    Ok(page)
}

/// The page of a request for whoever has a session: nothing of the whole is kept.
fn own_page<H: House>(alloc: Global, house: &mut H, reader: &Reader<'_>) -> Result<Page, AllocError>
    requires reads { Reads (H.sees house.old) reader.now }
    requires viewer { reader.now.viewer ≡ named_viewer reader.now.state.rows reader.now.ask.cookie reader.now.moment }
    ensures steady { Steady (H.sees house.old) (H.sees house.new) }
    ensures page { IfOk result (λ p. IsPage reader.now.state.rows reader.now.ask reader.now.moment p.status p.parts) }
    ensures length { IfOk result (λ p. p.length ≡ length p.parts) }
    ensures status { IfOk result (λ p. IsTrue (is_page_status p.status)) }
    ensures lasts { IfOk result (λ p. Lasts reader.now.state reader.now.ask reader.now.moment p.last p.status p.parts) }
    ensures told { IfOk result (λ p. Tells reader.now (OfWhole reader.now.ask.path (visit reader.now)) (H.sees house.old) (H.sees house.new) 0 p.built) }
{
    let Filled { joined, built } = whole_page(alloc, house, reader)?;
    page_of(alloc, reader, Pieces::Own(&joined), built)
}

/// The page of a request, made from a whole page: the lines of its libraries are made last.
pub fn page_of(
    alloc: Global,
    reader: &Reader<'_>,
    pieces: Pieces<'_>,
    built: u64,
) -> Result<Page, AllocError>
    requires viewer { reader.now.viewer ≡ named_viewer reader.now.state.rows reader.now.ask.cookie reader.now.moment }
    requires makes { MakesPage (visit reader.now) (status_in pieces) (pieces_of (parts_in pieces)) (libraries_in pieces) (last_in pieces) }
    ensures page { IfOk result (λ p. IsPage reader.now.state.rows reader.now.ask reader.now.moment p.status p.parts) }
    ensures length { IfOk result (λ p. p.length ≡ length p.parts) }
    ensures status { IfOk result (λ p. IsTrue (is_page_status p.status)) }
    ensures lasts { IfOk result (λ p. Lasts reader.now.state reader.now.ask reader.now.moment p.last p.status p.parts) }
    ensures built { IfOk result (λ p. p.built ≡ built) }
{
    let parts = pieces.text(alloc)?;
    let length = parts.len();
    let last = pieces.last();
    match pieces.status() {
        Some(status) => Ok(Page {
            status,
            parts,
            length,
            built,
            last,
        }),
        None => unreachable!(),
    }
}
