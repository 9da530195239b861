//! What is sent first of a page whose parts are sent late.
ghost use Rattle.std.specs.Prelude.{◌≡◌, ◌≤◌, [], IfOk, IsTrue, None, false, min, true};
ghost use Rattle.std.specs.Arc.{arc_value};
ghost use Rattle.content_state.specs.Ask.{IsAsk};
ghost use Rattle.content_state.specs.Entities.{is_json as is_told};
ghost use Rattle.content_state.specs.Viewer.{viewer_of as named_viewer};
ghost use Rattle.cache_contexts.specs.Values.{visit_on};
ghost use Rattle.cache_entries.specs.declared.key.Subject.TheVariants as subject_is;
ghost use Rattle.cache_entries.specs.Entries.{IsHere};
ghost use Rattle.page_meaning.specs.Meaning.{meaning};
ghost use Rattle.render_array.specs.Shown.{IsPage, is_page_status, page_count};
ghost use Rattle.element_entries.specs.Keys.{visit};
ghost use Rattle.site_house.specs.House.{Moves, Stays};
ghost use Rattle.site_house.specs.Bins.{IsSeenIn};
ghost use Rattle.kept_pages.specs.Houses.{Steady, Reads};
ghost use Rattle.kept_pages.specs.Needed.{OfRequest};
ghost use Rattle.kept_pages.specs.Held.{Tells};
ghost use Rattle.late_pages.specs.Late.{IsFirst};
ghost use Rattle.late_pages.specs.Needed.{OfOpened, OpenedFor, OfFirst};

use crate::cutting::without_end;
use crate::marking::{Marked, with_marks};
use cache_entries::Entry;
use content_state::{Ask, Hole, State, Viewer, is_json};
use element_entries::Reader;
use html_out::Bytes;
use kept_pages::{Child, Page, Pieces, Seen, look_for_target, page_of, render_page, some_frame};
use renderer::{Parts, meta_text};
use site_access::Account;
use site_house::House;
use std::alloc::{AllocError, Global};
use std::sync::Arc;

/// What is sent first of a page: the status of the reply, the text up to the parts in shared pieces, the places of the parts that
/// follow, and how many elements were built for it, up to the greatest u64. Where no part follows, the text is whole.
#[derive(Drop)]
pub struct Late {
    pub status: u16,
    pub parts: Parts,
    pub holes: Vec<Hole>,
    pub built: u64,
}

/// What is sent first of the page of a request whose parts are sent late, on a state that the house has seen, for the viewer that
/// its cookie names at the moment, in seconds since 1970. Its status is 200, or 403 where it may not be viewed, or 404 where its path
/// leads nowhere. What is told as JSON is sent at once, and so is the whole page of the target where that is kept, to nobody's
/// session. Else the page of the path is looked for that is kept for whoever views it, and built where it isn't found, with a mark in
/// the place of each lazy block: these are the places of the parts. Where there is no memory for keeping something it is let go. `Err`
/// only where memory is wanting.
/// <https://www.drupal.org/docs/8/core/modules/big-pipe/overview>
pub fn late_first<H: House>(
    alloc: Global,
    house: &mut H,
    state: &State,
    viewer: &Viewer,
    ask: &Ask,
    now: u64,
) -> Result<Late, AllocError>
    requires viewer { viewer.now ≡ named_viewer state.now.rows ask.now.cookie now }
    requires seen { IsSeenIn (H.sees house.old) state.now }
    requires right { IsAsk ask.now }
    ensures moves { Moves (H.sees house.old) (H.sees house.new) }
    ensures stays { Stays (H.sees house.old) (H.sees house.new) }
    ensures first { IfOk result (λ l. IsFirst state.now.rows ask.now now l.status l.parts l.holes.items) }
    ensures status { IfOk result (λ l. IsTrue (is_page_status l.status)) }
    ensures told { IfOk result (λ l. Tells (record { state = state.now; viewer = viewer.now; ask = ask.now; moment = now }) (OfFirst (visit_on state.now viewer.now ask.now now)) (H.sees house.old) (H.sees house.new) 0 l.built) }
    ensures at_most { IfOk result (λ l. l.built ≤ min (page_count state.now.rows ask.now now) 18446744073709551615) }
{
    if is_json(ask.path.as_slice()) {
        let page = render_page(alloc, house, state, viewer, ask, now)?;
        return Ok(at_once(alloc, page));
    }
    let account = Account::new(alloc, state, viewer)?;
    let reader = Reader::with_values(alloc, state, &account, ask, now)?;
    first_of_page(alloc, house, &reader)
}

/// A page that is sent at once.
fn at_once(alloc: Global, page: Page) -> Late
    ensures status { result.status ≡ page.status }
    ensures parts { result.parts ≡ page.parts }
    ensures holes { result.holes.items ≡ [] }
    ensures built { result.built ≡ page.built }
{
    let Page {
        status,
        parts,
        length: _,
        built,
        last: _,
    } = page;
    Late {
        status,
        parts,
        holes: Vec::new(alloc),
        built,
    }
}

/// What is sent first of a page of HTML, by whether its viewer has a session.
fn first_of_page<H: House>(
    alloc: Global,
    house: &mut H,
    reader: &Reader<'_>,
) -> Result<Late, AllocError>
    requires reads { Reads (H.sees house.old) reader.now }
    requires viewer { reader.now.viewer ≡ named_viewer reader.now.state.rows reader.now.ask.cookie reader.now.moment }
    requires html { is_told reader.now.ask.path ≡ false }
    ensures steady { Steady (H.sees house.old) (H.sees house.new) }
    ensures first { IfOk result (λ l. IsFirst reader.now.state.rows reader.now.ask reader.now.moment l.status l.parts l.holes.items) }
    ensures status { IfOk result (λ l. IsTrue (is_page_status l.status)) }
    ensures told { IfOk result (λ l. Tells reader.now (OpenedFor reader.now.viewer.session (visit reader.now)) (H.sees house.old) (H.sees house.new) 0 l.built) }
{
    match reader.viewer().session {
        None => shared_first(alloc, house, reader),
        Some(_) => opened(alloc, house, reader),
    }
}

/// What is sent first to nobody's session: the whole page of the target where that is kept.
fn shared_first<H: House>(
    alloc: Global,
    house: &mut H,
    reader: &Reader<'_>,
) -> Result<Late, AllocError>
    requires reads { Reads (H.sees house.old) reader.now }
    requires nobody { reader.now.viewer.session ≡ None }
    requires viewer { reader.now.viewer ≡ named_viewer reader.now.state.rows reader.now.ask.cookie reader.now.moment }
    requires html { is_told reader.now.ask.path ≡ false }
    ensures steady { Steady (H.sees house.old) (H.sees house.new) }
    ensures first { IfOk result (λ l. IsFirst reader.now.state.rows reader.now.ask reader.now.moment l.status l.parts l.holes.items) }
    ensures status { IfOk result (λ l. IsTrue (is_page_status l.status)) }
    ensures told { IfOk result (λ l. Tells reader.now (OpenedFor None (visit reader.now)) (H.sees house.old) (H.sees house.new) 0 l.built) }
{
    let (Seen { entry, told: _ }, _) = look_for_target(alloc, house, reader)?;
    match entry {
        Some(entry) => found_page(alloc, reader, &entry),
        None => opened(alloc, house, reader),
    }
}

/// The whole page of a target for nobody's session, which was found.
fn found_page(alloc: Global, reader: &Reader<'_>, entry: &Arc<Entry>) -> Result<Late, AllocError>
    requires nobody { reader.now.viewer.session ≡ None }
    requires viewer { reader.now.viewer ≡ named_viewer reader.now.state.rows reader.now.ask.cookie reader.now.moment }
    requires right { IsAsk reader.now.ask }
    requires here { IsHere meaning (subject_is.Target reader.now.ask.target) (visit reader.now) (arc_value entry.now) }
    ensures first { IfOk result (λ l. IsFirst reader.now.state.rows reader.now.ask reader.now.moment l.status l.parts l.holes.items) }
    ensures status { IfOk result (λ l. IsTrue (is_page_status l.status)) }
    ensures built { IfOk result (λ l. l.built ≡ 0) }
{
    let page = page_of(alloc, reader, Pieces::Kept(entry), 0)?;
    Ok(at_once(alloc, page))
}

/// The page of the path as it is kept for whoever views it, found or built, with a mark in each place that it leaves open.
fn opened<H: House>(alloc: Global, house: &mut H, reader: &Reader<'_>) -> Result<Late, AllocError>
    requires reads { Reads (H.sees house.old) reader.now }
    requires viewer { reader.now.viewer ≡ named_viewer reader.now.state.rows reader.now.ask.cookie reader.now.moment }
    requires html { is_told reader.now.ask.path ≡ false }
    ensures steady { Steady (H.sees house.old) (H.sees house.new) }
    ensures first { IfOk result (λ l. IsFirst reader.now.state.rows reader.now.ask reader.now.moment l.status l.parts l.holes.items) }
    ensures status { IfOk result (λ l. IsTrue (is_page_status l.status)) }
    ensures told { IfOk result (λ l. Tells reader.now (OfOpened (visit reader.now)) (H.sees house.old) (H.sees house.new) 0 l.built) }
{
    let frame = some_frame(alloc, house, reader)?;
    opened_frame(alloc, reader, &frame)
}

/// What is kept of a page for whoever views it, with a mark in each place that it leaves open.
fn opened_frame(alloc: Global, reader: &Reader<'_>, frame: &Child) -> Result<Late, AllocError>
    requires viewer { reader.now.viewer ≡ named_viewer reader.now.state.rows reader.now.ask.cookie reader.now.moment }
    requires html { is_told reader.now.ask.path ≡ false }
    requires here { IsHere meaning (subject_is.Page reader.now.ask.path) (visit reader.now) (arc_value frame.now.entry) }
    ensures first { IfOk result (λ l. IsFirst reader.now.state.rows reader.now.ask reader.now.moment l.status l.parts l.holes.items) }
    ensures status { IfOk result (λ l. IsTrue (is_page_status l.status)) }
    ensures built { IfOk result (λ l. l.built ≡ frame.now.built) }
{
    // Only the contract speaks of it.
    let _reader = reader;
    let entry = &frame.entry;
    let lines = meta_text(alloc, entry.libraries.as_slice())?;
    let meta = Arc::new(alloc, Bytes::new(lines))?;
    let Marked { text, holes } = with_marks(alloc, entry.segments.parts(), &meta)?;
    let parts = if holes.is_empty() {
        text
    } else {
        without_end(alloc, &text)?
    };
    match entry.status {
        Some(status) => Ok(Late {
            status,
            parts,
            holes,
            built: frame.built,
        }),
        None => unreachable!(),
    }
}
