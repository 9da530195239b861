//! Building an element.
ghost use Rattle.std.specs.Prelude.{◌≡◌, IfOk};
ghost use Rattle.std.specs.Arc.{arc_value};
ghost use Rattle.content_state.specs.Ask.{IsAsk};
ghost use Rattle.content_state.specs.Viewer.{viewer_of as named_viewer};
ghost use Rattle.element_entries.specs.Making.{IsEntryOf};
ghost use Rattle.page_meaning.specs.Meaning.{framed};
ghost use Rattle.render_array.specs.declared.element.Element.TheVariants as element_is;
ghost use Rattle.render_array.specs.Whole.{shown_below, element_level};
ghost use Rattle.render_canvas.specs.Board.{pieces_of};
ghost use Rattle.site_rehearsal.specs.Visitors.{visit};
ghost use Rattle.site_rehearsal.specs.Seats.{IsMade};
ghost use Rattle.site_rehearsal.specs.Acts.{subject_of, bin_of, IsShownAs, IsBuiltFor, SaysAll, FillsText, IsTextOf};
ghost use Rattle.site_rehearsal.specs.Building.{joined_of, IsKeptOf, HasTextOf, IsText};
ghost use Rattle.site_rehearsal.specs.Framing.{Makes};

use crate::framing::{frame, whole_page};
use crate::seats::Draft;
use crate::visitor::Visitor;
use cache_entries::{Bin, Entry, Subject};
use content_rows::{Duplicate, Text};
use content_state::{Ask, Fragment, State, Viewer};
use element_entries::{Joined, Reader, entry_of};
use render_array::Element;
use renderer::{Filled, assembled, fill};
use site_access::{Account, viewer_of};
use std::alloc::{AllocError, Global};
use std::sync::Arc;

/// What is asked for, once more.
fn ask_again(alloc: Global, ask: &Ask) -> Result<Ask, AllocError>
    ensures { IfOk result (λ copy. copy ≡ ask.now) }
{
    Ok(Ask {
        target: ask.target.duplicate(alloc)?,
        path: ask.path.duplicate(alloc)?,
        query: ask.query.duplicate(alloc)?,
        cookie: ask.cookie,
    })
}

/// What is kept of an element that was asked for.
fn subject_of(alloc: Global, element: Element, ask: &Ask) -> Result<Subject, AllocError>
    ensures { IfOk result (λ subject. subject ≡ subject_of element ask.now) }
{
    Ok(match element {
        Element::Page => Subject::Page(ask.path.duplicate(alloc)?),
        Element::Fragment(fragment) => Subject::Fragment(fragment),
    })
}

/// The bin that an element is kept in.
fn bin_of(element: Element) -> Bin
    ensures { result ≡ bin_of element }
{
    match element {
        Element::Page => Bin::Dynamic,
        Element::Fragment(_) => Bin::Fragments,
    }
}

/// The text of what was put together.
fn text_of(alloc: Global, filled: &Filled) -> Result<Text, AllocError>
    ensures { IfOk result (λ text. IsText filled.now text) }
{
    let bytes = assembled(alloc, filled.segments.parts(), filled.libraries.as_slice())?;
    Ok(Text::from_vec(bytes))
}

/// The text of the whole page.
fn page_text(alloc: Global, visitor: &Visitor<'_>, frame: &Filled) -> Result<Text, AllocError>
    requires viewer { visitor.now.viewer.now ≡ named_viewer visitor.now.state.now.rows visitor.now.ask.now.cookie visitor.now.moment }
    requires frame { Makes (framed visitor.now.ask.now.path) (visit visitor.now) frame.now }
    ensures shown { IfOk result (λ text. IsShownAs element_is.Page visitor.now.state.now visitor.now.ask.now visitor.now.moment text) }
    ensures filled { IfOk result (λ text. FillsText (shown_below (element_level element_is.Page)) (visit visitor.now) (pieces_of frame.now.segments) frame.now.libraries.items text) }
{
    let page = whole_page(alloc, visitor, frame)?;
    text_of(alloc, &page)
}

/// What was put together, but for how many elements were built for it.
fn joined_of(filled: Filled) -> Joined
    ensures { result ≡ joined_of filled }
{
    let Filled {
        segments,
        cacheability,
        libraries,
        last,
        status,
        built: _,
    } = filled;
    Joined {
        segments,
        cacheability,
        libraries,
        last,
        status,
    }
}

/// An entry of what was put together.
fn shared_entry(
    alloc: Global,
    reader: &Reader<'_>,
    filled: Filled,
) -> Result<Arc<Entry>, AllocError>
    ensures { IfOk result (λ e. IsEntryOf reader.now (joined_of filled) (arc_value e)) }
{
    let entry = entry_of(alloc, reader, joined_of(filled))?;
    Ok(Arc::new(alloc, entry)?)
}

/// What may be kept of an element that was put together on a state, at a moment, for the viewer that the cookie names there.
fn draft_of(
    alloc: Global,
    state: &Arc<State>,
    viewer: &Viewer,
    ask: &Ask,
    now: u64,
    element: Element,
    filled: Filled,
) -> Result<Draft, AllocError>
    requires viewer { viewer.now ≡ named_viewer (arc_value state.now).rows ask.now.cookie now }
    requires right { IsAsk ask.now }
    requires kept { IsKeptOf element (arc_value state.now) viewer.now ask.now now filled }
    ensures built { IfOk result (λ draft. IsBuiltFor element (arc_value state.now) ask.now now draft) }
    ensures made { IfOk result (λ draft. IsMade draft) }
    ensures says { IfOk result (λ draft. SaysAll draft) }
    ensures has { IfOk result (λ draft. HasTextOf filled draft.entry) }
{
    let account = Account::new(alloc, state, viewer)?;
    let reader = Reader::new(state, &account, ask, now);
    let entry = shared_entry(alloc, &reader, filled)?;
    let subject = subject_of(alloc, element, ask)?;
    let asked = ask_again(alloc, ask)?;
    Ok(Draft {
        state: Arc::try_clone(state)?,
        viewer: *viewer,
        ask: asked,
        bin: bin_of(element),
        subject,
        entry,
    })
}

/// The element that a fragment is.
fn element_of(fragment: &Fragment) -> Element
    ensures { result ≡ element_is.Fragment fragment.now }
{
    Element::Fragment(*fragment)
}

/// A fragment that is built.
fn built_fragment(
    alloc: Global,
    state: &Arc<State>,
    fragment: &Fragment,
    ask: &Ask,
    now: u64,
) -> Result<(Draft, Text), AllocError>
    requires { IsAsk ask.now }
    ensures shown { IfOk result (λ made. IsShownAs (element_is.Fragment fragment.now) (arc_value state.now) ask.now now made.1) }
    ensures built { IfOk result (λ made. IsBuiltFor (element_is.Fragment fragment.now) (arc_value state.now) ask.now now made.0) }
    ensures made { IfOk result (λ made. IsMade made.0) }
    ensures says { IfOk result (λ made. SaysAll made.0) }
    ensures text { IfOk result (λ made. IsTextOf (element_is.Fragment fragment.now) made.0 made.1) }
{
    let viewer = viewer_of(state, ask, now);
    let filled = fill(alloc, state, &viewer, ask, now, element_of(fragment))?;
    let text = text_of(alloc, &filled)?;
    let draft = draft_of(
        alloc,
        state,
        &viewer,
        ask,
        now,
        element_of(fragment),
        filled,
    )?;
    Ok((draft, text))
}

/// A page that is built: what is for everybody is kept, and the whole page is made of it.
fn built_page(
    alloc: Global,
    state: &Arc<State>,
    ask: &Ask,
    now: u64,
) -> Result<(Draft, Text), AllocError>
    requires { IsAsk ask.now }
    ensures shown { IfOk result (λ made. IsShownAs element_is.Page (arc_value state.now) ask.now now made.1) }
    ensures built { IfOk result (λ made. IsBuiltFor element_is.Page (arc_value state.now) ask.now now made.0) }
    ensures made { IfOk result (λ made. IsMade made.0) }
    ensures says { IfOk result (λ made. SaysAll made.0) }
    ensures text { IfOk result (λ made. IsTextOf element_is.Page made.0 made.1) }
{
    let viewer = viewer_of(state, ask, now);
    let visitor = Visitor {
        state,
        viewer: &viewer,
        ask,
        moment: now,
    };
    let frame = frame(alloc, &visitor)?;
    let text = page_text(alloc, &visitor, &frame)?;
    let draft = draft_of(alloc, state, &viewer, ask, now, Element::Page, frame)?;
    Ok((draft, text))
}

/// An element that is built on a state, at a moment, for the viewer that the cookie names there: what may be kept of it, and its
/// text. `Err` only where memory is wanting.
pub(crate) fn built(
    alloc: Global,
    state: &Arc<State>,
    element: Element,
    ask: &Ask,
    now: u64,
) -> Result<(Draft, Text), AllocError>
    requires { IsAsk ask.now }
    ensures shown { IfOk result (λ made. IsShownAs element (arc_value state.now) ask.now now made.1) }
    ensures built { IfOk result (λ made. IsBuiltFor element (arc_value state.now) ask.now now made.0) }
    ensures made { IfOk result (λ made. IsMade made.0) }
    ensures says { IfOk result (λ made. SaysAll made.0) }
    ensures text { IfOk result (λ made. IsTextOf element made.0 made.1) }
{
    match element {
        Element::Page => built_page(alloc, state, ask, now),
        Element::Fragment(fragment) => built_fragment(alloc, state, &fragment, ask, now),
    }
}
