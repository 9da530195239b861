//! The page of a path as it is kept for whoever views it, and the whole page that is made of it.
ghost use Rattle.std.specs.Prelude.{◌∷◌, [], IfOk, OnOk};
ghost use Rattle.html_out.specs.Segment.{part_of, parts_of};
ghost use Rattle.content_state.specs.Plan.{Place};
ghost use Rattle.content_state.specs.declared.element.Hole.TheVariants as hole_is;
ghost use Rattle.page_meaning.specs.Meaning.{framed};
ghost use Rattle.render_canvas.specs.Board.{pieces_of};
ghost use Rattle.render_array.specs.declared.element.Element.TheVariants as element_is;
ghost use Rattle.render_array.specs.Built.{TellsExactly};
ghost use Rattle.render_array.specs.Whole.{whole};
ghost use Rattle.renderer.specs.Filled.{Joins};
ghost use Rattle.site_rehearsal.specs.Visitors.{visit};
ghost use Rattle.site_rehearsal.specs.Framing.{Makes, FillsFrame, Begins, TellsOpen, in_frame, count_in_frame};

use crate::visitor::Visitor;
use cacheability::Cacheability;
use content_state::{Fragment, Hole, State};
use html_out::{Segment, Segments};
use page_meaning::is_lazy;
use render_array::{Element, build};
use render_canvas::Built;
use renderer::{Filled, add_bytes, add_child, add_parts, element_level, fill, leave_open};
use std::alloc::{AllocError, Global};

/// Whether the place of a fragment stays open in a page that is kept for whoever views it, and what tells it. `Err` only where
/// memory is wanting.
/// <https://www.drupal.org/docs/drupal-apis/render-api/auto-placeholdering>
fn stays_open(
    state: &State,
    fragment: &Fragment,
    cacheability: &mut Cacheability,
) -> Result<bool, AllocError>
    ensures { IfOk result (λ left. TellsOpen state.now fragment.now cacheability.old left cacheability.new) }
{
    match fragment {
        Fragment::Block(name) => is_lazy(state, *name, cacheability),
        Fragment::Menu(_)
        | Fragment::Listing(_, _)
        | Fragment::TermListing(_)
        | Fragment::Node(_, _) => Ok(false),
    }
}

/// Appends a fragment to the page, or its place where that stays open.
fn add_fragment(
    alloc: Global,
    visitor: &Visitor<'_>,
    fragment: &Fragment,
    frame: &mut Filled,
) -> Result<(), AllocError>
    ensures { OnOk result (Joins in_frame (count_in_frame (visit visitor.now)) (visit visitor.now) (Place (hole_is.Fragment fragment.now) ∷ []) frame.old frame.new) }
{
    if stays_open(visitor.state, fragment, &mut frame.cacheability)? {
        return leave_open(frame, &Hole::Fragment(*fragment));
    }
    let child = fill(
        alloc,
        visitor.state,
        visitor.viewer,
        visitor.ask,
        visitor.moment,
        Element::Fragment(*fragment),
    )?;
    add_child(alloc, frame, &child)
}

/// Appends a part of a page: its bytes, the fragment in its place, or the place where it stays open.
fn add_part(
    alloc: Global,
    visitor: &Visitor<'_>,
    part: &Segment<Hole>,
    frame: &mut Filled,
) -> Result<(), AllocError>
    ensures { OnOk result (Joins in_frame (count_in_frame (visit visitor.now)) (visit visitor.now) (pieces_of (part_of part.now ∷ [])) frame.old frame.new) }
{
    match part {
        Segment::Bytes(shared) => add_bytes(frame, shared),
        Segment::Hole(hole) => match hole {
            Hole::Meta => leave_open(frame, hole),
            Hole::Fragment(fragment) => add_fragment(alloc, visitor, fragment, frame),
        },
    }
}

/// Appends the parts of a page, one after the other.
fn add_all(
    alloc: Global,
    visitor: &Visitor<'_>,
    parts: &[Segment<Hole>],
    frame: &mut Filled,
) -> Result<(), AllocError>
    ensures { OnOk result (Joins in_frame (count_in_frame (visit visitor.now)) (visit visitor.now) (pieces_of (parts_of parts.now)) frame.old frame.new) }
{
    for part in parts {
        add_part(alloc, visitor, part, frame)?;
    }
    Ok(())
}

/// The page of a path as it is kept for whoever views it: the places of lazy blocks stay open.
pub(crate) fn frame(alloc: Global, visitor: &Visitor<'_>) -> Result<Filled, AllocError>
    ensures makes { IfOk result (λ f. Makes (framed visitor.now.ask.now.path) (visit visitor.now) f) }
    ensures exact { IfOk result (λ f. TellsExactly (framed visitor.now.ask.now.path) (visit visitor.now) f.cacheability) }
{
    let Built {
        segments,
        cacheability,
        libraries,
        last,
        status,
    } = build(
        alloc,
        visitor.state,
        visitor.viewer,
        visitor.ask,
        visitor.moment,
        &Element::Page,
    )?;
    let mut frame = Filled {
        segments: Segments::new(alloc),
        cacheability,
        libraries: libraries.into_vec(),
        last,
        status,
        built: 1,
    };
    add_all(alloc, visitor, segments.parts(), &mut frame)?;
    Ok(frame)
}

/// What a page depends on, attaches and is, with nothing shown yet.
fn begun(alloc: Global, frame: &Filled) -> Result<Filled, AllocError>
    ensures { IfOk result (λ f. Begins frame.now f) }
{
    let mut libraries = Vec::new(alloc);
    libraries.extend_from_slice(&frame.libraries)?;
    Ok(Filled {
        segments: Segments::new(alloc),
        cacheability: frame.cacheability.duplicate(alloc)?,
        libraries,
        last: frame.last,
        status: frame.status,
        built: frame.built,
    })
}

/// The whole page: what was left open is filled in.
pub(crate) fn whole_page(
    alloc: Global,
    visitor: &Visitor<'_>,
    frame: &Filled,
) -> Result<Filled, AllocError>
    requires { Makes (framed visitor.now.ask.now.path) (visit visitor.now) frame.now }
    ensures makes { IfOk result (λ f. Makes (whole visitor.now.ask.now.path element_is.Page) (visit visitor.now) f) }
    ensures fills { IfOk result (λ f. FillsFrame (visit visitor.now) frame.now f) }
{
    let mut page = begun(alloc, frame)?;
    add_parts(
        alloc,
        visitor.state,
        visitor.viewer,
        visitor.ask,
        visitor.moment,
        element_level(Element::Page),
        frame.segments.parts(),
        &mut page,
    )?;
    Ok(page)
}
