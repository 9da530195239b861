//! Elements whose places are filled in.
ghost use Rattle.std.specs.Prelude.{◌≡◌, ◌∷◌, ◌++◌, [], IfOk, OnOk};
ghost use Rattle.std.specs.Arc.{arc_value};
ghost use Rattle.html_out.specs.Part.{Hole as Opening};
ghost use Rattle.html_out.specs.Segment.{part_of, parts_of};
ghost use Rattle.content_state.specs.Plan.{bytes, Place};
ghost use Rattle.render_canvas.specs.Board.{pieces_of};
ghost use Rattle.render_array.specs.Whole.{whole, shown_below, count_below, element_level as level_of, element_count};
ghost use Rattle.renderer.specs.Filled.{IsWhole, Joins, Appends, Takes};

use crate::levels::{child_at, element_level};
use cacheability::Cacheability;
use content_state::{Ask, Hole, Library, State, Viewer};
use html_out::{Bytes, Segment, Segments};
use render_array::{Element, build};
use render_canvas::Built;
use std::alloc::{AllocError, Global};
use std::sync::Arc;

/// An element with its places filled in, under way: what it shows, what it depends on and attaches, the last moment at
/// which it may be shown, its status where it is a page, and how many elements were built for it, up to the greatest u64.
#[derive(Drop)]
pub struct Filled {
    pub segments: Segments<Hole>,
    pub cacheability: Cacheability,
    pub libraries: Vec<Library>,
    pub last: u64,
    pub status: Option<u16>,
    pub built: u64,
}

/// Bytes behind what is there.
pub fn add_bytes(filled: &mut Filled, shared: &Arc<Bytes>) -> Result<(), AllocError>
    ensures { OnOk result (Appends (bytes (arc_value shared.now)) filled.old filled.new) }
{
    filled.segments.push(Arc::try_clone(shared)?)?;
    Ok(())
}

/// A hole behind the segments. For want of memory nothing is added.
fn push_hole<T: Copy + Drop>(segments: &mut Segments<T>, hole: &T) -> Result<(), AllocError>
    ensures { OnOk result (segments.new ≡ segments.old ++ Opening hole.now ∷ []) }
{
    segments.push_hole(*hole)?;
    Ok(())
}

/// A place behind what is there, which stays open.
pub fn leave_open(filled: &mut Filled, hole: &Hole) -> Result<(), AllocError>
    ensures { OnOk result (Appends (Place hole.now ∷ []) filled.old filled.new) }
{
    push_hole(&mut filled.segments, hole)?;
    Ok(())
}

/// A child behind what is there.
pub fn add_child(alloc: Global, filled: &mut Filled, child: &Filled) -> Result<(), AllocError>
    ensures { OnOk result (Takes child.now filled.old filled.new) }
{
    filled.segments.append(&child.segments)?;
    filled.libraries.extend_from_slice(&child.libraries)?;
    filled.cacheability.merge(alloc, &child.cacheability)?;
    filled.last = filled.last.min(child.last);
    filled.built = filled.built.saturating_add(child.built);
    Ok(())
}

/// An element that stands in a place, its own places filled in.
#[cycle(filling)]
fn some_child(
    alloc: Global,
    state: &State,
    viewer: &Viewer,
    ask: &Ask,
    now: u64,
    element: Element,
) -> Result<Filled, AllocError>
    ensures { IfOk result (λ f. IsWhole (whole ask.now.path element) (record { rows = state.now.rows; viewer = viewer.now; ask = ask.now; moment = now }) (element_count ask.now.path (record { rows = state.now.rows; viewer = viewer.now; ask = ask.now; moment = now }) element) f) }
{
    fill(alloc, state, viewer, ask, now, element)
}

/// An element that is built, its places filled in.
#[cycle(filling)]
pub fn fill(
    alloc: Global,
    state: &State,
    viewer: &Viewer,
    ask: &Ask,
    now: u64,
    element: Element,
) -> Result<Filled, AllocError>
    ensures { IfOk result (λ f. IsWhole (whole ask.now.path element) (record { rows = state.now.rows; viewer = viewer.now; ask = ask.now; moment = now }) (element_count ask.now.path (record { rows = state.now.rows; viewer = viewer.now; ask = ask.now; moment = now }) element) f) }
{
    let Built {
        segments,
        cacheability,
        libraries,
        last,
        status,
    } = build(alloc, state, viewer, ask, now, &element)?;
    let mut filled = Filled {
        segments: Segments::new(alloc),
        cacheability,
        libraries: libraries.into_vec(),
        last,
        status,
        built: 1,
    };
    let below = element_level(element);
    add_parts(
        alloc,
        state,
        viewer,
        ask,
        now,
        below,
        segments.parts(),
        &mut filled,
    )?;
    Ok(filled)
}

/// The parts of an element of a level behind what is there, their places filled in.
#[cycle(filling)]
pub fn add_parts(
    alloc: Global,
    state: &State,
    viewer: &Viewer,
    ask: &Ask,
    now: u64,
    below: u8,
    parts: &[Segment<Hole>],
    filled: &mut Filled,
) -> Result<(), AllocError>
    ensures { OnOk result (Joins (shown_below below) (count_below below (record { rows = state.now.rows; viewer = viewer.now; ask = ask.now; moment = now })) (record { rows = state.now.rows; viewer = viewer.now; ask = ask.now; moment = now }) (pieces_of (parts_of parts.now)) filled.old filled.new) }
{
    for part in parts {
        add_part(alloc, state, viewer, ask, now, below, part, filled)?;
    }
    Ok(())
}

/// One part of an element of a level behind what is there, its place filled in.
#[cycle(filling)]
fn add_part(
    alloc: Global,
    state: &State,
    viewer: &Viewer,
    ask: &Ask,
    now: u64,
    below: u8,
    part: &Segment<Hole>,
    filled: &mut Filled,
) -> Result<(), AllocError>
    ensures { OnOk result (Joins (shown_below below) (count_below below (record { rows = state.now.rows; viewer = viewer.now; ask = ask.now; moment = now })) (record { rows = state.now.rows; viewer = viewer.now; ask = ask.now; moment = now }) (pieces_of (part_of part.now ∷ [])) filled.old filled.new) }
{
    match part {
        Segment::Bytes(shared) => add_bytes(filled, shared),
        Segment::Hole(hole) => match child_at(hole, below) {
            None => leave_open(filled, hole),
            Some(element) => {
                let child = some_child(alloc, state, viewer, ask, now, element)?;
                add_child(alloc, filled, &child)
            }
        },
    }
}
