//! The text of a page with marks in the places of its parts.
ghost use Rattle.std.specs.Prelude.{◌≡◌, ◌∷◌, ◌++◌, [], List, IfOk, OnOk, length};
ghost use Rattle.std.specs.Arc.{arc_value};
ghost use Rattle.html_out.specs.Part.{Part};
ghost use Rattle.html_out.specs.Segment.{part_of, parts_of};
ghost use Rattle.content_state.specs.declared.element.Hole.{Hole as Open};
ghost use Rattle.render_canvas.specs.Board.{pieces_of};
ghost use Rattle.late_out.specs.Marks.{place_mark as mark_of};
ghost use Rattle.late_pages.specs.Late.{late_places, marked as marked_text};

use content_state::Hole;
use html_out::{Bytes, Segment};
use late_out::place_mark;
use renderer::Parts;
use std::alloc::{AllocError, Global};
use std::sync::Arc;

/// A text with marks in places, in shared pieces, and these places.
#[derive(Drop)]
pub struct Marked {
    pub text: Parts,
    pub holes: Vec<Hole>,
}

/// The text of parts, with these bytes at the place of the libraries and a mark in each other place, and these places. No bytes
/// are copied. `Err` only where memory is wanting.
pub fn with_marks(
    alloc: Global,
    parts: &[Segment<Hole>],
    meta: &Arc<Bytes>,
) -> Result<Marked, AllocError>
    ensures text { IfOk result (λ m. m.text ≡ marked_text (arc_value meta.now) 0 (pieces_of (parts_of parts.now))) }
    ensures places { IfOk result (λ m. m.holes.items ≡ late_places (pieces_of (parts_of parts.now))) }
{
    let mut marked = Marked {
        text: Parts::with_capacity(alloc, parts.len())?,
        holes: Vec::new(alloc),
    };
    for part in parts {
        mark_part(alloc, &mut marked, part, meta)?;
    }
    Ok(marked)
}

/// Appends a part: its bytes, those for the place of the libraries, or the mark of a place.
fn mark_part(
    alloc: Global,
    marked: &mut Marked,
    part: &Segment<Hole>,
    meta: &Arc<Bytes>,
) -> Result<(), AllocError>
    ensures text { OnOk result ((rest : List (Part Open)) → marked.new.text ++ marked_text (arc_value meta.now) (length marked.new.holes.items) (pieces_of rest) ≡ marked.old.text ++ marked_text (arc_value meta.now) (length marked.old.holes.items) (pieces_of (part_of part.now ∷ rest))) }
    ensures places { OnOk result ((rest : List (Part Open)) → marked.new.holes.items ++ late_places (pieces_of rest) ≡ marked.old.holes.items ++ late_places (pieces_of (part_of part.now ∷ rest))) }
{
    match part {
        Segment::Bytes(bytes) => marked.text.push(Arc::try_clone(bytes)?),
        Segment::Hole(hole) => match hole {
            Hole::Meta => marked.text.push(Arc::try_clone(meta)?),
            Hole::Fragment(_) => mark_place(alloc, marked, hole),
        },
    }
}

/// Appends the mark of a place to the text, and the place to the places.
fn mark_place(alloc: Global, marked: &mut Marked, hole: &Hole) -> Result<(), AllocError>
    ensures text { OnOk result (marked.new.text ≡ marked.old.text ++ mark_of (length marked.old.holes.items)) }
    ensures places { OnOk result (marked.new.holes.items ≡ marked.old.holes.items ++ hole.now ∷ []) }
{
    let mark = place_mark(alloc, marked.holes.len() as u64)?;
    marked.text.push(Arc::new(alloc, Bytes::new(mark))?)?;
    add_copy(&mut marked.holes, hole)
}

/// Appends a copy of an item.
fn add_copy<T: Copy + Drop>(items: &mut Vec<T>, item: &T) -> Result<(), AllocError>
    ensures { OnOk result (items.new.items ≡ items.old.items ++ item.now ∷ []) }
{
    items.push(*item)?;
    Ok(())
}
