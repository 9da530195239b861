//! Pages as they are kept for whoever views them: the places of lazy blocks are left open there.
ghost use Rattle.std.specs.Prelude.{◌≡◌, ◌∷◌, [], IfOk, OnOk};
ghost use Rattle.std.specs.Arc.{arc_value};
ghost use Rattle.std.specs.List.{flat_map};
ghost use Rattle.std.specs.Option.{option_copied};
ghost use Rattle.html_out.specs.Segment.{part_of, parts_of};
ghost use Rattle.content_state.specs.Plan.{Place};
ghost use Rattle.content_state.specs.Places.{open_places};
ghost use Rattle.cache_entries.specs.declared.key.Subject.TheVariants as subject_is;
ghost use Rattle.cache_entries.specs.declared.kept.Bin.TheVariants as bin_is;
ghost use Rattle.cache_entries.specs.Entries.{IsHere};
ghost use Rattle.page_meaning.specs.Meaning.{meaning, framed};
ghost use Rattle.render_canvas.specs.Board.{pieces_of};
ghost use Rattle.render_array.specs.Whole.{fragment_level};
ghost use Rattle.element_entries.specs.Keys.{visit};
ghost use Rattle.kept_pages.specs.Houses.{Steady, Reads};
ghost use Rattle.kept_pages.specs.Joins.{IsWhole, TakesFragment, in_shared, Joins};
ghost use Rattle.kept_pages.specs.Needed.{Visits, OfFragment, NeededBelow, NeededInFrame, InFrame, tags_asked, met_in_frame, OfFrame};
ghost use Rattle.kept_pages.specs.Went.{TakesIn, GathersIn};
ghost use Rattle.kept_pages.specs.Held.{IsLookedAt, Tells, BuiltUp};

use crate::filling::some_fragment;
use crate::joining::{Begun, Child, Filled, add_bytes, add_child, begin, leave_open};
use crate::keeping::keep_filled;
use crate::looking::{Seen, look};
use crate::places::is_left_open;
use cache_entries::{Bin, Key, Subject};
use cacheability::{Context, OrderedSet};
use content_rows::Duplicate;
use content_state::{Fragment, Hole};
use element_entries::{Declared, Reader, first_key};
use html_out::Segment;
use render_array::Element;
use site_house::House;
use std::alloc::{AllocError, Global};

/// The page of the path that is asked for, as it is kept for whoever views it: found where it is kept and fresh, else built.
/// <https://www.drupal.org/docs/8/core/modules/dynamic-page-cache/overview>
pub fn some_frame<H: House>(
    alloc: Global,
    house: &mut H,
    reader: &Reader<'_>,
) -> Result<Child, AllocError>
    requires { Reads (H.sees house.old) reader.now }
    ensures steady { Steady (H.sees house.old) (H.sees house.new) }
    ensures here { IfOk result (λ child. IsHere meaning (subject_is.Page reader.now.ask.path) (visit reader.now) (arc_value child.entry)) }
    ensures told { IfOk result (λ child. Tells reader.now (OfFrame reader.now.ask.path (visit reader.now) (arc_value child.entry)) (H.sees house.old) (H.sees house.new) 0 child.built) }
{
    let subject = Subject::Page(reader.ask().path.duplicate(alloc)?);
    let mut key = first_key(alloc, reader, subject, Declared::Nothing)?;
    let Seen { entry, told } = look(
        alloc,
        house,
        reader,
        Bin::Dynamic,
        &mut key,
        Declared::Nothing,
    )?;
    match entry {
        Some(entry) => Ok(Child { entry, built: 0 }),
        None => built_frame(alloc, house, reader, key, told.as_deref()),
    }
}

/// The page of a path that is built as it is kept for whoever views it, and kept where it may be.
fn built_frame<H: House>(
    alloc: Global,
    house: &mut H,
    reader: &Reader<'_>,
    key: Key,
    told: Option<&OrderedSet<Context>>,
) -> Result<Child, AllocError>
    requires reads { Reads (H.sees house.old) reader.now }
    requires asked { key.subject ≡ subject_is.Page reader.now.ask.path }
    requires looked { IsLookedAt reader.now key (option_copied told) }
    ensures steady { Steady (H.sees house.old) (H.sees house.new) }
    ensures here { IfOk result (λ child. IsHere meaning (subject_is.Page reader.now.ask.path) (visit reader.now) (arc_value child.entry)) }
    ensures told { IfOk result (λ child. BuiltUp reader.now (met_in_frame reader.now.ask.path (visit reader.now)) (InFrame reader.now.ask.path (visit reader.now)) bin_is.Dynamic (subject_is.Page reader.now.ask.path) (option_copied told.entry) (arc_value child.entry) (H.sees house.old) (H.sees house.new) child.built) }
{
    let filled = build_frame(alloc, house, reader)?;
    keep_filled(alloc, house, reader, Bin::Dynamic, key, filled, told)
}

/// The page of a path that is built as it is kept for whoever views it.
fn build_frame<H: House>(
    alloc: Global,
    house: &mut H,
    reader: &Reader<'_>,
) -> Result<Filled, AllocError>
    requires { Reads (H.sees house.old) reader.now }
    ensures steady { Steady (H.sees house.old) (H.sees house.new) }
    ensures whole { IfOk result (λ f. IsWhole (framed reader.now.ask.path) (visit reader.now) f.joined) }
    ensures told { IfOk result (λ f. Tells reader.now (GathersIn (InFrame reader.now.ask.path (visit reader.now)) (met_in_frame reader.now.ask.path (visit reader.now)) f.joined.cacheability) (H.sees house.old) (H.sees house.new) 1 f.built) }
{
    let Begun {
        segments,
        mut filled,
    } = begin(alloc, reader, &Element::Page)?;
    add_shared_parts(alloc, house, reader, segments.parts(), &mut filled)?;
    Ok(filled)
}

/// Appends the parts of a page, all places filled in but those of the libraries and of lazy blocks.
fn add_shared_parts<H: House>(
    alloc: Global,
    house: &mut H,
    reader: &Reader<'_>,
    parts: &[Segment<Hole>],
    filled: &mut Filled,
) -> Result<(), AllocError>
    requires { Reads (H.sees house.old) reader.now }
    ensures steady { Steady (H.sees house.old) (H.sees house.new) }
    ensures joins { OnOk result (Joins in_shared (visit reader.now) (pieces_of (parts_of parts.now)) filled.old.joined filled.new.joined) }
    ensures told { OnOk result (Tells reader.now (TakesIn (Visits (NeededInFrame (visit reader.now)) (open_places (pieces_of (parts_of parts.now)))) (flat_map (tags_asked (visit reader.now)) (open_places (pieces_of (parts_of parts.now)))) filled.old.joined.cacheability filled.new.joined.cacheability) (H.sees house.old) (H.sees house.new) filled.old.built filled.new.built) }
{
    for part in parts {
        add_shared_part(alloc, house, reader, part, filled)?;
    }
    Ok(())
}

/// Appends one part of a page: its bytes, or what stands in its place.
fn add_shared_part<H: House>(
    alloc: Global,
    house: &mut H,
    reader: &Reader<'_>,
    part: &Segment<Hole>,
    filled: &mut Filled,
) -> Result<(), AllocError>
    requires { Reads (H.sees house.old) reader.now }
    ensures steady { Steady (H.sees house.old) (H.sees house.new) }
    ensures joins { OnOk result (Joins in_shared (visit reader.now) (pieces_of (part_of part.now ∷ [])) filled.old.joined filled.new.joined) }
    ensures told { OnOk result (Tells reader.now (TakesIn (Visits (NeededInFrame (visit reader.now)) (open_places (pieces_of (part_of part.now ∷ [])))) (flat_map (tags_asked (visit reader.now)) (open_places (pieces_of (part_of part.now ∷ [])))) filled.old.joined.cacheability filled.new.joined.cacheability) (H.sees house.old) (H.sees house.new) filled.old.built filled.new.built) }
{
    match part {
        Segment::Bytes(shared) => add_bytes(&mut filled.joined, shared),
        Segment::Hole(hole) => add_shared_place(alloc, house, reader, hole, filled),
    }
}

/// Appends what stands in a place of a page, or the place where it stays open.
fn add_shared_place<H: House>(
    alloc: Global,
    house: &mut H,
    reader: &Reader<'_>,
    hole: &Hole,
    filled: &mut Filled,
) -> Result<(), AllocError>
    requires { Reads (H.sees house.old) reader.now }
    ensures steady { Steady (H.sees house.old) (H.sees house.new) }
    ensures joins { OnOk result (Joins in_shared (visit reader.now) (Place hole.now ∷ []) filled.old.joined filled.new.joined) }
    ensures told { OnOk result (Tells reader.now (TakesIn (Visits (NeededInFrame (visit reader.now)) (hole.now ∷ [])) (flat_map (tags_asked (visit reader.now)) (hole.now ∷ [])) filled.old.joined.cacheability filled.new.joined.cacheability) (H.sees house.old) (H.sees house.new) filled.old.built filled.new.built) }
{
    match hole {
        Hole::Meta => leave_open(&mut filled.joined, hole),
        Hole::Fragment(fragment) => {
            if is_left_open(reader, fragment, &mut filled.joined)? {
                leave_open(&mut filled.joined, hole)
            } else {
                add_shared_fragment(alloc, house, reader, fragment, filled)
            }
        }
    }
}

/// Appends a fragment that isn't lazy.
fn add_shared_fragment<H: House>(
    alloc: Global,
    house: &mut H,
    reader: &Reader<'_>,
    fragment: &Fragment,
    filled: &mut Filled,
) -> Result<(), AllocError>
    requires { Reads (H.sees house.old) reader.now }
    ensures steady { Steady (H.sees house.old) (H.sees house.new) }
    ensures takes { OnOk result (TakesFragment (visit reader.now) fragment.now filled.old.joined filled.new.joined) }
    ensures told { OnOk result (Tells reader.now (TakesIn (OfFragment (NeededBelow (fragment_level fragment.now) (visit reader.now)) (visit reader.now) fragment.now) [] filled.old.joined.cacheability filled.new.joined.cacheability) (H.sees house.old) (H.sees house.new) filled.old.built filled.new.built) }
{
    let child = some_fragment(alloc, house, reader, fragment)?;
    add_child(alloc, &mut filled.joined, &child.entry)?;
    filled.built = filled.built.saturating_add(child.built);
    Ok(())
}
