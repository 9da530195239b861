//! Elements whose places are filled in, with what is found, or else with what is built.
ghost use Rattle.std.specs.Prelude.{◌≡◌, ◌∷◌, [], IfOk, IfSome, OnOk, option_map};
ghost use Rattle.std.specs.Arc.{arc_value};
ghost use Rattle.std.specs.Option.{option_copied};
ghost use Rattle.html_out.specs.Segment.{part_of, parts_of};
ghost use Rattle.content_state.specs.Met.{met};
ghost use Rattle.content_state.specs.Places.{open_places};
ghost use Rattle.cache_entries.specs.declared.key.Subject.TheVariants as subject_is;
ghost use Rattle.cache_entries.specs.declared.kept.Bin.TheVariants as bin_is;
ghost use Rattle.cache_entries.specs.Entries.{IsHere};
ghost use Rattle.page_meaning.specs.Meaning.{meaning};
ghost use Rattle.render_canvas.specs.Board.{pieces_of};
ghost use Rattle.render_array.specs.declared.element.Element.TheVariants as element_is;
ghost use Rattle.render_array.specs.Built.{plan_of};
ghost use Rattle.render_array.specs.Whole.{whole, fragment_level, shown_below};
ghost use Rattle.element_entries.specs.Keys.{visit, first_contexts, key_by};
ghost use Rattle.element_entries.specs.Making.{Bubbles};
ghost use Rattle.kept_pages.specs.Houses.{Steady, Reads};
ghost use Rattle.kept_pages.specs.Joins.{IsWhole, Joins};
ghost use Rattle.kept_pages.specs.Needed.{Visits, FragmentBy, met_fragment, InFragment, NeededBelow, NeededFor};
ghost use Rattle.kept_pages.specs.Went.{TakesIn, GathersIn};
ghost use Rattle.kept_pages.specs.Held.{Shelves, IsTold, looked_by, SeenIn, Closes, Tells, BuiltUp};

use crate::joining::{Begun, Child, Filled, add_bytes, add_child, begin, leave_open};
use crate::keeping::keep_filled;
use crate::looking::{Seen, look};
use crate::places::fragment_at;
use cache_entries::{Bin, Key, Subject};
use cacheability::{Context, OrderedSet};
use content_state::{Fragment, Hole};
use element_entries::{Reader, declared_by, first_key};
use html_out::Segment;
use render_array::Element;
use renderer::element_level;
use site_house::House;
use std::alloc::{AllocError, Global};

/// What is kept of a fragment, where it may be shown, and the key that was looked at last.
fn look_for<H: House>(
    alloc: Global,
    house: &mut H,
    reader: &Reader<'_>,
    fragment: &Fragment,
) -> Result<(Seen, Key), AllocError>
    requires { Reads (H.sees house.old) reader.now }
    ensures steady { Steady (H.sees house.old) (H.sees house.new) }
    ensures here { IfOk result (λ looked. IfSome looked.0.entry (λ e. IsHere meaning (subject_is.Fragment fragment.now) (visit reader.now) (arc_value e))) }
    ensures told { IfOk result (λ looked. (shelves : Shelves) → IsTold (H.sees house.old) shelves → SeenIn reader.now shelves bin_is.Fragments (subject_is.Fragment fragment.now) looked.0 (H.sees house.new)) }
    ensures looked { IfOk result (λ looked. looked.1 ≡ key_by (visit reader.now) (subject_is.Fragment fragment.now) (looked_by (first_contexts reader.now.state.rows (subject_is.Fragment fragment.now)) (option_map arc_value looked.0.told))) }
{
    let subject = Subject::Fragment(*fragment);
    let declared = declared_by(reader.state(), &subject);
    let mut key = first_key(alloc, reader, subject, declared)?;
    let seen = look(alloc, house, reader, Bin::Fragments, &mut key, declared)?;
    Ok((seen, key))
}

/// What stands in the place of a fragment that was put together, which is kept where it may be.
fn keep_whole<H: House>(
    alloc: Global,
    house: &mut H,
    reader: &Reader<'_>,
    fragment: &Fragment,
    key: Key,
    filled: Filled,
    told: Option<&OrderedSet<Context>>,
) -> Result<Child, AllocError>
    requires reads { Reads (H.sees house.old) reader.now }
    requires looked { key ≡ key_by (visit reader.now) (subject_is.Fragment fragment.now) (looked_by (first_contexts reader.now.state.rows (subject_is.Fragment fragment.now)) (option_copied told)) }
    requires whole { IsWhole (whole reader.now.ask.path (element_is.Fragment fragment.now)) (visit reader.now) filled.joined }
    ensures steady { Steady (H.sees house.old) (H.sees house.new) }
    ensures here { IfOk result (λ child. IsHere meaning (subject_is.Fragment fragment.now) (visit reader.now) (arc_value child.entry)) }
    ensures says { IfOk result (λ child. Bubbles (visit reader.now) filled.joined.cacheability (arc_value child.entry).cacheability) }
    ensures built { IfOk result (λ child. child.built ≡ filled.built) }
    ensures told { IfOk result (λ child. (shelves : Shelves) → IsTold (H.sees house.old) shelves → Closes reader.now shelves bin_is.Fragments (subject_is.Fragment fragment.now) (option_copied told.entry) (arc_value child.entry) (H.sees house.new)) }
{
    // Only the contract speaks of it.
    let _fragment = fragment;
    keep_filled(alloc, house, reader, Bin::Fragments, key, filled, told)
}

/// The element that a fragment is.
fn element_of(fragment: &Fragment) -> Element
    ensures { result ≡ element_is.Fragment fragment.now }
{
    Element::Fragment(*fragment)
}

/// A fragment that stands in a place: found where it is kept and fresh, else built.
#[cycle(filling)]
pub fn some_fragment<H: House>(
    alloc: Global,
    house: &mut H,
    reader: &Reader<'_>,
    fragment: &Fragment,
) -> Result<Child, AllocError>
    requires { Reads (H.sees house.old) reader.now }
    ensures steady { Steady (H.sees house.old) (H.sees house.new) }
    ensures here { IfOk result (λ child. IsHere meaning (subject_is.Fragment fragment.now) (visit reader.now) (arc_value child.entry)) }
    ensures told { IfOk result (λ child. Tells reader.now (FragmentBy (NeededBelow (fragment_level fragment.now) (visit reader.now)) (visit reader.now) fragment.now (arc_value child.entry)) (H.sees house.old) (H.sees house.new) 0 child.built) }
{
    let (Seen { entry, told }, key) = look_for(alloc, house, reader, fragment)?;
    match entry {
        Some(entry) => Ok(Child { entry, built: 0 }),
        None => built_fragment(alloc, house, reader, fragment, key, told.as_deref()),
    }
}

/// A fragment that is built, and kept where it may be.
#[cycle(filling)]
fn built_fragment<H: House>(
    alloc: Global,
    house: &mut H,
    reader: &Reader<'_>,
    fragment: &Fragment,
    key: Key,
    told: Option<&OrderedSet<Context>>,
) -> Result<Child, AllocError>
    requires reads { Reads (H.sees house.old) reader.now }
    requires looked { key ≡ key_by (visit reader.now) (subject_is.Fragment fragment.now) (looked_by (first_contexts reader.now.state.rows (subject_is.Fragment fragment.now)) (option_copied told)) }
    ensures steady { Steady (H.sees house.old) (H.sees house.new) }
    ensures here { IfOk result (λ child. IsHere meaning (subject_is.Fragment fragment.now) (visit reader.now) (arc_value child.entry)) }
    ensures told { IfOk result (λ child. BuiltUp reader.now (met_fragment fragment.now (visit reader.now)) (InFragment (visit reader.now) fragment.now) bin_is.Fragments (subject_is.Fragment fragment.now) (option_copied told.entry) (arc_value child.entry) (H.sees house.old) (H.sees house.new) child.built) }
{
    let filled = fill(alloc, house, reader, element_of(fragment))?;
    keep_whole(alloc, house, reader, fragment, key, filled, told)
}

/// An element that is built, its places filled in.
#[cycle(filling)]
fn fill<H: House>(
    alloc: Global,
    house: &mut H,
    reader: &Reader<'_>,
    element: Element,
) -> Result<Filled, AllocError>
    requires { Reads (H.sees house.old) reader.now }
    ensures steady { Steady (H.sees house.old) (H.sees house.new) }
    ensures whole { IfOk result (λ f. IsWhole (whole reader.now.ask.path element) (visit reader.now) f.joined) }
    ensures told { IfOk result (λ f. Tells reader.now (GathersIn (NeededFor reader.now.ask.path (visit reader.now) element) (met (plan_of reader.now.ask.path element) (visit reader.now)) f.joined.cacheability) (H.sees house.old) (H.sees house.new) 1 f.built) }
{
    let Begun {
        segments,
        mut filled,
    } = begin(alloc, reader, &element)?;
    let below = element_level(element);
    add_parts(alloc, house, reader, below, segments.parts(), &mut filled)?;
    Ok(filled)
}

/// Appends the parts of an element of a level to what was put together, their places filled in.
#[cycle(filling)]
pub fn add_parts<H: House>(
    alloc: Global,
    house: &mut H,
    reader: &Reader<'_>,
    below: u8,
    parts: &[Segment<Hole>],
    filled: &mut Filled,
) -> Result<(), AllocError>
    requires { Reads (H.sees house.old) reader.now }
    ensures steady { Steady (H.sees house.old) (H.sees house.new) }
    ensures joins { OnOk result (Joins (shown_below below) (visit reader.now) (pieces_of (parts_of parts.now)) filled.old.joined filled.new.joined) }
    ensures told { OnOk result (Tells reader.now (TakesIn (Visits (NeededBelow below (visit reader.now)) (open_places (pieces_of (parts_of parts.now)))) [] filled.old.joined.cacheability filled.new.joined.cacheability) (H.sees house.old) (H.sees house.new) filled.old.built filled.new.built) }
{
    for part in parts {
        add_part(alloc, house, reader, below, part, filled)?;
    }
    Ok(())
}

/// Appends one part of an element of a level to what was put together, its place filled in.
#[cycle(filling)]
fn add_part<H: House>(
    alloc: Global,
    house: &mut H,
    reader: &Reader<'_>,
    below: u8,
    part: &Segment<Hole>,
    filled: &mut Filled,
) -> Result<(), AllocError>
    requires { Reads (H.sees house.old) reader.now }
    ensures steady { Steady (H.sees house.old) (H.sees house.new) }
    ensures joins { OnOk result (Joins (shown_below below) (visit reader.now) (pieces_of (part_of part.now ∷ [])) filled.old.joined filled.new.joined) }
    ensures told { OnOk result (Tells reader.now (TakesIn (Visits (NeededBelow below (visit reader.now)) (open_places (pieces_of (part_of part.now ∷ [])))) [] filled.old.joined.cacheability filled.new.joined.cacheability) (H.sees house.old) (H.sees house.new) filled.old.built filled.new.built) }
{
    match part {
        Segment::Bytes(shared) => add_bytes(&mut filled.joined, shared),
        Segment::Hole(hole) => match fragment_at(hole, below) {
            None => leave_open(&mut filled.joined, hole),
            Some(fragment) => {
                let child = some_fragment(alloc, house, reader, &fragment)?;
                add_child(alloc, &mut filled.joined, &child.entry)?;
                filled.built = filled.built.saturating_add(child.built);
                Ok(())
            }
        },
    }
}
