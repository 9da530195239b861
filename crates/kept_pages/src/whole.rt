//! Whole pages: what is kept of them for whoever views them, with what is lazy filled in.
ghost use Rattle.std.specs.Prelude.{◌≡◌, [], IfOk, IfSome, option_map};
ghost use Rattle.std.specs.Arc.{arc_value};
ghost use Rattle.content_state.specs.Met.{met_nothing};
ghost use Rattle.cache_entries.specs.declared.key.Subject.TheVariants as subject_is;
ghost use Rattle.cache_entries.specs.declared.kept.Bin.TheVariants as bin_is;
ghost use Rattle.cache_entries.specs.Entries.{IsHere};
ghost use Rattle.page_meaning.specs.Meaning.{meaning};
ghost use Rattle.render_array.specs.declared.element.Element.TheVariants as element_is;
ghost use Rattle.render_array.specs.Whole.{whole};
ghost use Rattle.element_entries.specs.Keys.{visit};
ghost use Rattle.kept_pages.specs.Houses.{Steady, Reads};
ghost use Rattle.kept_pages.specs.Joins.{IsWhole};
ghost use Rattle.kept_pages.specs.Needed.{InHoles, OfWhole};
ghost use Rattle.kept_pages.specs.Went.{TakesIn, GathersIn};
ghost use Rattle.kept_pages.specs.Held.{Shelves, IsTold, IsLookedAt, SeenIn, Tells};

use crate::filling::add_parts;
use crate::frames::some_frame;
use crate::joining::{Child, Filled, reopen};
use crate::looking::{Seen, look_shared};
use cache_entries::{Key, Subject};
use content_rows::Duplicate;
use element_entries::{Declared, Reader, first_key};
use render_array::Element;
use renderer::element_level;
use site_house::House;
use std::alloc::{AllocError, Global};

/// What is kept of the whole page of the target that is asked for, where it may be shown, and the key that was looked at last.
/// <https://www.drupal.org/docs/8/administering-a-drupal-8-site/internal-page-cache>
pub fn look_for_target<H: House>(
    alloc: Global,
    house: &mut H,
    reader: &Reader<'_>,
) -> Result<(Seen, Key), AllocError>
    requires { Reads (H.sees house.old) reader.now }
    ensures steady { Steady (H.sees house.old) (H.sees house.new) }
    ensures here { IfOk result (λ looked. IfSome looked.0.entry (λ e. IsHere meaning (subject_is.Target reader.now.ask.target) (visit reader.now) (arc_value e))) }
    ensures told { IfOk result (λ looked. (shelves : Shelves) → IsTold (H.sees house.old) shelves → SeenIn reader.now shelves bin_is.Anonymous (subject_is.Target reader.now.ask.target) looked.0 (H.sees house.new)) }
    ensures asked { IfOk result (λ looked. looked.1.subject ≡ subject_is.Target reader.now.ask.target) }
    ensures looked { IfOk result (λ looked. IsLookedAt reader.now looked.1 (option_map arc_value looked.0.told)) }
{
    let subject = Subject::Target(reader.ask().target.duplicate(alloc)?);
    let key = first_key(alloc, reader, subject, Declared::Nothing)?;
    let seen = look_shared(alloc, house, reader, &key)?;
    Ok((seen, key))
}

/// The whole page of the path that is asked for: what is kept of it for whoever views it, found or built, and then what is lazy.
pub fn whole_page<H: House>(
    alloc: Global,
    house: &mut H,
    reader: &Reader<'_>,
) -> Result<Filled, AllocError>
    requires { Reads (H.sees house.old) reader.now }
    ensures steady { Steady (H.sees house.old) (H.sees house.new) }
    ensures whole { IfOk result (λ f. IsWhole (whole reader.now.ask.path element_is.Page) (visit reader.now) f.joined) }
    ensures told { IfOk result (λ f. Tells reader.now (GathersIn (OfWhole reader.now.ask.path (visit reader.now)) met_nothing f.joined.cacheability) (H.sees house.old) (H.sees house.new) 0 f.built) }
{
    let frame = some_frame(alloc, house, reader)?;
    fill_frame(alloc, house, reader, &frame)
}

/// What is kept of a page for whoever views it, the places that are open there filled in.
fn fill_frame<H: House>(
    alloc: Global,
    house: &mut H,
    reader: &Reader<'_>,
    frame: &Child,
) -> Result<Filled, AllocError>
    requires reads { Reads (H.sees house.old) reader.now }
    requires here { IsHere meaning (subject_is.Page reader.now.ask.path) (visit reader.now) (arc_value frame.now.entry) }
    ensures steady { Steady (H.sees house.old) (H.sees house.new) }
    ensures whole { IfOk result (λ f. IsWhole (whole reader.now.ask.path element_is.Page) (visit reader.now) f.joined) }
    ensures told { IfOk result (λ f. Tells reader.now (TakesIn (InHoles (visit reader.now) (arc_value frame.now.entry)) [] (arc_value frame.now.entry).cacheability f.joined.cacheability) (H.sees house.old) (H.sees house.new) frame.now.built f.built) }
{
    let mut filled = reopen(alloc, frame)?;
    let below = element_level(Element::Page);
    add_parts(
        alloc,
        house,
        reader,
        below,
        frame.entry.segments.parts(),
        &mut filled,
    )?;
    Ok(filled)
}
