//! Parts that are sent late.
ghost use Rattle.std.specs.Prelude.{◌≡◌, ◌++◌, IfOk, OnOk};
ghost use Rattle.std.specs.Arc.{arc_value};
ghost use Rattle.content_state.specs.Ask.{IsAsk};
ghost use Rattle.content_state.specs.Viewer.{viewer_of as named_viewer};
ghost use Rattle.content_state.specs.Context.{Visit};
ghost use Rattle.content_state.specs.declared.element.Fragment.{Fragment as Shown};
ghost use Rattle.html_out.specs.Segment.{joined};
ghost use Rattle.cache_contexts.specs.Values.{visit_on};
ghost use Rattle.cache_entries.specs.declared.key.Subject.TheVariants as subject_is;
ghost use Rattle.cache_entries.specs.Entries.{IsHere};
ghost use Rattle.page_meaning.specs.Meaning.{meaning};
ghost use Rattle.site_house.specs.House.{Moves, Stays};
ghost use Rattle.site_house.specs.Bins.{IsSeenIn};
ghost use Rattle.kept_pages.specs.Held.{Tells};
ghost use Rattle.late_pages.specs.Late.{FragmentShows, PartShows, part_text};
ghost use Rattle.late_pages.specs.Needed.{OfPart};
ghost use Rattle.late_pages.specs.Parts.{part_of};

use crate::naming::names_of;
use content_state::{Ask, Hole, Library, State, Viewer};
use element_entries::Reader;
use html_out::Bytes;
use kept_pages::{Child, some_fragment};
use late_out::{template_end, template_start};
use renderer::{Parts, shared_text};
use site_access::Account;
use site_house::House;
use std::alloc::{AllocError, Global};
use std::sync::Arc;

/// A part of a page: its text in the shared pieces that it was put together from, the libraries that it attaches, and how many
/// elements were built for it, up to the greatest u64.
#[derive(Drop)]
pub struct Part {
    pub parts: Parts,
    pub libraries: Vec<Library>,
    pub built: u64,
}

/// The part of a place of the page of a request, on the state that the page was begun on: it is shown as it was kept where that
/// is fresh, and else it is built, and kept where it may be. In the place of the libraries stands no part. Where there is no memory
/// for keeping something it is let go. `Err` only where memory is wanting.
/// <https://www.drupal.org/docs/8/core/modules/big-pipe/overview>
pub fn late_part<H: House>(
    alloc: Global,
    house: &mut H,
    state: &State,
    viewer: &Viewer,
    ask: &Ask,
    now: u64,
    hole: &Hole,
) -> Result<Part, AllocError>
    requires viewer { viewer.now ≡ named_viewer state.now.rows ask.now.cookie now }
    requires seen { IsSeenIn (H.sees house.old) state.now }
    requires right { IsAsk ask.now }
    ensures moves { Moves (H.sees house.old) (H.sees house.new) }
    ensures stays { Stays (H.sees house.old) (H.sees house.new) }
    ensures shows { IfOk result (λ p. PartShows (visit_on state.now viewer.now ask.now now) hole.now (part_of p)) }
    ensures told { IfOk result (λ p. Tells (record { state = state.now; viewer = viewer.now; ask = ask.now; moment = now }) (OfPart (visit_on state.now viewer.now ask.now now) hole.now) (H.sees house.old) (H.sees house.new) 0 p.built) }
{
    match hole {
        Hole::Meta => Ok(Part {
            parts: Parts::with_capacity(alloc, 0)?,
            libraries: Vec::new(alloc),
            built: 0,
        }),
        Hole::Fragment(fragment) => {
            let account = Account::new(alloc, state, viewer)?;
            let reader = Reader::new(state, &account, ask, now);
            let child = some_fragment(alloc, house, &reader, fragment)?;
            whole_part(alloc, &child)
        }
    }
}

/// What stands in a place, as a part.
fn whole_part(alloc: Global, child: &Child) -> Result<Part, AllocError>
    ensures shows { IfOk result (λ p. (v : Visit) (f : Shown) → IsHere meaning (subject_is.Fragment f) v (arc_value child.now.entry) → FragmentShows v f (part_of p)) }
    ensures built { IfOk result (λ p. p.built ≡ child.now.built) }
{
    let entry = &child.entry;
    let nothing = Arc::new(alloc, Bytes::new(Vec::new(alloc)))?;
    let parts = shared_text(alloc, entry.segments.parts(), &nothing)?;
    let mut libraries = Vec::new(alloc);
    libraries.extend_from_slice(entry.libraries.as_slice())?;
    Ok(Part {
        parts,
        libraries,
        built: child.built,
    })
}

/// The template of a part, with the number of its place and the names of its libraries, in shared pieces. `Err` only where memory is
/// wanting.
pub fn template(alloc: Global, number: u64, part: &Part) -> Result<Parts, AllocError>
    ensures { IfOk result (λ text. text ≡ part_text number (part_of part.now)) }
{
    let names = names_of(alloc, part.libraries.as_slice())?;
    let start = template_start(alloc, number, names.as_slice())?;
    let end = Vec::from_slice(alloc, template_end())?;
    let pieces = part.parts.as_slice();
    let mut text = Parts::with_capacity(alloc, pieces.len().saturating_add(2))?;
    text.push(Arc::new(alloc, Bytes::new(start))?)?;
    append(&mut text, pieces)?;
    text.push(Arc::new(alloc, Bytes::new(end))?)?;
    Ok(text)
}

/// Appends pieces to a text, which shares them.
#[tactic(auto, unfolding(html_out::specs::Segment::joined))]
fn append(text: &mut Parts, pieces: &[Arc<Bytes>]) -> Result<(), AllocError>
    ensures { OnOk result (text.new ≡ text.old ++ joined pieces.now) }
{
    for piece in pieces {
        text.push(Arc::try_clone(piece)?)?;
    }
    Ok(())
}
