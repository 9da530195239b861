//! Elements whose places are filled in, under way.
ghost use Rattle.std.specs.Prelude.{◌≡◌, ◌∷◌, ◌++◌, [], IfOk, OnOk};
ghost use Rattle.std.specs.Arc.{arc_value};
ghost use Rattle.html_out.specs.Part.{Hole as Opening};
ghost use Rattle.content_state.specs.Plan.{bytes, Place};
ghost use Rattle.render_array.specs.Built.{plan_of};
ghost use Rattle.element_entries.specs.Keys.{visit};
ghost use Rattle.kept_pages.specs.Joins.{Begins, Reopens, Appends, Takes};

use cache_entries::Entry;
use content_state::Hole;
use element_entries::{Joined, Reader};
use html_out::{Bytes, Segments};
use render_array::{Element, build_for};
use render_canvas::Built;
use std::alloc::{AllocError, Global};
use std::sync::Arc;

/// An element with its places filled in, under way, and how many elements were built for it, up to the greatest u64.
#[derive(Drop)]
pub struct Filled {
    pub joined: Joined,
    pub built: u64,
}

/// An element that was built: what it shows, its places left open, and the whole of it, of which nothing is there yet.
#[derive(Drop)]
pub struct Begun {
    pub segments: Segments<Hole>,
    pub filled: Filled,
}

/// What stands in a place, and how many elements were built for it, up to the greatest u64.
#[derive(Drop)]
pub struct Child {
    pub entry: Arc<Entry>,
    pub built: u64,
}

/// Builds an element, and leaves its places open.
pub fn begin(alloc: Global, reader: &Reader<'_>, element: &Element) -> Result<Begun, AllocError>
    ensures { IfOk result (λ begun. Begins (plan_of reader.now.ask.path element.now) (visit reader.now) begun) }
{
    let Built {
        segments,
        cacheability,
        libraries,
        last,
        status,
    } = build_for(
        alloc,
        reader.state(),
        reader.account(),
        reader.ask(),
        reader.moment(),
        element,
    )?;
    let joined = Joined {
        segments: Segments::new(alloc),
        cacheability,
        libraries: libraries.into_vec(),
        last,
        status,
    };
    Ok(Begun {
        segments,
        filled: Filled { joined, built: 1 },
    })
}

/// The page that a kept one is to be filled in to, under way: it has what the kept one declares and attaches, and shows nothing
/// yet.
pub fn reopen(alloc: Global, frame: &Child) -> Result<Filled, AllocError>
    ensures opens { IfOk result (λ filled. Reopens (arc_value frame.now.entry) filled.joined) }
    ensures built { IfOk result (λ filled. filled.built ≡ frame.now.built) }
{
    let entry = &frame.entry;
    let mut libraries = Vec::new(alloc);
    libraries.extend_from_slice(entry.libraries.as_slice())?;
    let joined = Joined {
        segments: Segments::new(alloc),
        cacheability: entry.cacheability.duplicate(alloc)?,
        libraries,
        last: entry.last,
        status: entry.status,
    };
    Ok(Filled {
        joined,
        built: frame.built,
    })
}

/// Appends shared bytes to what was put together.
pub fn add_bytes(joined: &mut Joined, shared: &Arc<Bytes>) -> Result<(), AllocError>
    ensures { OnOk result (Appends (bytes (arc_value shared.now)) joined.old joined.new) }
{
    joined.segments.push(Arc::try_clone(shared)?)?;
    Ok(())
}

/// Appends a hole to segments. Where memory is wanting nothing is added.
pub fn push_hole<T: Copy + Drop>(segments: &mut Segments<T>, hole: &T) -> Result<(), AllocError>
    ensures { OnOk result (segments.new ≡ segments.old ++ Opening hole.now ∷ []) }
{
    segments.push_hole(*hole)?;
    Ok(())
}

/// Appends a place that stays open to what was put together.
pub fn leave_open(joined: &mut Joined, hole: &Hole) -> Result<(), AllocError>
    ensures { OnOk result (Appends (Place hole.now ∷ []) joined.old joined.new) }
{
    push_hole(&mut joined.segments, hole)?;
    Ok(())
}

/// Appends a child to what was put together, and takes over what it declares and attaches, and until when it may be shown.
pub fn add_child(alloc: Global, joined: &mut Joined, child: &Entry) -> Result<(), AllocError>
    ensures { OnOk result (Takes child.now joined.old joined.new) }
{
    joined.segments.append(&child.segments)?;
    joined
        .libraries
        .extend_from_slice(child.libraries.as_slice())?;
    joined.cacheability.merge(alloc, &child.cacheability)?;
    joined.last = joined.last.min(child.last);
    Ok(())
}
