//! The text of a page, and the lines of its libraries.
ghost use Rattle.std.specs.Prelude.{◌≡◌, ◌++◌, IfOk, OnOk, length};
ghost use Rattle.std.specs.List.{list_any};
ghost use Rattle.html_out.specs.Segment.{part_of, parts_of};
ghost use Rattle.render_canvas.specs.Board.{pieces_of};
ghost use Rattle.render_array.specs.Shown.{library_name, place_of, same_library, meta_line, meta_text, OnlyMeta, IsFilled};
ghost use Rattle.content_state.specs.declared.element.Library.{Library as LibraryView};
ghost use Rattle.renderer.specs.Filled.{text_in, text_of};
ghost use Rattle.renderer.specs.Noted.{is_noted, none_noted, noted_line, with_noted};

use content_state::{Hole, Library};
use html_out::Segment;
use std::alloc::{AllocError, Global};

/// The bytes of parts, with a line for each library that was attached at the libraries' place. `Err` only where memory is
/// wanting.
pub fn assembled(
    alloc: Global,
    parts: &[Segment<Hole>],
    attached: &[Library],
) -> Result<Vec<u8>, AllocError>
    ensures { IfOk result (λ page. OnlyMeta (pieces_of (parts_of parts.now)) → IsFilled (meta_text attached.now) (pieces_of (parts_of parts.now)) page.items) }
{
    let meta = meta_text(alloc, attached)?;
    with_meta(alloc, parts, meta.as_slice())
}

/// The text of parts, with these bytes at the place of the libraries, in room that is made once.
fn with_meta(alloc: Global, parts: &[Segment<Hole>], meta: &[u8]) -> Result<Vec<u8>, AllocError>
    ensures { IfOk result (λ page. page.items ≡ text_of meta.now (parts_of parts.now)) }
{
    let room = usize::try_from(text_len(parts, meta)).unwrap_or(usize::MAX);
    let mut page = Vec::with_capacity(alloc, room)?;
    add_text(&mut page, parts, meta)?;
    Ok(page)
}

/// How many bytes the text of parts has, with these at the place of the libraries.
fn text_len(parts: &[Segment<Hole>], meta: &[u8]) -> u128
    ensures { result ≡ length (text_of meta.now (parts_of parts.now)) }
{
    let mut total = 0;
    for part in parts {
        total += part_len(part, meta) as u128;
    }
    total
}

/// How many bytes stand in the place of a part.
fn part_len(part: &Segment<Hole>, meta: &[u8]) -> usize
    ensures { result ≡ length (text_in meta.now (part_of part.now)) }
{
    match part {
        Segment::Bytes(bytes) => bytes.len(),
        Segment::Hole(Hole::Meta) => meta.len(),
        Segment::Hole(Hole::Fragment(_)) => 0,
    }
}

/// Adds the text of parts, with these bytes at the place of the libraries. Where no other place is open it is what the parts
/// show. `Err` only where memory is wanting.
fn add_text(out: &mut Vec<u8>, parts: &[Segment<Hole>], meta: &[u8]) -> Result<(), AllocError>
    ensures { OnOk result (out.new.items ≡ out.old.items ++ text_of meta.now (parts_of parts.now)) }
{
    for part in parts {
        add_part(out, part, meta)?;
    }
    Ok(())
}

/// Adds what stands in the place of a part.
fn add_part(out: &mut Vec<u8>, part: &Segment<Hole>, meta: &[u8]) -> Result<(), AllocError>
    ensures { OnOk result (out.new.items ≡ out.old.items ++ text_in meta.now (part_of part.now)) }
{
    match part {
        Segment::Bytes(bytes) => out.extend_from_slice(bytes.as_slice()),
        Segment::Hole(Hole::Meta) => out.extend_from_slice(meta),
        Segment::Hole(Hole::Fragment(_)) => Ok(()),
    }
}

/// More bytes than the line of a library has.
const LINE_ROOM: usize = 48;

/// The lines of the libraries that were attached, each once, in the order of their names. `Err` only where memory is wanting.
#[tactic(auto, unfolding(render_array::specs::Shown::meta_text))]
pub fn meta_text(alloc: Global, attached: &[Library]) -> Result<Vec<u8>, AllocError>
    ensures { IfOk result (λ text. text.items ≡ meta_text attached.now) }
{
    let mut text = Vec::with_capacity(alloc, attached.len().saturating_mul(LINE_ROOM))?;
    let noted = noted_of(attached);
    add_meta(&mut text, &noted, Library::Clock)?;
    add_meta(&mut text, &noted, Library::Comment)?;
    add_meta(&mut text, &noted, Library::Login)?;
    add_meta(&mut text, &noted, Library::Menu)?;
    add_meta(&mut text, &noted, Library::Node)?;
    add_meta(&mut text, &noted, Library::Pager)?;
    Ok(text)
}

/// Adds the line of a library, where it was attached.
fn add_meta(text: &mut Vec<u8>, noted: &Noted, library: Library) -> Result<(), AllocError>
    ensures { OnOk result (text.new.items ≡ text.old.items ++ noted_line noted.now library) }
{
    if noted.has(library) {
        add_line(text, library)
    } else {
        Ok(())
    }
}

/// Which libraries were attached.
#[derive(Clone, Copy)]
pub struct Noted {
    pub clock: bool,
    pub comment: bool,
    pub login: bool,
    pub menu: bool,
    pub node: bool,
    pub pager: bool,
}

impl Noted {
    /// None yet.
    fn new() -> Noted
        ensures { result ≡ none_noted }
    {
        Noted {
            clock: false,
            comment: false,
            login: false,
            menu: false,
            node: false,
            pager: false,
        }
    }

    /// Whether a library was.
    fn has(&self, library: Library) -> bool
        ensures { result ≡ is_noted self.now library }
    {
        match library {
            Library::Clock => self.clock,
            Library::Comment => self.comment,
            Library::Login => self.login,
            Library::Menu => self.menu,
            Library::Node => self.node,
            Library::Pager => self.pager,
        }
    }

    /// Notes a library.
    fn note(&mut self, library: Library)
        ensures { self.new ≡ with_noted self.old library }
    {
        match library {
            Library::Clock => self.clock = true,
            Library::Comment => self.comment = true,
            Library::Login => self.login = true,
            Library::Menu => self.menu = true,
            Library::Node => self.node = true,
            Library::Pager => self.pager = true,
        }
    }
}

/// Which libraries were attached: the list is walked once.
fn noted_of(attached: &[Library]) -> Noted
    ensures { (library : LibraryView) → is_noted result library ≡ list_any (same_library library) attached.now }
{
    let mut noted = Noted::new();
    for library in attached {
        noted.note(*library);
    }
    noted
}

/// Whether a library was attached.
pub fn is_attached(attached: &[Library], library: Library) -> bool
    ensures { result ≡ list_any (same_library library) attached.now }
{
    attached
        .iter()
        .any(|other| place_of(library) == place_of(*other))
}

/// Adds the line of a library.
#[tactic(auto, unfolding(render_array::specs::Pieces::meta_start, render_array::specs::Pieces::meta_end))]
fn add_line(text: &mut Vec<u8>, library: Library) -> Result<(), AllocError>
    ensures { OnOk result (text.new.items ≡ text.old.items ++ meta_line library) }
{
    text.extend_from_slice(b"<meta name=\"library\" content=\"")?;
    text.extend_from_slice(library_name(library))?;
    text.extend_from_slice(b"\">")?;
    Ok(())
}

/// The name of a library.
#[tactic(auto, unfolding(render_array::specs::Shown::library_name))]
pub fn library_name(library: Library) -> &'static [u8]
    ensures { result.now ≡ library_name library }
{
    match library {
        Library::Clock => b"clock",
        Library::Comment => b"comment",
        Library::Login => b"login",
        Library::Menu => b"menu",
        Library::Node => b"node",
        Library::Pager => b"pager",
    }
}

/// The place of a library in the order of their names.
fn place_of(library: Library) -> u8
    ensures { result ≡ place_of library }
{
    match library {
        Library::Clock => 0,
        Library::Comment => 1,
        Library::Login => 2,
        Library::Menu => 3,
        Library::Node => 4,
        Library::Pager => 5,
    }
}
