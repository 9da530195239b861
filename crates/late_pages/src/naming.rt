//! The names of libraries.
ghost use Rattle.std.specs.Prelude.{◌≡◌, ◌++◌, IfOk, map};
ghost use Rattle.late_pages.specs.Late.{name_if, names_of as names_in};

use content_state::Library;
use renderer::{is_attached, library_name};
use std::alloc::{AllocError, Global};

/// The names of the libraries that were attached, each once, in order. `Err` only where memory is wanting.
pub fn names_of(alloc: Global, attached: &[Library]) -> Result<Vec<&'static [u8]>, AllocError>
    ensures { IfOk result (λ names. map (λ name. name.now) names.items ≡ names_in attached.now) }
{
    let names = Vec::new(alloc);
    let names = with_name(names, attached, Library::Clock)?;
    let names = with_name(names, attached, Library::Comment)?;
    let names = with_name(names, attached, Library::Login)?;
    let names = with_name(names, attached, Library::Menu)?;
    let names = with_name(names, attached, Library::Node)?;
    with_name(names, attached, Library::Pager)
}

/// The names with that of a library behind them, where it was attached.
fn with_name(
    mut names: Vec<&'static [u8]>,
    attached: &[Library],
    library: Library,
) -> Result<Vec<&'static [u8]>, AllocError>
    ensures { IfOk result (λ more. map (λ name. name.now) more.items ≡ map (λ name. name.now) names.entry.items ++ name_if attached.now library) }
{
    if is_attached(attached, library) {
        names.push(library_name(library))?;
    }
    Ok(names)
}
