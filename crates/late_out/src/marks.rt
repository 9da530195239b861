//! Marks of places, and the templates of what belongs there.
ghost use Rattle.std.specs.Prelude.{◌≡◌, ◌++◌, IfOk, OnOk, map};
ghost use Rattle.std.specs.Fmt.{decimal};
ghost use Rattle.late_out.specs.Marks as marks;

use std::alloc::{AllocError, Global};

/// The text that ends a page. It takes no memory.
#[tactic(auto, unfolding(crate::specs::Marks::body_end))]
pub fn body_end() -> &'static [u8]
    ensures { result.now ≡ marks.body_end }
{
    b"</body></html>"
}

/// The text that ends a template. It takes no memory.
#[tactic(auto, unfolding(crate::specs::Marks::template_end))]
pub fn template_end() -> &'static [u8]
    ensures { result.now ≡ marks.template_end }
{
    b"</template>"
}

/// Adds a number in decimal.
fn add_number(alloc: Global, text: &mut Vec<u8>, number: u64) -> Result<(), AllocError>
    ensures { OnOk result (text.new.items ≡ text.old.items ++ decimal number) }
{
    let digits = number.to_string(alloc)?;
    text.extend_from_slice(digits.as_bytes())?;
    Ok(())
}

/// The mark of a place, by its number. `Err` only where memory is wanting.
#[tactic(auto, unfolding(crate::specs::Marks::place_start, crate::specs::Marks::place_end))]
pub fn place_mark(alloc: Global, number: u64) -> Result<Vec<u8>, AllocError>
    ensures { IfOk result (λ text. text.items ≡ marks.place_mark number) }
{
    let mut text = Vec::from_slice(alloc, b"<div data-late=\"")?;
    add_number(alloc, &mut text, number)?;
    text.extend_from_slice(b"\"></div>")?;
    Ok(text)
}

/// Adds names, a space before each.
#[tactic(auto, unfolding(crate::specs::Marks::names_behind))]
fn add_names_behind(text: &mut Vec<u8>, names: &[&'static [u8]]) -> Result<(), AllocError>
    ensures { OnOk result (text.new.items ≡ text.old.items ++ marks.names_behind (map (λ name. name.now) names.now)) }
{
    for name in names {
        text.extend_from_slice(b" ")?;
        text.extend_from_slice(name)?;
    }
    Ok(())
}

/// Adds names, with a space between two.
fn add_names(text: &mut Vec<u8>, names: &[&'static [u8]]) -> Result<(), AllocError>
    ensures { OnOk result (text.new.items ≡ text.old.items ++ marks.spaced (map (λ name. name.now) names.now)) }
{
    match names {
        [] => Ok(()),
        [name, others @ ..] => {
            text.extend_from_slice(name)?;
            add_names_behind(text, others)
        }
    }
}

/// The start of a template: the number of its place, and the names of the libraries that its text wants. `Err` only where
/// memory is wanting.
#[tactic(auto, unfolding(crate::specs::Marks::number_start, crate::specs::Marks::names_start, crate::specs::Marks::start_end))]
pub fn template_start(
    alloc: Global,
    number: u64,
    names: &[&'static [u8]],
) -> Result<Vec<u8>, AllocError>
    ensures { IfOk result (λ text. text.items ≡ marks.template_start number (map (λ name. name.now) names.now)) }
{
    let mut text = Vec::from_slice(alloc, b"<template data-late=\"")?;
    add_number(alloc, &mut text, number)?;
    text.extend_from_slice(b"\" data-library=\"")?;
    add_names(&mut text, names)?;
    text.extend_from_slice(b"\">")?;
    Ok(text)
}
