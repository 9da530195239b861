//! Words: what a block shows, and the part of the page that it stands in.
ghost use Rattle.std.specs.Prelude.{◌≡◌};
ghost use Rattle.row_kinds.specs.Look.{kind_of, kind_in, kind_word, kind_data, region_of, region_in, region_word, region_data, nothing_said};

use crate::field::{Read, Write, text_in};
use content_rows::{BlockKind, Region};
use serde_json::Value;
use std::alloc::{AllocError, Global};

impl Read for BlockKind {
    ghost of = { kind_in };

    fn read(_alloc: Global, value: &Value) -> Result<Self, AllocError> {
        Ok(kind_of(text_in(value)))
    }
}

impl Write for BlockKind {
    ghost shown = { kind_data };

    ghost typed = { nothing_said };

    fn write(&self, alloc: Global) -> Result<Value, AllocError> {
        Value::try_from_str(alloc, kind_word(*self))
    }
}

impl Read for Region {
    ghost of = { region_in };

    fn read(_alloc: Global, value: &Value) -> Result<Self, AllocError> {
        Ok(region_of(text_in(value)))
    }
}

impl Write for Region {
    ghost shown = { region_data };

    ghost typed = { nothing_said };

    fn write(&self, alloc: Global) -> Result<Value, AllocError> {
        Value::try_from_str(alloc, region_word(*self))
    }
}

/// What a word says that a block shows.
fn kind_of(word: &[u8]) -> BlockKind
    ensures { result ≡ kind_of word.now }
{
    if word == b"menu".as_slice() {
        BlockKind::Menu
    } else if word == b"listing".as_slice() {
        BlockKind::Listing
    } else if word == b"greeting".as_slice() {
        BlockKind::Greeting
    } else if word == b"csrf".as_slice() {
        BlockKind::Csrf
    } else if word == b"clock".as_slice() {
        BlockKind::Clock
    } else {
        BlockKind::Text
    }
}

/// The word for what a block shows.
fn kind_word(kind: BlockKind) -> &'static str
    ensures { result.now ≡ kind_word kind }
{
    match kind {
        BlockKind::Text => "text",
        BlockKind::Menu => "menu",
        BlockKind::Listing => "listing",
        BlockKind::Greeting => "greeting",
        BlockKind::Csrf => "csrf",
        BlockKind::Clock => "clock",
    }
}

/// The part of the page that a word names.
fn region_of(word: &[u8]) -> Region
    ensures { result ≡ region_of word.now }
{
    if word == b"aside".as_slice() {
        Region::Aside
    } else if word == b"footer".as_slice() {
        Region::Footer
    } else {
        Region::Header
    }
}

/// The word for a part of the page.
fn region_word(region: Region) -> &'static str
    ensures { result.now ≡ region_word region }
{
    match region {
        Region::Header => "header",
        Region::Aside => "aside",
        Region::Footer => "footer",
    }
}
