//! Texts, by stages.
ghost use Rattle.std.specs.Prelude.{◌≡◌};
ghost use Rattle.std.specs.List.{list_all};
ghost use Rattle.cacheability.specs.Name.{is_name_byte};
ghost use Rattle.content_rows.specs.LiteralName.{is_name};
ghost use Rattle.json_keys.specs.Form.{block_kinds, regions, is_among, has_up_to, has_path_length, is_bare, is_long, is_written, is_kept, text_fault};

use crate::rule::Rule;
use crate::shape::Form;
use content_rows::{
    has_hex_digits, has_line_bytes, has_text_bytes, has_uuid_bytes, is_block_path, is_reserved,
    is_target, is_utf8,
};

/// The first rule that a text breaks.
pub(crate) fn text_fault(form: Form, text: &[u8]) -> Option<Rule>
    ensures { result ≡ text_fault form text.now }
{
    if !is_long(form, text) {
        Some(Rule::Length)
    } else if !is_written(form, text) {
        Some(Rule::Bytes)
    } else if is_kept(form, text) {
        Some(Rule::Reserved)
    } else {
        None
    }
}

/// Whether a text has 1 to so many bytes.
fn has_up_to(most: usize, text: &[u8]) -> bool
    ensures { result ≡ has_up_to most text.now }
{
    !text.is_empty() && text.len() <= most
}

/// Whether a text is as long as a path is.
fn has_path_length(text: &[u8]) -> bool
    ensures { result ≡ has_path_length text.now }
{
    2 <= text.len() && text.len() <= 256
}

/// Whether a text is a `/` alone.
fn is_bare(text: &[u8]) -> bool
    ensures { result ≡ is_bare text.now }
{
    text == b"/".as_slice()
}

/// Whether a text is as long as it may be.
pub(crate) fn is_long(form: Form, text: &[u8]) -> bool
    ensures { result ≡ is_long form text.now }
{
    match form {
        Form::Name | Form::Uuid => has_up_to(64, text),
        Form::Line(most) => has_up_to(most, text),
        Form::Heading(most) => text.len() <= most,
        Form::Body => text.len() <= 65_536,
        Form::Comment => has_up_to(65_536, text),
        Form::Hex(count) => text.len() == count,
        Form::HexOrEmpty(count) => text.len() == count || text.is_empty(),
        Form::Target | Form::Path | Form::ListingPath => has_path_length(text),
        Form::Front | Form::BlockPath => has_path_length(text) || is_bare(text),
        Form::BlockKind | Form::Region => true,
    }
}

/// Whether a text has the bytes that it may have.
pub(crate) fn is_written(form: Form, text: &[u8]) -> bool
    ensures { result ≡ is_written form text.now }
{
    match form {
        Form::Name => has_name_bytes(text),
        Form::Line(_) | Form::Heading(_) => has_line_bytes(text) && is_utf8(text),
        Form::Body | Form::Comment => has_text_bytes(text) && is_utf8(text),
        Form::Uuid => has_uuid_bytes(text),
        Form::Hex(_) | Form::HexOrEmpty(_) => has_hex_digits(text),
        Form::Target | Form::Path | Form::ListingPath => is_target(text),
        Form::Front => is_target(text) || is_bare(text),
        Form::BlockPath => is_block_path(text),
        Form::BlockKind => is_block_kind(text),
        Form::Region => is_region(text),
    }
}

/// Whether a text is kept for the site's own use.
fn is_kept(form: Form, text: &[u8]) -> bool
    ensures { result ≡ is_kept form text.now }
{
    match form {
        Form::Front => is_bare(text),
        Form::Path => is_reserved(text),
        Form::ListingPath => is_reserved(text) && text != b"/node".as_slice(),
        _ => false,
    }
}

/// Whether a text is a machine name.
pub fn is_name(text: &[u8]) -> bool
    ensures { result ≡ is_name text.now }
{
    has_up_to(64, text) && has_name_bytes(text)
}

/// Whether each byte may stand in a name.
fn has_name_bytes(text: &[u8]) -> bool
    ensures { result ≡ list_all is_name_byte text.now }
{
    text.iter().all(|&byte| is_name_byte(byte))
}

/// Whether a byte may stand in a name.
fn is_name_byte(byte: u8) -> bool
    ensures { result ≡ is_name_byte byte }
{
    (b'a' <= byte && byte <= b'z') || (b'0' <= byte && byte <= b'9') || byte == b'_'
}

/// Whether a text is a word for what a block shows.
fn is_block_kind(text: &[u8]) -> bool
    ensures { result ≡ is_among block_kinds text.now }
{
    text == b"text".as_slice()
        || text == b"menu".as_slice()
        || text == b"listing".as_slice()
        || text == b"greeting".as_slice()
        || text == b"csrf".as_slice()
        || text == b"clock".as_slice()
}

/// Whether a text is a word for a part of the page.
fn is_region(text: &[u8]) -> bool
    ensures { result ≡ is_among regions text.now }
{
    text == b"header".as_slice() || text == b"aside".as_slice() || text == b"footer".as_slice()
}
