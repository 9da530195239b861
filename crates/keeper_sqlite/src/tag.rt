//! The tags that texts name.
ghost use Rattle.std.specs.Prelude.{◌≡◌, IfSome};
ghost use Rattle.cacheability.specs.Tag.{tag_text};
ghost use Rattle.row_json.specs.Cells.{name_after};
ghost use Rattle.keeper_sqlite.specs.Tags.{number_of, number_after, word_tag, named_tag, placed_tag, numbered_tag, comment_tag, tag_of};

use cacheability::{Name, Tag};
use content_rows::id_of;
use json_keys::is_name;
use row_kinds::name_of;

/// The name that follows a front.
fn name_after(front: &[u8], text: &[u8]) -> Option<Name>
    ensures { result ≡ name_after front.now text.now }
{
    if !text.starts_with(front) {
        return None;
    }
    let name = &text[front.len()..];
    if is_name(name) {
        Some(name_of(name))
    } else {
        None
    }
}

/// The number that a text is in decimal.
fn number_of(text: &[u8]) -> Option<u32>
    ensures { result ≡ number_of text.now }
{
    if let Some(id) = id_of(text) {
        return Some(id);
    }
    if text == b"0".as_slice() {
        return Some(0);
    }
    if text == b"4294967295".as_slice() {
        return Some(4_294_967_295);
    }
    None
}

/// The number that follows a front.
fn number_after(front: &[u8], text: &[u8]) -> Option<u32>
    ensures { result ≡ number_after front.now text.now }
{
    if text.starts_with(front) {
        number_of(&text[front.len()..])
    } else {
        None
    }
}

/// The tag that has one text alone.
fn word_tag(text: &[u8]) -> Option<Tag>
    ensures { result ≡ word_tag text.now }
{
    if text == b"config:system.site".as_slice() {
        return Some(Tag::Site);
    }
    if text == b"taxonomy_term_list".as_slice() {
        return Some(Tag::TermList);
    }
    if text == b"node_list".as_slice() {
        return Some(Tag::NodeList);
    }
    if text == b"config:block_list".as_slice() {
        return Some(Tag::BlockList);
    }
    if text == b"rendered".as_slice() {
        return Some(Tag::Rendered);
    }
    if text == b"4xx-response".as_slice() {
        return Some(Tag::NotFound);
    }
    None
}

/// The tag of a type, a role or the nodes of a type.
fn named_tag(text: &[u8]) -> Option<Tag>
    ensures { result ≡ named_tag text.now }
{
    if let Some(name) = name_after(b"config:node.type.", text) {
        return Some(Tag::NodeType(name));
    }
    if let Some(name) = name_after(b"config:user.role.", text) {
        return Some(Tag::Role(name));
    }
    match name_after(b"node_list:", text) {
        Some(name) => Some(Tag::NodeListOf(name)),
        None => None,
    }
}

/// The tag of a menu, a listing or a block.
fn placed_tag(text: &[u8]) -> Option<Tag>
    ensures { result ≡ placed_tag text.now }
{
    if let Some(name) = name_after(b"config:system.menu.", text) {
        return Some(Tag::Menu(name));
    }
    if let Some(name) = name_after(b"config:views.view.", text) {
        return Some(Tag::Listing(name));
    }
    match name_after(b"config:block.block.", text) {
        Some(name) => Some(Tag::Block(name)),
        None => None,
    }
}

/// The tag of a user, a term or a node.
fn numbered_tag(text: &[u8]) -> Option<Tag>
    ensures { result ≡ numbered_tag text.now }
{
    if let Some(number) = number_after(b"user:", text) {
        return Some(Tag::User(number));
    }
    if let Some(number) = number_after(b"taxonomy_term:", text) {
        return Some(Tag::Term(number));
    }
    match number_after(b"node:", text) {
        Some(number) => Some(Tag::Node(number)),
        None => None,
    }
}

/// The tag of a comment, or of the comments of a node.
fn comment_tag(text: &[u8]) -> Option<Tag>
    ensures { result ≡ comment_tag text.now }
{
    if let Some(number) = number_after(b"comment:", text) {
        return Some(Tag::Comment(number));
    }
    match number_after(b"comment_list:", text) {
        Some(number) => Some(Tag::CommentList(number)),
        None => None,
    }
}

/// The tag that a text names, which is the text of that tag; none exactly where no tag has that text.
pub fn tag_of(text: &[u8]) -> Option<Tag>
    ensures same { result ≡ tag_of text.now }
    ensures told { IfSome result (λ tag. tag_text tag ≡ text.now) }
{
    if let Some(tag) = word_tag(text) {
        return Some(tag);
    }
    if let Some(tag) = named_tag(text) {
        return Some(tag);
    }
    if let Some(tag) = placed_tag(text) {
        return Some(tag);
    }
    if let Some(tag) = numbered_tag(text) {
        return Some(tag);
    }
    match comment_tag(text) {
        Some(tag) => Some(tag),
        None => None,
    }
}
