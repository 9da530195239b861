//! Whether a row is right, by itself.
ghost use Rattle.std.specs.Prelude.{◌≡◌, ◌↔◌, ◌≤◌, ◌&&◌, ◌||◌, [], length, map, IsTrue, All, is_some};
ghost use Rattle.std.specs.List.{list_all, list_any, IsDistinct};
ghost use Rattle.std.specs.List.Sorted.{IsStrictlySortedBy};
ghost use Rattle.std.specs.Cmp.Lexicographic.{slice_cmp};
ghost use Rattle.std.specs.Option.{ForSome, option_copied};
ghost use Rattle.std.specs.Ordering.{nat_cmp};
ghost use Rattle.std.specs.Str.{bytes_eq};
ghost use Rattle.content_rows.specs.Kinds.{
  IsMoment,
  IsId,
  is_line,
  is_text,
  is_uuid,
  is_permission,
  is_hex,
  is_path,
  is_listing_path,
  is_block_path,
  none_or,
};
ghost use Rattle.content_rows.specs.MenuTree.{link_at, has_its_parent, reaches_top};
ghost use Rattle.content_rows.specs.ValidRow.{
  IsValidSite,
  IsValidSeq,
  IsValidField,
  IsValidNodeType,
  IsValidRole,
  IsValidUser,
  IsValidTerm,
  IsValidNode,
  IsValidLink,
  IsValidMenu,
  IsValidListing,
  IsValidBlock,
  IsValidSession,
  IsValidComment,
  IsValidTalk,
  is_clock,
  is_placed_text,
  has_name,
};

use crate::cell::Cell;
use crate::kinds::{
    are_ids, is_age_if_any, is_block_path, is_comment_body, is_hex, is_id, is_id_if_any, is_line,
    is_listing_path, is_moment, is_path, is_permission, is_span_if_any, is_target, is_text,
    is_uuid, is_weight,
};
use crate::row::{
    Block, BlockKind, Comment, FieldRow, FieldValue, Link, Listing, Menu, Node, NodeType, Role,
    Row, Seq, Session, Site, Talk, Term, User,
};
use crate::text::Text;
use cacheability::Name;

impl Row {
    ghost use Rattle.std.specs.Prelude.{◌↔◌, IsTrue};
    ghost use Rattle.content_rows.specs.ValidRow.{IsValidRow};

    /// Whether the row is right, by itself, for that cell: it is of the cell's kind, an id that the
    /// cell names is one, each value is of the kind of its key, and the values go together. Whether
    /// what the row names is there, other rows say. Takes no memory.
    pub fn is_right(&self, cell: &Cell) -> bool
        ensures { IsTrue result ↔ IsValidRow cell.now self.now }
    {
        match (cell, self) {
            (Cell::Site, Row::Site(site)) => is_right_site(site),
            (Cell::Seq, Row::Seq(seq)) => is_right_seq(seq),
            (Cell::NodeType(_), Row::NodeType(node_type)) => is_right_type(node_type),
            (Cell::Role(_), Row::Role(role)) => is_right_role(role),
            (Cell::User(id), Row::User(user)) => is_id(*id) && is_right_user(user),
            (Cell::Term(id), Row::Term(term)) => is_id(*id) && is_right_term(term),
            (Cell::Node(id), Row::Node(node)) => is_id(*id) && is_right_node(node),
            (Cell::Menu(_), Row::Menu(menu)) => is_right_menu(menu),
            (Cell::Listing(_), Row::Listing(listing)) => is_right_listing(listing),
            (Cell::Block(_), Row::Block(block)) => is_right_block(block),
            (Cell::Session(_), Row::Session(session)) => is_right_session(session),
            (Cell::Comment(id), Row::Comment(comment)) => is_id(*id) && is_right_comment(comment),
            (Cell::Talk, Row::Talk(talk)) => is_right_talk(talk),
            _ => false,
        }
    }
}

/// Whether the settings of a site are right.
fn is_right_site(site: &Site) -> bool
    ensures { IsTrue result ↔ IsValidSite site.now }
{
    is_target(site.front.as_slice()) && is_line(255, site.name.as_slice())
}

/// Whether each next id is one, or the number past the last.
fn is_right_seq(seq: &Seq) -> bool
    ensures { IsTrue result ↔ IsValidSeq seq.now }
{
    1 <= seq.node && 1 <= seq.term && 1 <= seq.user
}

/// Whether a content type is right.
fn is_right_type(node_type: &NodeType) -> bool
    ensures { IsTrue result ↔ IsValidNodeType node_type.now }
{
    node_type.fields.len() <= 32
        && are_right_fields(node_type.fields.as_slice())
        && is_line(255, node_type.label.as_slice())
        && have_distinct_names(node_type.fields.as_slice())
}

/// Whether each field of a content type is right.
fn are_right_fields(fields: &[FieldRow]) -> bool
    ensures { IsTrue result ↔ All IsValidField fields.now }
{
    fields.iter().all(is_right_field)
}

/// Whether a field of a content type is right.
fn is_right_field(field: &FieldRow) -> bool
    ensures { IsTrue result ↔ IsValidField field.now }
{
    is_permission_if_any(&field.edit)
        && is_line(64, field.label.as_slice())
        && is_permission_if_any(&field.view)
}

/// Whether each name of a field is there once.
pub fn have_distinct_names(fields: &[FieldRow]) -> bool
    ensures { IsTrue result ↔ IsDistinct bytes_eq (map (λ f. f.name) fields.now) }
{
    let mut left = fields;
    'left: while let [field, others @ ..] = left {
        if has_field(others, &field.name) {
            return false;
        }
        left = others;
    }
    true
}

/// Whether a field has the name.
fn has_field(fields: &[FieldRow], name: &Name) -> bool
    ensures { result ≡ list_any (λ f. bytes_eq name.now f.name) fields.now }
{
    fields.iter().any(|field| *name == field.name)
}

/// Whether a role is right.
fn is_right_role(role: &Role) -> bool
    ensures { IsTrue result ↔ IsValidRole role.now }
{
    role.grants.len() <= 64
        && is_line(255, role.label.as_slice())
        && role.permissions.len() <= 256
        && are_permissions(role.permissions.as_slice())
}

/// Whether each text is the name of a permission.
fn are_permissions(permissions: &[Text]) -> bool
    ensures { result ≡ list_all is_permission permissions.now }
{
    permissions
        .iter()
        .all(|permission| is_permission(permission.as_slice()))
}

/// Whether a user is right.
fn is_right_user(user: &User) -> bool
    ensures { IsTrue result ↔ IsValidUser user.now }
{
    is_moment(user.created)
        && is_digest_if_any(&user.digest)
        && user.grants.len() <= 64
        && is_line(60, user.name.as_slice())
        && user.roles.len() <= 32
        && is_salt(user.salt.as_slice())
        && is_uuid(user.uuid.as_slice())
}

/// Whether a taxonomy term is right.
fn is_right_term(term: &Term) -> bool
    ensures { IsTrue result ↔ IsValidTerm term.now }
{
    is_text(term.description.as_slice())
        && is_line(255, term.name.as_slice())
        && is_id_if_any(term.parent)
        && is_uuid(term.uuid.as_slice())
}

/// Whether a node is right.
fn is_right_node(node: &Node) -> bool
    ensures { IsTrue result ↔ IsValidNode node.now }
{
    has_right_texts(node) && has_right_numbers(node) && has_right_lists(node)
}

/// Whether the texts of a node that are no list are right.
fn has_right_texts(node: &Node) -> bool
    ensures { result ≡ (none_or is_path node.now.path && is_line 255 node.now.title && is_uuid node.now.uuid) }
{
    is_path_if_any(&node.path)
        && is_line(255, node.title.as_slice())
        && is_uuid(node.uuid.as_slice())
}

/// Whether the numbers of a node that are no list are right.
fn has_right_numbers(node: &Node) -> bool
    ensures { IsTrue result ↔ (IsMoment node.now.changed × IsMoment node.now.created × (node.now.uid ≤ 4294967294) × (1 ≤ node.now.vid)) }
{
    is_moment(node.changed) && is_moment(node.created) && node.uid <= 4_294_967_294 && 1 <= node.vid
}

/// Whether the lists of a node are right.
fn has_right_lists(node: &Node) -> bool
    ensures { IsTrue result ↔ (IsTrue (list_all (λ f. is_text f.value) node.now.fields)
        × IsStrictlySortedBy (slice_cmp nat_cmp) (map (λ f. f.name) node.now.fields)
        × (length node.now.grants ≤ 64)
        × (length node.now.refs ≤ 8)
        × All IsId node.now.refs
        × (length node.now.terms ≤ 32)
        × All IsId node.now.terms) }
{
    have_right_values(node.fields.as_slice())
        && are_in_order(node.fields.as_slice())
        && node.grants.len() <= 64
        && node.refs.len() <= 8
        && are_ids(node.refs.as_slice())
        && node.terms.len() <= 32
        && are_ids(node.terms.as_slice())
}

/// Whether the value of each field is a text.
fn have_right_values(fields: &[FieldValue]) -> bool
    ensures { result ≡ list_all (λ f. is_text f.value) fields.now }
{
    fields.iter().all(|field| is_text(field.value.as_slice()))
}

/// Whether the fields stand by the bytes of their names, each name once.
fn are_in_order(fields: &[FieldValue]) -> bool
    ensures { IsTrue result ↔ IsStrictlySortedBy (slice_cmp nat_cmp) (map (λ f. f.name) fields.now) }
{
    fields.is_sorted_by(|before, after| before.name < after.name)
}

/// Whether a menu is right.
fn is_right_menu(menu: &Menu) -> bool
    ensures { IsTrue result ↔ IsValidMenu menu.now }
{
    let links = menu.links.as_slice();
    is_line(255, menu.label.as_slice())
        && links.len() <= 256
        && are_right_links(links)
        && have_distinct_ids(links)
        && have_their_parents(links)
        && all_reach_top(links.len(), links)
        && all_reach_top(9, links)
}

/// Whether each link is right.
fn are_right_links(links: &[Link]) -> bool
    ensures { IsTrue result ↔ All IsValidLink links.now }
{
    links.iter().all(is_right_link)
}

/// Whether a link is right, beside where it stands in its menu.
fn is_right_link(link: &Link) -> bool
    ensures { IsTrue result ↔ IsValidLink link.now }
{
    is_target(link.path.as_slice()) && is_line(255, link.title.as_slice()) && is_weight(link.weight)
}

/// Whether each id of a link is there once.
pub fn have_distinct_ids(links: &[Link]) -> bool
    ensures { IsTrue result ↔ IsDistinct bytes_eq (map (λ l. l.id) links.now) }
{
    let mut left = links;
    'left: while let [link, others @ ..] = left {
        if has_link(others, &link.id) {
            return false;
        }
        left = others;
    }
    true
}

/// Whether a link has the id.
fn has_link(links: &[Link], id: &Name) -> bool
    ensures { result ≡ list_any (λ l. bytes_eq id.now l.id) links.now }
{
    links.iter().any(|link| *id == link.id)
}

/// Whether each link stands at the top, or its parent is there.
pub fn have_their_parents(links: &[Link]) -> bool
    ensures { result ≡ list_all (has_its_parent links.now) links.now }
{
    links.iter().all(|link| has_its_parent(links, link))
}

/// Whether a link stands at the top, or its parent is there.
fn has_its_parent(links: &[Link], link: &Link) -> bool
    ensures { result ≡ has_its_parent links.now link.now }
{
    match link.parent {
        Some(parent) => link_at(links, &parent).is_some(),
        None => true,
    }
}

/// The link with that id.
fn link_at<'a>(links: &'a [Link], id: &Name) -> Option<&'a Link>
    ensures { option_copied result ≡ link_at links.now id.now }
{
    links.iter().find(|link| link.id == *id)
}

/// Whether each link comes to the top within so many links, itself counted.
pub fn all_reach_top(most: usize, links: &[Link]) -> bool
    ensures { result ≡ list_all (reaches_top most links.now) links.now }
{
    links.iter().all(|link| reaches_top(most, links, link))
}

/// Whether the walk from a link to its parent and on comes to the top within so many links, the
/// first counted.
fn reaches_top(most: usize, links: &[Link], link: &Link) -> bool
    ensures { result ≡ reaches_top most links.now link.now }
{
    let mut at = link;
    'steps: for _step in 0..most {
        let Some(parent) = at.parent else {
            return true;
        };
        let Some(above) = link_at(links, &parent) else {
            return false;
        };
        at = above;
    }
    false
}

/// Whether a listing is right: an age goes with a span, and with nothing else.
fn is_right_listing(listing: &Listing) -> bool
    ensures { IsTrue result ↔ IsValidListing listing.now }
{
    is_age_if_any(listing.age)
        && is_listing_path_if_any(&listing.path)
        && is_span_if_any(listing.recent)
        && is_id_if_any(listing.term)
        && is_line(255, listing.title.as_slice())
        && listing.types.len() <= 32
        && listing.age.is_none() == listing.recent.is_none()
}

/// Whether a placed block is right.
fn is_right_block(block: &Block) -> bool
    ensures { IsTrue result ↔ IsValidBlock block.now }
{
    is_age_if_any(block.age)
        && is_heading(block.label.as_slice())
        && block.paths.len() <= 32
        && are_block_paths(block.paths.as_slice())
        && block.roles.len() <= 32
        && is_text_if_any(&block.text)
        && is_weight(block.weight)
        && has_what_its_kind_has(block)
}

/// Whether a block has an age, a name and a text exactly where its kind has them.
fn has_what_its_kind_has(block: &Block) -> bool
    ensures { IsTrue result ↔ ((is_some block.now.age ≡ is_clock block.now.kind)
        × (is_some block.now.name ≡ has_name block.now.kind)
        × (is_some block.now.text ≡ is_placed_text block.now.kind)) }
{
    let kind = block.kind;
    block.age.is_some() == (kind == BlockKind::Clock)
        && block.name.is_some() == (kind == BlockKind::Menu || kind == BlockKind::Listing)
        && block.text.is_some() == (kind == BlockKind::Text)
}

/// Whether a session is right.
fn is_right_session(session: &Session) -> bool
    ensures { IsTrue result ↔ IsValidSession session.now }
{
    is_moment(session.expires) && is_id(session.uid)
}

/// Whether a comment is right.
fn is_right_comment(comment: &Comment) -> bool
    ensures { IsTrue result ↔ IsValidComment comment.now }
{
    is_comment_body(comment.body.as_slice())
        && is_moment(comment.created)
        && is_id(comment.node)
        && is_id_if_any(comment.parent)
        && comment.uid <= 4_294_967_294
        && is_uuid(comment.uuid.as_slice())
}

/// Whether the next id of a comment is one, or the number past the last.
fn is_right_talk(talk: &Talk) -> bool
    ensures { IsTrue result ↔ IsValidTalk talk.now }
{
    1 <= talk.comment
}

/// Whether a text is the name of a permission, if it is there.
fn is_permission_if_any(text: &Option<Text>) -> bool
    ensures { result ≡ none_or is_permission text.now }
{
    match text {
        Some(text) => is_permission(text.as_slice()),
        None => true,
    }
}

/// Whether a text is 64 lower-case hex digits, if it is there.
fn is_digest_if_any(text: &Option<Text>) -> bool
    ensures { result ≡ none_or (is_hex 64) text.now }
{
    match text {
        Some(text) => is_hex(64, text.as_slice()),
        None => true,
    }
}

/// Whether a text is 32 lower-case hex digits, or empty.
fn is_salt(text: &[u8]) -> bool
    ensures { result ≡ (is_hex 32 text.now || bytes_eq text.now []) }
{
    is_hex(32, text) || text.is_empty()
}

/// Whether a node may have the path, if it is there.
fn is_path_if_any(text: &Option<Text>) -> bool
    ensures { result ≡ none_or is_path text.now }
{
    match text {
        Some(text) => is_path(text.as_slice()),
        None => true,
    }
}

/// Whether a listing may have the path, if it is there.
fn is_listing_path_if_any(text: &Option<Text>) -> bool
    ensures { result ≡ none_or is_listing_path text.now }
{
    match text {
        Some(text) => is_listing_path(text.as_slice()),
        None => true,
    }
}

/// Whether a text is a line of at most 255 bytes, or empty.
fn is_heading(text: &[u8]) -> bool
    ensures { result ≡ (is_line 255 text.now || bytes_eq text.now []) }
{
    is_line(255, text) || text.is_empty()
}

/// Whether a block may be placed at each of the paths.
fn are_block_paths(paths: &[Text]) -> bool
    ensures { result ≡ list_all is_block_path paths.now }
{
    paths.iter().all(|path| is_block_path(path.as_slice()))
}

/// Whether a text is one with no control bytes but those of lines, if it is there.
fn is_text_if_any(text: &Option<Text>) -> bool
    ensures { result ≡ none_or is_text text.now }
{
    match text {
        Some(text) => is_text(text.as_slice()),
        None => true,
    }
}
