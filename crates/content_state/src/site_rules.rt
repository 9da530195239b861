//! The rules that the rows of a site keep together.
ghost use Rattle.std.specs.Prelude.{◌≡◌, ◌↔◌, ◌||◌, if◌then◌else◌, suc, length, IsTrue, IfOk, OnOk};
ghost use Rattle.std.specs.Map.{keys_of};
ghost use Rattle.std.specs.Option.{option_copied, option_or, MatchOption};
ghost use Rattle.content_rows.specs.Permission.{anonymous as anonymous_name, authenticated as authenticated_name};
ghost use Rattle.std.specs.Str.{bytes_eq};
ghost use Rattle.indexed_rows.specs.Rows.{InOrder, user_of, term_of, node_of, listing_of, session_of};
ghost use Rattle.indexed_rows.specs.Texts.{text_of};
ghost use Rattle.content_state.specs.SiteRules.{MeetsSiteRules, IsFirstFault, cell_fault, user_fault, term_fault, node_fault, listing_fault, session_fault, has_id_from, is_id_from, is_absent, taken};
ghost use Rattle.content_state.specs.Chain.{is_longer};
ghost use Rattle.content_state.specs.Moves.{above_in};
ghost use Rattle.content_state.specs.FirstFault.{fault_at, first_among, required};
ghost use Rattle.content_state.specs.Seen.{IsSeenBefore, AddsRow, AddsText};

use crate::chain::Tree;
use crate::comment_rules::{comment_fault, talk_fault};
use crate::seen::Held;
use crate::state::State;
use cacheability::Name;
use content_rows::{Cell, Row, Text};
use indexed_rows::{Rows, Unique, text_of};
use std::alloc::{AllocError, Global};
use std::collections::BTreeSet;
use tag_counts::Counts;

/// A rule that all rows of a site keep together.
#[derive(Clone, Copy, Debug, PartialEq, Eq)]
pub enum SiteRule {
    /// `missing`: a row that every site has is not there.
    Missing,
    /// `range`: a number is too small, or too great.
    Range,
    /// `absent`: what a row names is not there.
    Absent,
    /// `taken`: a row before has it already.
    Taken,
    /// `cycle`: a chain of parents comes back to itself.
    Cycle,
    /// `deep`: a chain of parents has more than nine rows.
    Deep,
    /// `many`: a node has 1,000 comments before.
    Many,
}

/// What of a row breaks a rule.
#[derive(Clone, Copy, Debug, PartialEq, Eq)]
pub enum SiteField {
    /// `cell`: the row as a whole.
    Cell,
    /// `node`: the id of the next node, or the node of a comment.
    Node,
    /// `term`: the id of the next term.
    Term,
    /// `user`: the id of the next user.
    User,
    /// `type`: a node's type.
    Type,
    /// `uid`: the id of a user.
    Uid,
    /// `uuid`: a universal id.
    Uuid,
    /// `name`: a user's name.
    Name,
    /// `path`: the path of a node or of a listing.
    Path,
    /// `number`: the head number.
    Number,
    /// `parent`: the parent of a term or of a comment.
    Parent,
    /// `comment`: the id of the next comment.
    Comment,
}

/// Why rows are no site: the first cell, in cell order, that breaks a rule of sites, the rule, and
/// what breaks it.
#[derive(Clone, Copy, Debug)]
pub struct NotASite {
    pub cell: Cell,
    pub rule: SiteRule,
    pub field: SiteField,
}

/// Why no site was made.
#[derive(Clone, Copy, Debug)]
pub enum Refusal {
    /// The rows or the number are no site's.
    NoSite(NotASite),
    /// Memory is wanting.
    OutOfMemory,
}

/// Rows of which no site was made, handed back with the counts, and why.
#[derive(Drop)]
pub struct Refused {
    pub rows: Rows,
    pub counts: Counts,
    pub why: Refusal,
}

/// The kinds of rows whose ids are given in turn.
#[derive(Clone, Copy, Debug)]
pub enum Numbered {
    Node,
    Term,
    User,
    Comment,
}

/// Whether no cell breaks a rule of sites. `Err` only where memory is wanting.
#[tactic(auto, using(crate::proofs::Faults::meets, crate::proofs::Faults::refutes))]
pub fn meets_site_rules(alloc: Global, state: &State) -> Result<bool, AllocError>
    ensures { IfOk result (λ meets. IsTrue meets ↔ MeetsSiteRules state.now.rows) }
{
    match first_fault(alloc, state) {
        Ok(Some(_)) => Ok(false),
        Ok(None) => Ok(true),
        Err(wanting) => Err(wanting),
    }
}

/// The first cell, in cell order, that breaks a rule of sites, with the rule and what breaks it. What no two rows may have
/// is sought in a sorted set of what the rows before have. `Err` only where memory is wanting.
pub fn first_fault(alloc: Global, state: &State) -> Result<Option<NotASite>, AllocError>
    ensures { IfOk result (λ fault. MatchOption fault (MeetsSiteRules state.now.rows) (IsFirstFault state.now.rows)) }
{
    match required_fault(state) {
        Some(fault) => Ok(Some(fault)),
        None => later_fault(alloc, state),
    }
}

/// The first of the cells that are there, and of the next id of a comment, which breaks a rule.
fn later_fault(alloc: Global, state: &State) -> Result<Option<NotASite>, AllocError>
    ensures in_order { InOrder state.now.rows }
    ensures first { IfOk result (λ fault. fault ≡ option_or (first_among state.now.rows (keys_of state.now.rows)) (fault_at Cell.Talk (cell_fault state.now.rows Cell.Talk))) }
{
    let fault = present_fault(alloc, state)?;
    Ok(fault.or(found(Cell::Talk, talk_fault(state))))
}

/// The first of the cells that are to be there which breaks a rule.
fn required_fault(state: &State) -> Option<NotASite>
    ensures { result ≡ first_among state.now.rows required }
{
    let site = found(Cell::Site, site_fault(state));
    let seq = found(Cell::Seq, seq_fault(state));
    let visitors = missing_role(state, anonymous());
    let members = missing_role(state, authenticated());
    site.or(seq.or(visitors.or(members)))
}

/// The fault of a role that every site has, unless it is there, with its cell.
fn missing_role(state: &State, name: Name) -> Option<NotASite>
    ensures { result ≡ fault_at (Cell.Role name) (cell_fault state.now.rows (Cell.Role name)) }
{
    found(Cell::Role(name), role_fault(state, &name))
}

/// The first of the cells that are there which breaks a rule.
fn present_fault(alloc: Global, state: &State) -> Result<Option<NotASite>, AllocError>
    ensures in_order { InOrder state.now.rows }
    ensures first { IfOk result (λ fault. fault ≡ first_among state.now.rows (keys_of state.now.rows)) }
{
    let mut seen = BTreeSet::new(alloc);
    let entries = state.rows().in_order(alloc)?;
    'rows: for (cell, row) in entries {
        let fault = found(cell, cell_fault(state, &seen, &cell));
        if fault.is_some() {
            return Ok(fault);
        }
        note(&mut seen, row)?;
    }
    Ok(None)
}

/// The rule that a cell breaks, if it breaks one, with the cell.
fn found(cell: Cell, fault: Option<(SiteRule, SiteField)>) -> Option<NotASite>
    ensures { result ≡ fault_at cell fault }
{
    match fault {
        Some((rule, field)) => Some(NotASite { cell, rule, field }),
        None => None,
    }
}

/// The rule that a cell breaks, and with what, where what the rows before it have is known.
fn cell_fault<'a>(
    state: &'a State,
    seen: &BTreeSet<Held<'a>>,
    cell: &Cell,
) -> Option<(SiteRule, SiteField)>
    requires { IsSeenBefore state.now.rows cell.now seen.now }
    ensures { result ≡ cell_fault state.now.rows cell.now }
{
    match cell {
        Cell::Site => site_fault(state),
        Cell::Seq => seq_fault(state),
        Cell::Role(name) => role_fault(state, name),
        Cell::User(uid) => user_fault(state, seen, cell, *uid),
        Cell::Term(tid) => term_fault(state, seen, cell, *tid),
        Cell::Node(nid) => node_fault(state, seen, cell, *nid),
        Cell::Listing(name) => listing_fault(state, seen, cell, name),
        Cell::Session(token) => session_fault(state, token),
        Cell::Comment(cid) => comment_fault(state, seen, cell, *cid),
        Cell::Talk => talk_fault(state),
        Cell::NodeType(_) | Cell::Menu(_) | Cell::Block(_) | Cell::Head => None,
    }
}

/// The fault of the settings, unless they are there.
fn site_fault(state: &State) -> Option<(SiteRule, SiteField)>
    ensures { result ≡ cell_fault state.now.rows Cell.Site }
{
    missing_unless(state.site().0.is_some())
}

/// The fault of a row that every site has, unless it is there.
fn missing_unless(is_there: bool) -> Option<(SiteRule, SiteField)>
    ensures { result ≡ (if is_there then None else Some (SiteRule.Missing, SiteField.Cell)) }
{
    if is_there {
        None
    } else {
        Some((SiteRule::Missing, SiteField::Cell))
    }
}

/// The fault of a role that every site has, unless it is there.
fn role_fault(state: &State, name: &Name) -> Option<(SiteRule, SiteField)>
    ensures { result ≡ cell_fault state.now.rows (Cell.Role name.now) }
{
    missing_unless(!is_required(name) || state.role(*name).0.is_some())
}

/// Whether every site has the role of that name.
#[tactic(auto, unfolding(content_rows::specs::Permission::anonymous, content_rows::specs::Permission::authenticated))]
fn is_required(role: &Name) -> bool
    ensures { result ≡ (bytes_eq role.now anonymous_name || bytes_eq role.now authenticated_name) }
{
    role.as_bytes() == b"anonymous".as_slice() || role.as_bytes() == b"authenticated".as_slice()
}

/// The name of the role of user 0.
#[tactic(auto, unfolding(content_rows::specs::Permission::anonymous))]
fn anonymous() -> Name
    ensures { result ≡ anonymous_name }
{
    match Name::new(b"anonymous") {
        Ok(name) => name,
        Err(_) => unreachable!(),
    }
}

/// The name of the role of every other user.
#[tactic(auto, unfolding(content_rows::specs::Permission::authenticated))]
fn authenticated() -> Name
    ensures { result ≡ authenticated_name }
{
    match Name::new(b"authenticated") {
        Ok(name) => name,
        Err(_) => unreachable!(),
    }
}

/// An id that is not below the one of its kind that is to be given next; or none are there to give.
fn seq_fault(state: &State) -> Option<(SiteRule, SiteField)>
    ensures { result ≡ cell_fault state.now.rows Cell.Seq }
{
    match state.seq() {
        Some(seq) => {
            if has_id_from(state, Numbered::Node, seq.node) {
                Some((SiteRule::Range, SiteField::Node))
            } else if has_id_from(state, Numbered::Term, seq.term) {
                Some((SiteRule::Range, SiteField::Term))
            } else if has_id_from(state, Numbered::User, seq.user) {
                Some((SiteRule::Range, SiteField::User))
            } else {
                None
            }
        }
        None => Some((SiteRule::Missing, SiteField::Cell)),
    }
}

/// A user's uuid or name that a user before has.
fn user_fault<'a>(
    state: &'a State,
    seen: &BTreeSet<Held<'a>>,
    cell: &Cell,
    uid: u32,
) -> Option<(SiteRule, SiteField)>
    requires { IsSeenBefore state.now.rows cell.now seen.now }
    ensures { result ≡ user_fault state.now.rows cell.now (user_of state.now.rows uid) }
{
    match state.user(uid).0 {
        Some(user) => {
            if is_seen(state, seen, cell, Unique::UserUuid, &user.uuid) {
                Some((SiteRule::Taken, SiteField::Uuid))
            } else if is_seen(state, seen, cell, Unique::UserName, &user.name) {
                Some((SiteRule::Taken, SiteField::Name))
            } else {
                None
            }
        }
        None => None,
    }
}

/// A term's parent that is not there, its chain of parents that comes back to itself or has more than nine terms, or its uuid
/// that a term before has.
fn term_fault<'a>(
    state: &'a State,
    seen: &BTreeSet<Held<'a>>,
    cell: &Cell,
    tid: u32,
) -> Option<(SiteRule, SiteField)>
    requires { IsSeenBefore state.now.rows cell.now seen.now }
    ensures { result ≡ term_fault state.now.rows cell.now tid (term_of state.now.rows tid) }
{
    match state.term(tid).0 {
        Some(term) => {
            if is_absent_term(state, term.parent) {
                Some((SiteRule::Absent, SiteField::Parent))
            } else if state.is_deep(Tree::Terms, tid) {
                Some((long_rule(state, Tree::Terms, tid), SiteField::Parent))
            } else if is_seen(state, seen, cell, Unique::TermUuid, &term.uuid) {
                Some((SiteRule::Taken, SiteField::Uuid))
            } else {
                None
            }
        }
        None => None,
    }
}

/// Whether a term is not there, where one is named.
fn is_absent_term(state: &State, term: Option<u32>) -> bool
    ensures { result ≡ is_absent (term_of state.now.rows) term }
{
    match term {
        Some(term) => state.term(term).0.is_none(),
        None => false,
    }
}

/// The rule that a chain of parents with more than nine rows breaks. A chain of more than all rows comes back to itself.
pub(crate) fn long_rule(state: &State, tree: Tree, id: u32) -> SiteRule
    ensures { result ≡ (if is_longer (above_in state.now.rows tree) (suc (length state.now.rows)) id then SiteRule.Cycle else SiteRule.Deep) }
{
    if state.goes_on(tree, id) {
        SiteRule::Cycle
    } else {
        SiteRule::Deep
    }
}

/// A node's type or user that is not there, or its uuid or path that a row before has.
fn node_fault<'a>(
    state: &'a State,
    seen: &BTreeSet<Held<'a>>,
    cell: &Cell,
    nid: u32,
) -> Option<(SiteRule, SiteField)>
    requires { IsSeenBefore state.now.rows cell.now seen.now }
    ensures { result ≡ node_fault state.now.rows cell.now (node_of state.now.rows nid) }
{
    match state.node(nid).0 {
        Some(node) => {
            if state.node_type(node.node_type).0.is_none() {
                Some((SiteRule::Absent, SiteField::Type))
            } else if node.uid != 0 && state.user(node.uid).0.is_none() {
                Some((SiteRule::Absent, SiteField::Uid))
            } else if is_seen(state, seen, cell, Unique::NodeUuid, &node.uuid) {
                Some((SiteRule::Taken, SiteField::Uuid))
            } else {
                path_fault(state, seen, cell, &node.path)
            }
        }
        None => None,
    }
}

/// A listing's path that a row before has.
fn listing_fault<'a>(
    state: &'a State,
    seen: &BTreeSet<Held<'a>>,
    cell: &Cell,
    name: &Name,
) -> Option<(SiteRule, SiteField)>
    requires { IsSeenBefore state.now.rows cell.now seen.now }
    ensures { result ≡ listing_fault state.now.rows cell.now (listing_of state.now.rows name.now) }
{
    match state.listing(*name).0 {
        Some(listing) => path_fault(state, seen, cell, &listing.path),
        None => None,
    }
}

/// A path that a row before a cell has.
fn path_fault<'a>(
    state: &'a State,
    seen: &BTreeSet<Held<'a>>,
    cell: &Cell,
    path: &'a Option<Text>,
) -> Option<(SiteRule, SiteField)>
    requires { IsSeenBefore state.now.rows cell.now seen.now }
    ensures { result ≡ (if taken state.now.rows cell.now Unique.Path path.now then Some (SiteRule.Taken, SiteField.Path) else None) }
{
    match path {
        Some(path) if is_seen(state, seen, cell, Unique::Path, path) => {
            Some((SiteRule::Taken, SiteField::Path))
        }
        _ => None,
    }
}

/// A session's user that is not there.
fn session_fault(state: &State, token: &Name) -> Option<(SiteRule, SiteField)>
    ensures { result ≡ session_fault state.now.rows (session_of state.now.rows token.now) }
{
    match state.session(*token) {
        Some(session) if state.user(session.uid).0.is_none() => {
            Some((SiteRule::Absent, SiteField::Uid))
        }
        _ => None,
    }
}

/// Whether an id of that kind is not below the one that is to be given next.
pub(crate) fn has_id_from(state: &State, kind: Numbered, next: u32) -> bool
    ensures { result ≡ has_id_from state.now.rows kind next }
{
    'rows: for (cell, _) in state.rows().each() {
        if is_id_from(kind, next, cell) {
            return true;
        }
    }
    false
}

/// Whether a cell is of that kind and its id is not below the one that is to be given next.
fn is_id_from(kind: Numbered, next: u32, cell: &Cell) -> bool
    ensures { result ≡ is_id_from kind next cell.now }
{
    match (kind, cell) {
        (Numbered::Node, Cell::Node(id)) => next <= *id,
        (Numbered::Term, Cell::Term(id)) => next <= *id,
        (Numbered::User, Cell::User(id)) => next <= *id,
        (Numbered::Comment, Cell::Comment(id)) => next <= *id,
        _ => false,
    }
}

/// Whether a row that stands before a cell has the text already.
pub(crate) fn is_seen<'a>(
    state: &'a State,
    seen: &BTreeSet<Held<'a>>,
    cell: &Cell,
    what: Unique,
    text: &'a Text,
) -> bool
    requires { IsSeenBefore state.now.rows cell.now seen.now }
    ensures { result ≡ taken state.now.rows cell.now what (Some text.now) }
{
    seen.contains(&Held { what, text })
}

/// Notes what a row has that no other row may have.
fn note<'a>(seen: &mut BTreeSet<Held<'a>>, row: &'a Row) -> Result<(), AllocError>
    ensures { OnOk result (AddsRow seen.old seen.new row.now) }
{
    note_text(seen, Unique::NodeUuid, text_of(Unique::NodeUuid, row))?;
    note_text(seen, Unique::TermUuid, text_of(Unique::TermUuid, row))?;
    note_text(seen, Unique::UserUuid, text_of(Unique::UserUuid, row))?;
    note_text(seen, Unique::UserName, text_of(Unique::UserName, row))?;
    note_text(seen, Unique::Path, text_of(Unique::Path, row))?;
    note_text(seen, Unique::CommentUuid, text_of(Unique::CommentUuid, row))
}

/// Notes a text, if there is one.
fn note_text<'a>(
    seen: &mut BTreeSet<Held<'a>>,
    what: Unique,
    text: Option<&'a Text>,
) -> Result<(), AllocError>
    ensures { OnOk result (AddsText seen.old seen.new what (option_copied text.entry)) }
{
    match text {
        Some(text) => {
            seen.insert(Held { what, text })?;
            Ok(())
        }
        None => Ok(()),
    }
}
