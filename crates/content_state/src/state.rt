//! The states of a site.
ghost use Rattle.std.specs.Prelude.{◌≡◌, ◌↔◌, ◌≤◌, ◌<◌, ◌+◌, ◌^◌, IfOk, IfErr, IsTrue, fold, ◌*◌, ℕ, length};
ghost use Rattle.std.specs.Arc.{arc_value};
ghost use Rattle.std.specs.Option.{option_copied, MatchOption};
ghost use Rattle.bucket_map.specs.Buckets.{AtMost};
ghost use Rattle.cell_keys.specs.Places.{cell_place};
ghost use Rattle.indexed_rows.specs.Cells.{cells_of};
ghost use Rattle.content_state.specs.Forms.{form_rows};
ghost use Rattle.indexed_rows.specs.Indexes.{AreIndexes};
ghost use Rattle.indexed_rows.specs.Write.{written};
ghost use Rattle.cacheability.specs.declared.tag.Tag.TheVariants as tag;

use crate::forms::{Forms, Named};
use crate::site_rules::{
    NotASite, Refusal, Refused, SiteField, SiteRule, first_fault, meets_site_rules,
};
use bucket_map::Steps;
use cacheability::{Name, Tag};
use content_rows::{
    Block, Cell, Comment, Listing, Menu, Node, NodeType, Role, Row, Seq, Session, Site, Talk, Term,
    User,
};
use indexed_rows::{IndexedRows, Indexes, Rows, Write};
use std::alloc::{AllocError, Global};
use std::marker::Model;
use std::sync::Arc;
use std::sync::ledger::Ledger;
use tag_counts::Counts;

/// The greatest number that a site may begin with: 2^62, so that the edits of no run lead past a u64.
const GREATEST_NUMBER: u64 = 4_611_686_018_427_387_904;

/// A state of a site: its rows, how often each tag was invalidated, and its number, which each
/// accepted edit raises by one.
pub struct State {
    // The fixed forms of paths, the same in every state. They stand first: as the last field they lie too deep for the
    // search that shows that states go between threads.
    forms: Arc<Forms>,
    rows: IndexedRows,
    counts: Counts,
    number: u64,
}

impl Drop for State {
    fn drop(self) {
        let State {
            forms: _,
            rows: _,
            counts: _,
            number: _,
        } = self;
    }
}

impl Model for State {
    ghost use Rattle.content_state.specs.State.{State as StateValue};

    ghost Value = { StateValue };

    ghost view = { λ s. record { rows = s.rows; counts = s.counts; number = s.number } };
}

impl State {
    ghost use Rattle.indexed_rows.specs.Rows.{site_of, seq_of, type_of, role_of, user_of, term_of, node_of, menu_of, listing_of, block_of, session_of, comment_of, talk_of, InOrder, AreValidRows};
    ghost use Rattle.content_state.specs.SiteRules.{MeetsSiteRules, IsNoSite, IsRefusal, IsValidState};
    ghost use Rattle.tag_counts.specs.Counts.{IsInOrder};
    ghost use Rattle.content_state.specs.Forms.{named_by};

    /// The state of these rows, counts and number, whether they are a site or not. `Err` only where memory is wanting.
    pub fn new(alloc: Global, rows: Rows, counts: Counts, number: u64) -> Result<State, AllocError>
        ensures { IfOk result (λ s. s ≡ record { rows = rows; counts = counts; number = number }) }
    {
        let forms = shared_forms(alloc)?;
        let Ok(rows) = IndexedRows::of(alloc, rows) else {
            return Err(AllocError);
        };
        Ok(State {
            rows,
            counts,
            number,
            forms,
        })
    }

    /// The state after these writes to this one, with these counts, whether it is a site or not. Each row is shared, and none
    /// is copied. `Err` only where memory is wanting.
    pub fn after<L: Ledger>(
        &self,
        alloc: Global,
        writes: &[Write],
        counts: Counts,
        steps: &mut Steps<L>,
    ) -> Result<State, AllocError>
        requires { self.now.number < 2 ^ 63 }
        ensures same { IfOk result (λ s. s ≡ record { rows = fold written self.now.rows writes.now; counts = counts; number = self.now.number + 1 }) }
        ensures cost { (most : ℕ) → AtMost cell_place self.now.rows most (cells_of writes.now) → steps.new ≤ steps.old + (most + length writes.now) * length writes.now }
    {
        Ok(State {
            rows: self.rows.after(alloc, writes, steps)?,
            counts,
            number: self.number + 1,
            forms: Arc::try_clone(&self.forms)?,
        })
    }

    /// Its rows.
    pub fn rows(&self) -> &Rows
        ensures { result.now ≡ self.now.rows }
    {
        self.rows.rows()
    }

    /// The indexes of its rows.
    pub(crate) fn indexes(&self) -> &Indexes
        ensures { AreIndexes self.now.rows result.now }
    {
        self.rows.indexes()
    }

    /// How often each tag was invalidated.
    pub fn counts(&self) -> &Counts
        ensures { result.now ≡ self.now.counts }
    {
        &self.counts
    }

    /// Its number, which each accepted edit raises by one.
    pub fn number(&self) -> u64
        ensures { result ≡ self.now.number }
    {
        self.number
    }

    /// A copy of the state, which shares each row with this one. `Err` only where memory is wanting.
    pub fn duplicate(&self, alloc: Global) -> Result<State, AllocError>
        ensures { IfOk result (λ copy. copy ≡ self.now) }
    {
        Ok(State {
            rows: self.rows.duplicate(alloc)?,
            counts: self.counts.duplicate(alloc)?,
            number: self.number,
            forms: Arc::try_clone(&self.forms)?,
        })
    }

    /// The law that the rows and the counts of every state are in order: each cell and each tag stands once.
    pub fn stands_in_order(&self)
        ensures rows { InOrder self.now.rows }
        ensures counts { IsInOrder self.now.counts }
    {
        self.rows().stands_in_order();
        let _tags = self.counts.len();
    }

    /// The valid state of these rows, each of which is right by itself, counts and number. They are refused where a
    /// cell breaks a rule of sites or the number is above 2^62, with the first cell, in cell order, that breaks a rule,
    /// the rule, and what breaks it: of a number that is too great `Cell::Head`, `Range` and `Number`, where no cell
    /// breaks a rule. They are refused, too, where memory is wanting. What is refused comes back.
    pub fn from_rows(
        alloc: Global,
        rows: Rows,
        counts: Counts,
        number: u64,
    ) -> Result<State, Refused>
        requires { AreValidRows rows }
        ensures same { IfOk result (λ s. s ≡ record { rows = rows; counts = counts; number = number }) }
        ensures valid { IfOk result (λ s. IsValidState s × (number ≤ 2 ^ 62)) }
        ensures refused { IfErr result (λ r. IsRefusal rows number r.why) }
        ensures back { IfErr result (λ r. (r.rows ≡ rows) × (r.counts ≡ counts)) }
    {
        let Ok(forms) = shared_forms(alloc) else {
            return Err(Refused {
                rows,
                counts,
                why: Refusal::OutOfMemory,
            });
        };
        let rows = match IndexedRows::of(alloc, rows) {
            Ok(rows) => rows,
            Err(rows) => {
                return Err(Refused {
                    rows,
                    counts,
                    why: Refusal::OutOfMemory,
                });
            }
        };
        let state = State {
            rows,
            counts,
            number,
            forms,
        };
        state.stands_in_order();
        let why = match state.no_site(alloc) {
            Ok(None) => return Ok(state),
            Ok(Some(fault)) => Refusal::NoSite(fault),
            Err(_) => Refusal::OutOfMemory,
        };
        Err(state.refused(why))
    }

    /// The parts, handed back with why they are no state.
    fn refused(self, why: Refusal) -> Refused
        ensures { result ≡ record { rows = self.rows; counts = self.counts; why = why } }
    {
        let State {
            rows,
            counts,
            number: _,
            forms: _,
        } = self;
        Refused {
            rows: rows.into_rows(),
            counts,
            why,
        }
    }

    /// Why the state is no site, if it is none: the first cell that breaks a rule of sites, or else the number.
    fn no_site(&self, alloc: Global) -> Result<Option<NotASite>, AllocError>
        ensures { IfOk result (λ fault. MatchOption fault (MeetsSiteRules self.now.rows × (self.now.number ≤ 2 ^ 62)) (IsNoSite self.now.rows self.now.number)) }
    {
        match first_fault(alloc, self)? {
            Some(fault) => Ok(Some(fault)),
            None if self.number <= GREATEST_NUMBER => Ok(None),
            None => Ok(Some(NotASite {
                cell: Cell::Head,
                rule: SiteRule::Range,
                field: SiteField::Number,
            })),
        }
    }

    /// Whether the state is valid: each row is right by itself, and no cell breaks a rule of sites. `Err` only where
    /// memory is wanting.
    pub fn is_valid(&self, alloc: Global) -> Result<bool, AllocError>
        ensures { IfOk result (λ valid. IsTrue valid ↔ IsValidState self.now) }
    {
        self.stands_in_order();
        if !self.rows().are_right() {
            return Ok(false);
        }
        meets_site_rules(alloc, self)
    }

    /// What a path names by one of the fixed forms of paths.
    pub(crate) fn named_by(&self, path: &[u8]) -> Option<Named>
        ensures { result ≡ named_by path.now }
    {
        self.forms.named_by(path)
    }

    /// The settings of the site, and the tag that covers reading them.
    pub fn site(&self) -> (Option<&Site>, Tag)
        ensures row { option_copied result.0 ≡ site_of self.now.rows }
        ensures tag { result.1 ≡ tag.Site }
    {
        let site = match self.rows().get(Cell::Site) {
            Some(Row::Site(site)) => Some(site),
            _ => None,
        };
        (site, Tag::Site)
    }

    /// The next ids to give. No page reads them.
    pub fn seq(&self) -> Option<&Seq>
        ensures { option_copied result ≡ seq_of self.now.rows }
    {
        match self.rows().get(Cell::Seq) {
            Some(Row::Seq(seq)) => Some(seq),
            _ => None,
        }
    }

    /// A content type, and the tag that covers reading it.
    pub fn node_type(&self, name: Name) -> (Option<&NodeType>, Tag)
        ensures row { option_copied result.0 ≡ type_of self.now.rows name }
        ensures tag { result.1 ≡ tag.NodeType name }
    {
        let node_type = match self.rows().get(Cell::NodeType(name)) {
            Some(Row::NodeType(node_type)) => Some(node_type),
            _ => None,
        };
        (node_type, Tag::NodeType(name))
    }

    /// A role, and the tag that covers reading it.
    pub fn role(&self, name: Name) -> (Option<&Role>, Tag)
        ensures row { option_copied result.0 ≡ role_of self.now.rows name }
        ensures tag { result.1 ≡ tag.Role name }
    {
        let role = match self.rows().get(Cell::Role(name)) {
            Some(Row::Role(role)) => Some(role),
            _ => None,
        };
        (role, Tag::Role(name))
    }

    /// A user, and the tag that covers reading it.
    pub fn user(&self, uid: u32) -> (Option<&User>, Tag)
        ensures row { option_copied result.0 ≡ user_of self.now.rows uid }
        ensures tag { result.1 ≡ tag.User uid }
    {
        let user = match self.rows().get(Cell::User(uid)) {
            Some(Row::User(user)) => Some(user),
            _ => None,
        };
        (user, Tag::User(uid))
    }

    /// A taxonomy term, and the tag that covers reading it.
    pub fn term(&self, tid: u32) -> (Option<&Term>, Tag)
        ensures row { option_copied result.0 ≡ term_of self.now.rows tid }
        ensures tag { result.1 ≡ tag.Term tid }
    {
        let term = match self.rows().get(Cell::Term(tid)) {
            Some(Row::Term(term)) => Some(term),
            _ => None,
        };
        (term, Tag::Term(tid))
    }

    /// A node, and the tag that covers reading it.
    pub fn node(&self, nid: u32) -> (Option<&Node>, Tag)
        ensures row { option_copied result.0 ≡ node_of self.now.rows nid }
        ensures tag { result.1 ≡ tag.Node nid }
    {
        let node = match self.rows().get(Cell::Node(nid)) {
            Some(Row::Node(node)) => Some(node),
            _ => None,
        };
        (node, Tag::Node(nid))
    }

    /// A menu, and the tag that covers reading it.
    pub fn menu(&self, name: Name) -> (Option<&Menu>, Tag)
        ensures row { option_copied result.0 ≡ menu_of self.now.rows name }
        ensures tag { result.1 ≡ tag.Menu name }
    {
        let menu = match self.rows().get(Cell::Menu(name)) {
            Some(Row::Menu(menu)) => Some(menu),
            _ => None,
        };
        (menu, Tag::Menu(name))
    }

    /// A listing, and the tag that covers reading it.
    pub fn listing(&self, name: Name) -> (Option<&Listing>, Tag)
        ensures row { option_copied result.0 ≡ listing_of self.now.rows name }
        ensures tag { result.1 ≡ tag.Listing name }
    {
        let listing = match self.rows().get(Cell::Listing(name)) {
            Some(Row::Listing(listing)) => Some(listing),
            _ => None,
        };
        (listing, Tag::Listing(name))
    }

    /// A placed block, and the tag that covers reading it.
    pub fn block(&self, name: Name) -> (Option<&Block>, Tag)
        ensures row { option_copied result.0 ≡ block_of self.now.rows name }
        ensures tag { result.1 ≡ tag.Block name }
    {
        let block = match self.rows().get(Cell::Block(name)) {
            Some(Row::Block(block)) => Some(block),
            _ => None,
        };
        (block, Tag::Block(name))
    }

    /// A session. No page reads it but through the viewer that it gives.
    pub fn session(&self, token: Name) -> Option<&Session>
        ensures { option_copied result ≡ session_of self.now.rows token }
    {
        match self.rows().get(Cell::Session(token)) {
            Some(Row::Session(session)) => Some(session),
            _ => None,
        }
    }

    /// A comment, and the tag that covers reading it.
    pub fn comment(&self, cid: u32) -> (Option<&Comment>, Tag)
        ensures row { option_copied result.0 ≡ comment_of self.now.rows cid }
        ensures tag { result.1 ≡ tag.Comment cid }
    {
        let comment = match self.rows().get(Cell::Comment(cid)) {
            Some(Row::Comment(comment)) => Some(comment),
            _ => None,
        };
        (comment, Tag::Comment(cid))
    }

    /// The next id of a comment to give, if there has been a comment. No page reads it.
    pub fn talk(&self) -> Option<&Talk>
        ensures { option_copied result ≡ talk_of self.now.rows }
    {
        match self.rows().get(Cell::Talk) {
            Some(Row::Talk(talk)) => Some(talk),
            _ => None,
        }
    }
}

/// The fixed forms of paths, to be shared by the states of a site.
fn shared_forms(alloc: Global) -> Result<Arc<Forms>, AllocError>
    ensures { IfOk result (λ forms. arc_value forms ≡ form_rows) }
{
    let forms = Forms::new(alloc)?;
    Ok(Arc::new(alloc, forms)?)
}
