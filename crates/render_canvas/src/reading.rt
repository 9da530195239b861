//! What builders read through a canvas: rows, contexts, and what lists and trails are made of.
ghost use Rattle.std.specs.Prelude.{◌≡◌, Some, IsSome, IfOk, All, map};
ghost use Rattle.std.specs.Option.{option_copied};
ghost use Rattle.std.specs.Str.{bytes_eq};
ghost use Rattle.cacheability.specs.declared.context.Context.TheVariants as context;
ghost use Rattle.indexed_rows.specs.Rows.{term_of, user_of, menu_of, listing_of, block_of, node_of};
ghost use Rattle.content_state.specs.Read.{TermRow, UserRow, MenuRow, ListingRow, BlockRow, CommentRow, CommentsOf};
ghost use Rattle.content_state.specs.Comments.{shown_comment};
ghost use Rattle.content_state.specs.Plan.{reading, asking};
ghost use Rattle.content_state.specs.Met.{result_of};
ghost use Rattle.site_access.specs.Plans.{holds};
ghost use Rattle.site_lists.specs.ListingPlan.{among, terms_for, candidate_rows, moment_within, asked_page};
ghost use Rattle.site_lists.specs.Paging.{value_in, page_asked, page_name};
ghost use Rattle.site_lists.specs.Visible.{visible, for_viewer, on_path, at_front, names_front, front_word};
ghost use Rattle.render_canvas.specs.Reads.{region_names, by_viewer};
ghost use Rattle.render_canvas.specs.Canvas.{Renders};

use crate::canvas::Canvas;
use cacheability::{Context, Name, Tag};
use content_rows::{Block, Comment, Listing, Menu, Region, Term, Text, User};
use site_lists::{
    active_trail, block_visible, blocks_of, candidates, list_tags, page_asked, query_value,
};
use std::alloc::{AllocError, Global};

impl<'a> Canvas<'a> {
    /// The term of that number, if there is one.
    pub fn term(&mut self, tid: u32) -> Option<&'a Term>
        ensures shows { Renders (reading (TermRow tid)) self.old (option_copied result) self.new }
        ensures there { option_copied result ≡ term_of self.old.visit.rows tid }
    {
        let (term, tag) = self.state.term(tid);
        self.tag(tag);
        term
    }

    /// The user of that number, if there is one.
    pub fn user(&mut self, uid: u32) -> Option<&'a User>
        ensures shows { Renders (reading (UserRow uid)) self.old (option_copied result) self.new }
        ensures there { option_copied result ≡ user_of self.old.visit.rows uid }
    {
        let (user, tag) = self.state.user(uid);
        self.tag(tag);
        user
    }

    /// The comment of that number, if there is one.
    pub fn comment(&mut self, cid: u32) -> Option<&'a Comment>
        ensures { Renders (reading (CommentRow cid)) self.old (option_copied result) self.new }
    {
        let (comment, tag) = self.state.comment(cid);
        self.tag(tag);
        comment
    }

    /// The comments of a node, by their numbers. Where memory is wanting, none.
    pub fn comments_on(&mut self, n: u32) -> Vec<(u32, &'a Comment)>
        ensures { Renders (reading (CommentsOf n)) self.old (map shown_comment result.items) self.new }
    {
        match self.state.comments_on(self.alloc, n) {
            Ok(comments) => {
                self.tag(Tag::CommentList(n));
                comments
            }
            Err(_) => {
                self.fail();
                Vec::new(self.alloc)
            }
        }
    }

    /// The menu of that name, if there is one.
    pub fn menu(&mut self, name: Name) -> Option<&'a Menu>
        ensures shows { Renders (reading (MenuRow name)) self.old (option_copied result) self.new }
        ensures there { option_copied result ≡ menu_of self.old.visit.rows name }
    {
        let (menu, tag) = self.state.menu(name);
        self.tag(tag);
        menu
    }

    /// The listing of that name, if there is one.
    pub fn listing(&mut self, name: Name) -> Option<&'a Listing>
        ensures shows { Renders (reading (ListingRow name)) self.old (option_copied result) self.new }
        ensures there { option_copied result ≡ listing_of self.old.visit.rows name }
    {
        let (listing, tag) = self.state.listing(name);
        self.tag(tag);
        listing
    }

    /// The block of that name, if there is one.
    pub fn block(&mut self, name: Name) -> Option<&'a Block>
        ensures shows { Renders (reading (BlockRow name)) self.old (option_copied result) self.new }
        ensures there { option_copied result ≡ block_of self.old.visit.rows name }
    {
        let (block, tag) = self.state.block(name);
        self.tag(tag);
        block
    }

    /// The names of a region's blocks, by weight, then by name. Where memory is wanting, none.
    pub fn block_names(&mut self, region: Region) -> Vec<Name>
        ensures { Renders (region_names region) self.old result.items self.new }
    {
        match blocks_of(self.alloc, self.state, region) {
            Ok(names) => {
                self.tag(Tag::BlockList);
                names
            }
            Err(_) => {
                self.fail();
                Vec::new(self.alloc)
            }
        }
    }

    /// The nodes that a listing has at a moment, where access to them allows, in their order; each is there. Where memory
    /// is wanting, none.
    pub fn candidates(&mut self, listing: &Listing, moment: u64) -> Vec<u32>
        ensures shows { Renders (candidate_rows listing.now moment) self.old result.items self.new }
        ensures there { All (λ n. IsSome (node_of self.old.visit.rows n)) result.items }
    {
        match candidates(self.alloc, self.state, listing, moment) {
            Ok(ids) => {
                self.by_lists(listing);
                self.by_terms(listing);
                ids
            }
            Err(_) => {
                self.fail();
                Vec::new(self.alloc)
            }
        }
    }

    /// Says that what is shown depends on the lists of nodes among which a listing chooses.
    fn by_lists(&mut self, listing: &Listing)
        ensures { Renders (among listing.now.types) self.old (result_of (among listing.now.types) self.old.visit) self.new }
    {
        match list_tags(self.alloc, listing) {
            Ok(tags) => self.all_tags(tags.as_slice()),
            Err(_) => self.fail(),
        }
    }

    /// Says that what is shown depends on which terms stand below which, where a listing has a term.
    fn by_terms(&mut self, listing: &Listing)
        ensures { Renders (terms_for listing.now.term) self.old (result_of (terms_for listing.now.term) self.old.visit) self.new }
    {
        match listing.term {
            Some(_) => self.tag(Tag::TermList),
            None => (),
        }
    }

    /// The moment of a listing that may be shown so many seconds; one of nodes of any age reads no clock.
    pub fn moment_within(&mut self, age: Option<u32>) -> u64
        ensures { Renders (moment_within age) self.old result self.new }
    {
        match age {
            Some(age) => self.clock(age),
            None => 0,
        }
    }

    /// The page that the query asks for, counted from 0.
    pub fn asked_page(&mut self) -> usize
        ensures { Renders asked_page self.old result self.new }
    {
        match page_in(self.alloc, self.ask.query.as_slice()) {
            Ok(page) => {
                self.context(Context::QueryArg(page_name()));
                page
            }
            Err(_) => {
                self.fail();
                0
            }
        }
    }

    /// Says that what is shown varies by what the viewer is permitted and granted.
    pub fn by_viewer(&mut self)
        ensures { Renders by_viewer self.old tt self.new }
    {
        self.context(Context::UserPermissions);
        self.context(Context::NodeGrantsView);
    }

    /// The ids of the links of a menu's active trail. Where memory is wanting, none.
    pub fn trail(&mut self, name: Name, menu: &Menu) -> Vec<Name>
        requires { menu_of self.old.visit.rows name ≡ Some menu.now }
        ensures { Renders (asking (context.MenuTrail name)) self.old result.items self.new }
    {
        match active_trail(self.alloc, self.state, menu, self.ask) {
            Ok(ids) => {
                self.context(Context::MenuTrail(name));
                ids
            }
            Err(_) => {
                self.fail();
                Vec::new(self.alloc)
            }
        }
    }

    /// Whether a block shows, by the viewer's roles and by the path.
    pub fn visible(&mut self, block: &Block) -> bool
        ensures { Renders (visible block.now) self.old result self.new }
    {
        let shows = block_visible(self.state, &self.account.viewer, self.ask, block);
        self.by_roles(block);
        self.by_path(block);
        shows
    }

    /// Says that what is shown varies by the viewer's roles, where a block names roles.
    fn by_roles(&mut self, block: &Block)
        ensures { Renders (for_viewer block.now.roles) self.old (result_of (for_viewer block.now.roles) self.old.visit) self.new }
    {
        match block.roles.as_slice() {
            [] => (),
            [_, ..] => self.context(Context::UserRoles),
        }
    }

    /// Says that what is shown varies by the path, where a block names paths.
    fn by_path(&mut self, block: &Block)
        ensures { Renders (on_path block.now.hide block.now.paths) self.old (result_of (on_path block.now.hide block.now.paths) self.old.visit) self.new }
    {
        match block.paths.as_slice() {
            [] => (),
            [_, ..] => {
                self.context(Context::UrlPath);
                self.by_front(names_front(block.paths.as_slice()));
            }
        }
    }

    /// Says that what is shown varies by whether the page is the front, where a block names it.
    fn by_front(&mut self, named: bool)
        ensures { Renders (at_front named) self.old (result_of (at_front named) self.old.visit) self.new }
    {
        if named {
            self.context(Context::IsFront);
        }
    }

    /// Who views: the user's number, 0 where nobody is logged in.
    pub fn viewer(&mut self) -> u32
        ensures { Renders (asking context.User) self.old result self.new }
    {
        let uid = self.account.viewer.uid;
        self.context(Context::User);
        uid
    }

    /// The token of the viewer's session, if there is one.
    pub fn session(&mut self) -> Option<Name>
        ensures { Renders (asking context.Session) self.old result self.new }
    {
        let session = self.account.viewer.session;
        self.context(Context::Session);
        session
    }

    /// Whether the viewer holds a permission.
    pub fn holds(&mut self, permission: &[u8]) -> bool
        ensures { Renders (holds permission.now) self.old result self.new }
    {
        let held = self.account.may(permission);
        self.context(Context::UserPermissions);
        held
    }
}

/// The page that a query asks for, counted from 0. `Err` only where memory is wanting.
fn page_in(alloc: Global, query: &[u8]) -> Result<usize, AllocError>
    ensures { IfOk result (λ page. page ≡ page_asked (value_in query.now page_name)) }
{
    let value = query_value(alloc, query, page_name().as_bytes())?;
    Ok(match &value {
        Some(text) => page_asked(Some(text.as_slice())),
        None => page_asked(None),
    })
}

/// The name by which a query asks for a page.
#[tactic(auto, unfolding(site_lists::specs::Paging::page_name))]
fn page_name() -> Name
    ensures { result ≡ page_name }
{
    match Name::new(b"page") {
        Ok(name) => name,
        Err(_) => unreachable!(),
    }
}

/// Whether paths name the front page.
fn names_front(paths: &[Text]) -> bool
    ensures { result ≡ names_front paths.now }
{
    paths.iter().any(|path| is_front_word(path.as_slice()))
}

#[tactic(auto, unfolding(site_lists::specs::Visible::front_word))]
fn is_front_word(path: &[u8]) -> bool
    ensures { result ≡ bytes_eq path.now front_word }
{
    path == b"<front>".as_slice()
}
