//! A canvas, on which the builders of elements write.
ghost use Rattle.std.specs.Prelude.{◌≡◌, ◌≢◌, ◌∷◌, ◌-◌, ◌^◌, [], IfOk};
ghost use Rattle.std.specs.Option.{option_copied};
ghost use Rattle.access_result.specs.Reason.{reason_text};
ghost use Rattle.indexed_rows.specs.Rows.{type_of, node_of};
ghost use Rattle.content_state.specs.Read.{SiteRow, TypeRow, NodeRow, PathRoute};
ghost use Rattle.content_state.specs.There.{IsThere};
ghost use Rattle.content_state.specs.Plan.{write, escaped, attach, part, reading, clock};
ghost use Rattle.render_canvas.specs.Canvas.{Renders, AddsTags, AddsContext, Fails, blank};

use crate::board::Board;
use crate::built::Built;
use access_result::Reason;
use cacheability::{Cacheability, Context, MaxAge, Name, Tag};
use content_rows::{Items, Node, NodeType, Site};
use content_state::{Ask, Hole, Library, Route, State, route_of};
use site_access::Account;
use std::alloc::{AllocError, Global};
use std::marker::Model;

/// What is shown to a viewer who asks for something at a moment, under way: its pieces, the libraries that were
/// attached, and what all of it depends on. Once memory is wanting it stays broken, and a builder goes on in vain.
#[derive(Drop)]
pub struct Canvas<'a> {
    pub(crate) alloc: Global,
    pub(crate) state: &'a State,
    pub(crate) account: &'a Account,
    pub(crate) ask: &'a Ask,
    pub(crate) moment: u64,
    board: Board,
    libraries: Vec<Library>,
    pub(crate) cacheability: Cacheability,
    last: u64,
    whole: bool,
}

impl<'a> Model for Canvas<'a> {
    ghost use Rattle.std.specs.Prelude.{◌≤◌};
    ghost use Rattle.site_access.specs.Account.{IsAccountOf};
    ghost use Rattle.render_canvas.specs.Canvas.{Sheet};

    ghost Value = { Sheet };

    ghost view = { λ c. record {
      visit = record { rows = c.state.now.rows; viewer = c.account.now.viewer; ask = c.ask.now; moment = c.moment };
      shown = c.board;
      libraries = c.libraries.items;
      needs = record { tags = c.cacheability.tags; contexts = c.cacheability.contexts; last = c.last };
      age = c.cacheability.max_age;
      whole = c.whole;
    } };

    ghost invariant = { λ c. (c.moment ≤ c.last) × IsAccountOf c.state.now.rows c.account.now.viewer c.account.now };
}

impl<'a> Canvas<'a> {
    ghost use Rattle.site_access.specs.Account.{IsAccountOf};
    ghost use Rattle.render_canvas.specs.Finished.{Finishes};

    /// A canvas on which nothing is written, which depends on nothing, and which may be kept for ever.
    pub fn new(
        alloc: Global,
        state: &'a State,
        account: &'a Account,
        ask: &'a Ask,
        moment: u64,
    ) -> Canvas<'a>
        requires { IsAccountOf state.now.rows account.now.viewer account.now }
        ensures { result ≡ blank (record { rows = state.now.rows; viewer = account.now.viewer; ask = ask.now; moment = moment }) (2 ^ 64 - 1) }
    {
        Canvas {
            alloc,
            state,
            account,
            ask,
            moment,
            board: Board::new(alloc),
            libraries: Vec::new(alloc),
            cacheability: Cacheability::new(alloc),
            last: u64::MAX,
            whole: true,
        }
    }

    /// What builders take memory from.
    pub fn allocator(&self) -> Global {
        self.alloc
    }

    /// Writes bytes as they are.
    pub fn write(&mut self, bytes: &[u8])
        ensures { Renders (write bytes.now) self.old tt self.new }
    {
        if self.board.write(bytes).is_err() {
            self.whole = false;
        }
    }

    /// Writes the escaped bytes of a text.
    pub fn escaped(&mut self, text: &[u8])
        ensures { Renders (escaped text.now) self.old tt self.new }
    {
        if self.board.escaped(text).is_err() {
            self.whole = false;
        }
    }

    /// Attaches a library.
    pub fn attach(&mut self, library: Library)
        ensures { Renders (attach library) self.old tt self.new }
    {
        if self.libraries.push(library).is_err() {
            self.whole = false;
        }
    }

    /// Leaves a place open.
    pub fn open(&mut self, hole: Hole)
        ensures { Renders (part hole) self.old tt self.new }
    {
        if self.board.open(&hole).is_err() {
            self.whole = false;
        }
    }

    /// Says that what is shown depends on what the tag covers.
    pub(crate) fn tag(&mut self, tag: Tag)
        ensures { AddsTags self.old self.new (tag ∷ []) }
    {
        if self.cacheability.add_tag(tag).is_err() {
            self.whole = false;
        }
    }

    /// Says that what is shown depends on what each of the tags covers.
    pub(crate) fn all_tags(&mut self, tags: &[Tag])
        ensures { AddsTags self.old self.new tags.now }
    {
        for tag in tags {
            self.tag(*tag);
        }
    }

    /// Says that what is shown varies by the context.
    pub(crate) fn context(&mut self, context: Context)
        ensures { AddsContext self.old self.new context }
    {
        if self.cacheability.add_context(context).is_err() {
            self.whole = false;
        }
    }

    /// The settings of the site, where they are there.
    pub fn site(&mut self) -> Option<&'a Site>
        ensures { Renders (reading SiteRow) self.old (option_copied result) self.new }
    {
        let (site, tag) = self.state.site();
        self.tag(tag);
        site
    }

    /// The content type of that name, if there is one.
    pub fn node_type(&mut self, name: Name) -> Option<&'a NodeType>
        ensures shows { Renders (reading (TypeRow name)) self.old (option_copied result) self.new }
        ensures there { option_copied result ≡ type_of self.old.visit.rows name }
    {
        let (node_type, tag) = self.state.node_type(name);
        self.tag(tag);
        node_type
    }

    /// The node of that number, if there is one.
    pub fn node(&mut self, n: u32) -> Option<&'a Node>
        ensures shows { Renders (reading (NodeRow n)) self.old (option_copied result) self.new }
        ensures there { option_copied result ≡ node_of self.old.visit.rows n }
    {
        let (node, tag) = self.state.node(n);
        self.tag(tag);
        node
    }

    /// Where a path leads. What it leads to is there.
    pub fn route(&mut self, path: &[u8]) -> Route
        ensures shows { Renders (reading (PathRoute path.now)) self.old result self.new }
        ensures there { result ≢ Route.Nothing → IsThere self.old.visit.rows result }
    {
        match route_of(self.alloc, self.state, path) {
            Ok(found) => {
                self.all_tags(found.1.as_slice());
                found.0
            }
            Err(_) => {
                self.fail();
                Route::Nothing
            }
        }
    }

    /// Writes the escaped text of a reason.
    pub fn reason(&mut self, reason: &Reason)
        ensures { Renders (escaped (reason_text reason.now)) self.old tt self.new }
    {
        match reason.text(self.alloc) {
            Ok(text) => self.escaped(text.as_slice()),
            Err(_) => self.fail(),
        }
    }

    /// The moment, for what may be shown for so many seconds.
    pub fn clock(&mut self, age: u32) -> u64
        ensures { Renders (clock age) self.old result self.new }
    {
        self.last = self.last.min(self.moment.saturating_add(age as u64));
        self.cacheability.limit_age(MaxAge::Seconds(age));
        self.moment
    }

    /// Says that memory was wanting.
    pub fn fail(&mut self)
        ensures { Fails self.old self.new }
    {
        self.whole = false;
    }

    /// What was shown, with the status of its page where it is one. `Err` exactly where memory was wanting.
    pub fn finish(self, status: Option<u16>) -> Result<Built, AllocError>
        ensures { IfOk result (λ b. Finishes self.entry status b) }
    {
        if !self.whole {
            return Err(AllocError);
        }
        Ok(Built {
            segments: self.board.finish()?,
            cacheability: self.cacheability,
            libraries: Items::from_vec(self.libraries),
            last: self.last,
            status,
        })
    }
}
