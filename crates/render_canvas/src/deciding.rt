//! Access, as builders ask for it through a canvas.
ghost use Rattle.std.specs.Prelude.{◌≡◌, [], Some, IsSome, All};
ghost use Rattle.indexed_rows.specs.Rows.{type_of, node_of, term_of, user_of};
ghost use Rattle.content_state.specs.There.{IsThere};
ghost use Rattle.content_state.specs.Plan.{folded};
ghost use Rattle.site_access.specs.Plans.{node_access, field_access};
ghost use Rattle.site_access.specs.Terms.{term_access};
ghost use Rattle.site_access.specs.Users.{user_access};
ghost use Rattle.site_access.specs.Routes.{route_access};
ghost use Rattle.site_lists.specs.ListingPlan.{with_viewable};
ghost use Rattle.render_canvas.specs.Reads.{may_view_node};
ghost use Rattle.render_canvas.specs.Decision.{decision_of, HasField};
ghost use Rattle.render_canvas.specs.Canvas.{Renders, Fails};

use crate::canvas::Canvas;
use access_result::Reason;
use cacheability::{Name, Op};
use content_rows::Node;
use content_state::Route;

impl<'a> Canvas<'a> {
    /// Whether the viewer may do something to a node that is there, or else why not. Where memory is wanting it is denied
    /// in vain.
    pub fn node_access(&mut self, op: Op, n: u32) -> Result<(), Reason>
        requires { IsSome (node_of self.old.visit.rows n) }
        ensures { Renders (node_access op n) self.old (decision_of result) self.new }
    {
        match self
            .account
            .note_node(self.alloc, self.state, op, n, &mut self.cacheability)
        {
            Ok(decision) => decision,
            Err(_) => self.denied_in_vain(),
        }
    }

    /// Whether the viewer may do something to a field of a node that is there and whose type has the field, or else why not.
    pub fn field_access(&mut self, op: Op, n: u32, node: &Node, field: &Name) -> Result<(), Reason>
        requires node_is { node_of self.old.visit.rows n ≡ Some node.now }
        requires has_field { HasField (type_of self.old.visit.rows node.now.node_type) field.now }
        ensures { Renders (field_access op n node.now.node_type field.now) self.old (decision_of result) self.new }
    {
        match self.account.note_field(
            self.alloc,
            self.state,
            op,
            n,
            field,
            &mut self.cacheability,
        ) {
            Ok(decision) => decision,
            Err(_) => self.denied_in_vain(),
        }
    }

    /// Whether the viewer may view a term that is there, or else why not.
    pub fn term_access(&mut self, tid: u32) -> Result<(), Reason>
        requires { IsSome (term_of self.old.visit.rows tid) }
        ensures { Renders (term_access tid) self.old (decision_of result) self.new }
    {
        match self
            .account
            .note_term(self.alloc, self.state, tid, &mut self.cacheability)
        {
            Ok(decision) => decision,
            Err(_) => self.denied_in_vain(),
        }
    }

    /// Whether the viewer may view the profile of a user that is there, or else why not.
    pub fn user_access(&mut self, uid: u32) -> Result<(), Reason>
        requires { IsSome (user_of self.old.visit.rows uid) }
        ensures { Renders (user_access uid) self.old (decision_of result) self.new }
    {
        match self
            .account
            .note_user(self.alloc, self.state, uid, &mut self.cacheability)
        {
            Ok(decision) => decision,
            Err(_) => self.denied_in_vain(),
        }
    }

    /// Whether the viewer may view what a route leads to, which is there, or else why not.
    pub fn route_access(&mut self, to: &Route) -> Result<(), Reason>
        requires { IsThere self.old.visit.rows to.now }
        ensures { Renders (route_access to.now) self.old (decision_of result) self.new }
    {
        match self
            .account
            .note_route(self.alloc, self.state, to, &mut self.cacheability)
        {
            Ok(decision) => decision,
            Err(_) => self.denied_in_vain(),
        }
    }

    /// Those of the nodes, which are there, that the viewer may view, in their order: the account is asked of all of them
    /// at once. Where memory is wanting, some of them in vain.
    pub fn viewable(&mut self, ids: &[u32]) -> Vec<u32>
        requires { All (λ n. IsSome (node_of self.old.visit.rows n)) ids.now }
        ensures { Renders (folded (with_viewable may_view_node) [] ids.now) self.old result.items self.new }
    {
        let mut found = Vec::new(self.alloc);
        match self.account.note_viewable(
            self.alloc,
            self.state,
            ids,
            &mut found,
            &mut self.cacheability,
        ) {
            Ok(()) => found,
            Err(_) => {
                self.fail();
                found
            }
        }
    }

    /// A denial for want of memory.
    fn denied_in_vain(&mut self) -> Result<(), Reason>
        ensures { Fails self.old self.new }
    {
        self.fail();
        Err(Reason::NoSession)
    }
}
