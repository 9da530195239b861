//! Chains of parents: from a term to the one above it, from a comment to the one that it replies to, and on.
ghost use Rattle.std.specs.Prelude.{◌≡◌, suc, length};
ghost use Rattle.content_state.specs.Chain.{comes_back, is_longer, is_within, parent_in, reply_in, with_parent};
ghost use Rattle.content_state.specs.Moves.{above_in, moved_by};

use crate::state::State;

/// The most rows that a chain of parents may have.
const MOST: usize = 9;

/// What stands in trees.
#[derive(Clone, Copy)]
pub enum Tree {
    /// Terms under terms.
    Terms,
    /// Comments under the comments that they reply to.
    Comments,
}

/// A row that is to stand under another one, or under none.
#[derive(Clone, Copy)]
pub struct Move {
    pub id: u32,
    pub parent: Option<u32>,
}

impl State {
    /// Whether a term is `top` or stands below it, as far as the first nine of its chain of parents tell.
    pub fn is_within(&self, top: u32, term: u32) -> bool
        ensures { result ≡ is_within (parent_in self.now.rows) 9 top term }
    {
        is_within(self, Tree::Terms, MOST, top, term)
    }

    /// Whether a comment is `top` or replies to it, or to a reply of it, as far as the first nine of its chain of parents tell.
    pub fn is_reply_within(&self, top: u32, comment: u32) -> bool
        ensures { result ≡ is_within (reply_in self.now.rows) 9 top comment }
    {
        is_within(self, Tree::Comments, MOST, top, comment)
    }

    /// Whether the chain of parents of a term has more than so many, where the term `id` stands under this parent, or under
    /// none.
    pub fn is_longer_with(&self, id: u32, parent: Option<u32>, most: usize, start: u32) -> bool
        ensures { result ≡ is_longer (with_parent (parent_in self.now.rows) id parent) most start }
    {
        is_longer(self, Tree::Terms, Some(Move { id, parent }), most, start)
    }

    /// Whether the chain of parents of a comment has more than so many.
    pub fn is_longer_reply(&self, most: usize, start: u32) -> bool
        ensures { result ≡ is_longer (reply_in self.now.rows) most start }
    {
        is_longer(self, Tree::Comments, None, most, start)
    }

    /// Whether the chain of parents of a comment has more than so many, where the comment `id` stands under this parent, or
    /// under none.
    pub fn is_longer_reply_with(
        &self,
        id: u32,
        parent: Option<u32>,
        most: usize,
        start: u32,
    ) -> bool
        ensures { result ≡ is_longer (with_parent (reply_in self.now.rows) id parent) most start }
    {
        let made = Some(Move { id, parent });
        is_longer(self, Tree::Comments, made, most, start)
    }

    /// Whether the chain of parents of a term comes back to itself, where the term `id` stands under this parent, or under
    /// none.
    pub fn comes_back_with(&self, id: u32, parent: Option<u32>, start: u32) -> bool
        ensures { result ≡ comes_back (with_parent (parent_in self.now.rows) id parent) (length self.now.rows) start }
    {
        let made = Some(Move { id, parent });
        is_longer(self, Tree::Terms, made, MOST, start) && goes_on(self, Tree::Terms, made, start)
    }

    /// Whether the chain of parents of a row has more than nine.
    pub(crate) fn is_deep(&self, tree: Tree, id: u32) -> bool
        ensures { result ≡ is_longer (above_in self.now.rows tree) 9 id }
    {
        is_longer(self, tree, None, MOST, id)
    }

    /// Whether the chain of parents of a row has more than there are rows, and one.
    pub(crate) fn goes_on(&self, tree: Tree, id: u32) -> bool
        ensures { result ≡ is_longer (above_in self.now.rows tree) (suc (length self.now.rows)) id }
    {
        goes_on(self, tree, None, id)
    }
}

/// The parent of a row after a move, if one is made.
fn parent(state: &State, tree: Tree, made: Option<Move>, id: u32) -> Option<u32>
    ensures { result ≡ moved_by made (above_in state.now.rows tree) id }
{
    match made {
        Some(made) if made.id == id => made.parent,
        _ => stored_parent(state, tree, id),
    }
}

/// The parent of a row, if it is there and has one.
fn stored_parent(state: &State, tree: Tree, id: u32) -> Option<u32>
    ensures { result ≡ above_in state.now.rows tree id }
{
    match tree {
        Tree::Terms => parent_of_term(state, id),
        Tree::Comments => parent_of_comment(state, id),
    }
}

/// The parent of a term, if it is there and has one.
fn parent_of_term(state: &State, tid: u32) -> Option<u32>
    ensures { result ≡ parent_in state.now.rows tid }
{
    match state.term(tid).0 {
        Some(term) => term.parent,
        None => None,
    }
}

/// The comment that a comment replies to, if it is there and replies to one.
fn parent_of_comment(state: &State, cid: u32) -> Option<u32>
    ensures { result ≡ reply_in state.now.rows cid }
{
    match state.comment(cid).0 {
        Some(comment) => comment.parent,
        None => None,
    }
}

/// Whether the chain of parents of a row has more than so many.
fn is_longer(state: &State, tree: Tree, made: Option<Move>, most: usize, start: u32) -> bool
    ensures { result ≡ is_longer (moved_by made (above_in state.now.rows tree)) most start }
{
    let mut at = start;
    'steps: for _step in 0..most {
        let Some(above) = parent(state, tree, made, at) else {
            return false;
        };
        at = above;
    }
    true
}

/// Whether the chain of parents of a row has more than there are rows, and one.
fn goes_on(state: &State, tree: Tree, made: Option<Move>, start: u32) -> bool
    ensures { result ≡ is_longer (moved_by made (above_in state.now.rows tree)) (suc (length state.now.rows)) start }
{
    match parent(state, tree, made, start) {
        Some(above) => is_longer(state, tree, made, state.rows().len(), above),
        None => false,
    }
}

/// Whether one is among the first so many of the chain of parents of another.
fn is_within(state: &State, tree: Tree, most: usize, top: u32, start: u32) -> bool
    ensures { result ≡ is_within (above_in state.now.rows tree) most top start }
{
    let mut at = start;
    'steps: for _step in 0..most {
        if at == top {
            return true;
        }
        let Some(above) = stored_parent(state, tree, at) else {
            return false;
        };
        at = above;
    }
    false
}
