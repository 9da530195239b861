//! The count of nodes that are read.
ghost use Rattle.std.specs.Prelude.{◌≡◌, ◌+◌, ◌<◌};
ghost use Rattle.std.specs.Option.{option_copied};
ghost use Rattle.indexed_rows.specs.Rows.{node_of};

use crate::state::State;
use content_rows::Node;
use std::marker::Model;
use std::sync::ledger::{Blank, Book, Ledger, Share};

/// How many nodes were read. A count is for proofs alone: it has no bytes, and none of it runs.
#[derive(Drop)]
pub struct NodeReads<L: Ledger> {
    book: Book<L>,
    share: Share<L>,
}

impl<L: Ledger> Model for NodeReads<L> {
    ghost use Rattle.std.specs.Prelude.{◌<◌, ℕ};

    ghost Value = { ℕ };

    ghost view = { λ r. r.book.total };

    ghost invariant = { λ r. 0 < r.share.parts };
}

impl<L: Ledger> NodeReads<L> {
    /// A count that stands at 0, in a ledger of its own.
    pub fn new(blank: Blank) -> Self
        requires name { blank.name ≡ L.name }
        requires parts { blank.parts ≡ L.parts }
        requires some { 0 < L.parts }
        ensures { result ≡ 0 }
    {
        let (book, share) = blank.open::<L>();
        NodeReads { book, share }
    }

    /// Counts one.
    fn tick(&mut self)
        ensures { self.new ≡ self.old + 1 }
    {
        self.book.add(&mut self.share, 1);
    }
}

impl State {
    /// A node, the reading of which is counted.
    pub fn node_counted<L: Ledger>(&self, nid: u32, reads: &mut NodeReads<L>) -> Option<&Node>
        ensures node { option_copied result ≡ node_of self.now.rows nid }
        ensures reads { reads.new ≡ reads.old + 1 }
    {
        reads.tick();
        let (node, _) = self.node(nid);
        node
    }
}
