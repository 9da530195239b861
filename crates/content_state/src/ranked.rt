//! Nodes, terms and blocks in their places, by the indexes.
ghost use Rattle.std.specs.Prelude.{◌≡◌, ℕ, Bool};
ghost use Rattle.std.specs.List.{list_any};
ghost use Rattle.indexed_rows.specs.Rows.{terms_of};
ghost use Rattle.content_state.specs.Ranked.{published, published_of, published_with, children, terms_placed, blocks_within};

use crate::state::State;
use cacheability::Name;
use content_rows::Region;
use row_keys::{
    AllNodes, AllTerms, BlockKey, NodeRank, OfRegion, OfType, ParentKey, TermKey, TypeKey, Under,
    WithTerm,
};
use shared_set::Within;

impl State {
    /// All published nodes, in the order of listings: sticky ones first, then those made later, then those of greater ids.
    pub fn published(&self) -> Within<'_, NodeRank, AllNodes>
        ensures { result ≡ published self.now.rows }
    {
        self.indexes().nodes.within(AllNodes)
    }

    /// The published nodes of a type, in the order of listings.
    pub fn published_of(&self, node_type: Name) -> Within<'_, TypeKey, OfType>
        ensures { result ≡ published_of self.now.rows node_type }
    {
        self.indexes().types.within(OfType(node_type))
    }

    /// The published nodes with a term, in the order of listings.
    pub fn published_with(&self, term: u32) -> Within<'_, TermKey, WithTerm>
        ensures { result ≡ published_with self.now.rows term }
    {
        self.indexes().terms.within(WithTerm(term))
    }

    /// The terms right under a term, in the order of their ids.
    pub fn children(&self, parent: u32) -> Within<'_, ParentKey, Under>
        ensures { result ≡ children self.now.rows parent }
    {
        self.stands_in_order();
        self.indexes().parents.within(Under(parent))
    }

    /// All terms, each once: those under none first, then the others by the terms above them.
    pub fn terms(&self) -> Within<'_, ParentKey, AllTerms>
        ensures placed { result ≡ terms_placed self.now.rows }
        ensures each { (p : ℕ → Bool) → list_any (λ k. p k.id) result ≡ list_any (λ t. p t.0) (terms_of self.now.rows) }
    {
        self.indexes().parents.within(AllTerms)
    }

    /// The blocks of a region, by weight, then by name.
    pub fn blocks_within(&self, region: Region) -> Within<'_, BlockKey, OfRegion>
        ensures { result ≡ blocks_within self.now.rows region }
    {
        self.indexes().blocks.within(OfRegion(region))
    }
}
