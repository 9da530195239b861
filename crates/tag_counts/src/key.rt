//! The key of a count.
ghost use Rattle.std.specs.Ordering.{eq_by_cmp};
ghost use Rattle.std.specs.Cmp.{partial_equiv_from_equiv};
ghost use Rattle.std.specs.Cmp.Rules.{comparing};
ghost use Rattle.std.proofs.Common.{rules};

use bucket_map::Placed;
use cacheability::Tag;
use std::cmp::Ordering;
use std::marker::Model;

/// A tag as a key: tags stand in the order of their texts, and the bytes of a tag's text tell its bucket. Contracts see it
/// as the tag.
#[derive(Clone, Copy, Debug)]
pub(crate) struct Key(pub(crate) Tag);

impl Model for Key {
    ghost use Rattle.std.specs.Prelude.{refl};
    ghost use Rattle.cacheability.specs.declared.tag.Tag.{Tag as TagValue};

    ghost Value = { TagValue };

    ghost view = { λ k. k.0 };

    ghost inverse = { λ t. record { 0 = t } };

    ghost inverse_ok = { λ k _. refl };
}

impl PartialEq for Key {
    ghost use Rattle.cacheability.specs.Tag.{tag_cmp};

    ghost eq = { eq_by_cmp tag_cmp };

    ghost laws = { Prim.search (comparing, rules) };

    #[tactic(auto, using(crate::proofs::Tags::level_texts))]
    fn eq(&self, other: &Self) -> bool {
        self.0 == other.0
    }
}

impl Eq for Key {
    ghost laws = { Prim.search (comparing, rules) };
}

impl PartialOrd for Key {
    ghost use Rattle.std.specs.Prelude.{Some};
    ghost use Rattle.cacheability.specs.Tag.{tag_cmp};

    ghost partial_cmp = { λ a b. Some (tag_cmp a b) };

    ghost laws = { Prim.search (comparing, rules) };

    fn partial_cmp(&self, other: &Self) -> Option<Ordering> {
        Some(self.cmp(other))
    }
}

impl Ord for Key {
    ghost use Rattle.std.specs.Prelude.{refl};
    ghost use Rattle.cacheability.specs.Tag.{tag_cmp, tag_text};
    ghost use Rattle.std.specs.Cmp.Lexicographic.{on_texts};

    ghost cmp = { tag_cmp };

    ghost total = { on_texts tag_text };

    ghost matches_partial_cmp = { λ a b. refl };

    ghost matches_eq = { Prim.search (comparing, rules) };

    fn cmp(&self, other: &Self) -> Ordering {
        self.0.cmp(&other.0)
    }
}

impl Placed for Key {
    ghost use Rattle.tag_counts.specs.Key.{tag_place, tag_place_within, same_tags};

    ghost place = { tag_place };

    ghost within = { tag_place_within };

    ghost exact = { same_tags };

    fn place(&self) -> usize {
        self.0.text_sum() as usize % 1_024
    }
}
