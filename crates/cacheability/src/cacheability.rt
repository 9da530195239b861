//! What a piece of a page says about keeping it.
ghost use Rattle.std.specs.Prelude.{◌≡◌, ◌↔◌, IfOk, OnOk, OnErr, IsTrue};
ghost use Rattle.std.specs.BTreeSet.{insert_key};
ghost use Rattle.std.specs.List.Sorted.{IsStrictlySortedBy};
ghost use Rattle.cacheability.specs.InOrder.{AddsItem, HasBoth};
ghost use Rattle.cacheability.specs.Tag.{tag_cmp};
ghost use Rattle.cacheability.specs.Context.{context_cmp};
ghost use Rattle.cacheability.specs.MaxAge.{least};

use crate::context::Context;
use crate::max_age::MaxAge;
use crate::ordered_set::{OrderedSet, take_in_both};
use crate::tag::Tag;
use std::alloc::{AllocError, Global};

/// What a piece of a page says about keeping it (Drupal's Cache API, "Cacheability metadata"): the
/// tags of all that it was made from, the contexts that it varies by, and its age. Neither set has
/// a limit of its own.
#[derive(Drop)]
pub struct Cacheability {
    /// The tags, in the order of their texts.
    pub tags: OrderedSet<Tag>,
    /// The contexts, in the order of their texts.
    pub contexts: OrderedSet<Context>,
    /// How long it may be kept.
    pub max_age: MaxAge,
}

impl Cacheability {
    ghost use Rattle.cacheability.specs.Cacheability.{
      always_same,
      joined,
      merged,
      IsInOrder,
      MustPlacehold,
    };

    /// Of what was made from nothing, varies by nothing and may be kept for ever.
    pub fn new(alloc: Global) -> Cacheability
        ensures { result ≡ always_same }
    {
        Cacheability {
            tags: OrderedSet::new(alloc),
            contexts: OrderedSet::new(alloc),
            max_age: MaxAge::Permanent,
        }
    }

    /// Adds a tag, unless it is there. Refused, all is as it was.
    pub fn add_tag(&mut self, tag: Tag) -> Result<(), AllocError>
        ensures ok { OnOk result (self.new ≡ record self.old { tags = insert_key tag_cmp self.old.tags tag }) }
        ensures exactly { OnOk result (AddsItem self.old.tags tag self.new.tags) }
        ensures ordered { IsStrictlySortedBy tag_cmp self.new.tags }
        ensures err { OnErr result (self.new ≡ self.old) }
    {
        self.tags.insert(tag)
    }

    /// Adds a context, unless it is there. Refused, all is as it was.
    pub fn add_context(&mut self, context: Context) -> Result<(), AllocError>
        ensures ok { OnOk result (self.new ≡ record self.old { contexts = insert_key context_cmp self.old.contexts context }) }
        ensures exactly { OnOk result (AddsItem self.old.contexts context self.new.contexts) }
        ensures ordered { IsStrictlySortedBy context_cmp self.new.contexts }
        ensures err { OnErr result (self.new ≡ self.old) }
    {
        self.contexts.insert(context)
    }

    /// Lowers the age to this one, if it is greater.
    pub fn limit_age(&mut self, age: MaxAge)
        ensures { self.new ≡ record self.old { max_age = least self.old.max_age age } }
    {
        self.max_age = self.max_age.least(age);
    }

    /// Takes what the other says in: the tags of both, the contexts of both, and the lesser age.
    /// Refused, all is as it was.
    pub fn merge(&mut self, alloc: Global, other: &Cacheability) -> Result<(), AllocError>
        ensures ok { OnOk result (self.new ≡ merged self.old other.now) }
        ensures tags { OnOk result (HasBoth self.old.tags other.now.tags self.new.tags) }
        ensures contexts { OnOk result (HasBoth self.old.contexts other.now.contexts self.new.contexts) }
        ensures ordered { OnOk result (IsInOrder self.new) }
        ensures err { OnErr result (self.new ≡ self.old) }
    {
        self.join(alloc, other)?;
        self.max_age = self.max_age.least(other.max_age);
        Ok(())
    }

    /// Takes the other's tags and contexts in: where they stand if its tags are few beside these,
    /// which asks for no memory most times, and else into new lists. Refused, all is as it was.
    fn join(&mut self, alloc: Global, other: &Cacheability) -> Result<(), AllocError>
        ensures ok { OnOk result (self.new ≡ joined self.old other.now) }
        ensures ordered { OnOk result (IsInOrder self.new) }
        ensures err { OnErr result (self.new ≡ self.old) }
    {
        if other.tags.is_few_beside(&self.tags) {
            return self.join_in_place(other);
        }
        self.join_anew(alloc, other)
    }

    /// Puts the other's tags and contexts into the lists that stand. Refused, all is as it was.
    fn join_in_place(&mut self, other: &Cacheability) -> Result<(), AllocError>
        ensures ok { OnOk result (self.new ≡ joined self.old other.now) }
        ensures ordered { OnOk result (IsInOrder self.new) }
        ensures err { OnErr result (self.new ≡ self.old) }
    {
        take_in_both(
            &mut self.tags,
            &other.tags,
            &mut self.contexts,
            &other.contexts,
        )
    }

    /// Makes new lists of these tags and contexts and the other's. Refused, all is as it was.
    fn join_anew(&mut self, alloc: Global, other: &Cacheability) -> Result<(), AllocError>
        ensures ok { OnOk result (self.new ≡ joined self.old other.now) }
        ensures ordered { OnOk result (IsInOrder self.new) }
        ensures err { OnErr result (self.new ≡ self.old) }
    {
        let tags = self.tags.union(alloc, &other.tags)?;
        let contexts = self.contexts.union(alloc, &other.contexts)?;
        self.tags = tags;
        self.contexts = contexts;
        Ok(())
    }

    /// Whether it is to be left out as a placeholder, and filled in for each viewer: exactly where
    /// its age is 0, or it varies by the viewer or the session.
    pub fn must_placehold(&self) -> bool
        ensures { IsTrue result ↔ MustPlacehold self.now }
    {
        self.max_age == MaxAge::Seconds(0)
            || self
                .contexts
                .as_slice()
                .iter()
                .any(|context| context.is_personal())
    }

    /// The tags, in the order of their texts, each once.
    pub fn tags(&self) -> &[Tag]
        ensures same { result.now ≡ self.now.tags }
        ensures ordered { IsStrictlySortedBy tag_cmp self.now.tags }
    {
        self.tags.as_slice()
    }

    /// The contexts, in the order of their texts, each once.
    pub fn contexts(&self) -> &[Context]
        ensures same { result.now ≡ self.now.contexts }
        ensures ordered { IsStrictlySortedBy context_cmp self.now.contexts }
    {
        self.contexts.as_slice()
    }

    /// How long it may be kept.
    pub fn max_age(&self) -> MaxAge
        ensures { result ≡ self.now.max_age }
    {
        self.max_age
    }

    /// A copy of the cacheability: its tags, its contexts and its maximum age.
    pub fn duplicate(&self, alloc: Global) -> Result<Cacheability, AllocError>
        ensures { IfOk result (λ c. c ≡ self.now) }
    {
        Ok(Cacheability {
            tags: self.tags.duplicate(alloc)?,
            contexts: self.contexts.duplicate(alloc)?,
            max_age: self.max_age,
        })
    }

    /// Whether both say the same.
    pub fn equals(&self, other: &Cacheability) -> bool
        ensures { IsTrue result ↔ (self.now ≡ other.now) }
    {
        self.max_age == other.max_age
            && same_tags(&self.tags, &other.tags)
            && same_contexts(&self.contexts, &other.contexts)
    }
}

/// Whether two sets have the same tags.
fn same_tags(one: &OrderedSet<Tag>, other: &OrderedSet<Tag>) -> bool
    ensures { IsTrue result ↔ (one.now ≡ other.now) }
{
    one.equals(other)
}

/// Whether two sets have the same contexts.
fn same_contexts(one: &OrderedSet<Context>, other: &OrderedSet<Context>) -> bool
    ensures { IsTrue result ↔ (one.now ≡ other.now) }
{
    one.equals(other)
}
