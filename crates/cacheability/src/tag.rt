//! Cache tags.
ghost use Rattle.std.specs.Prelude.{◌≡◌, ◌↔◌, IfOk, IsTrue, Some, nat_eq, refl};
ghost use Rattle.std.specs.List.{sum};
ghost use Rattle.std.specs.Ordering.{nat_cmp, on};
ghost use Rattle.std.specs.Cmp.{partial_equiv_from_equiv};
ghost use Rattle.std.specs.Cmp.Lexicographic.{pointwise, slice_cmp};
ghost use Rattle.std.specs.Cmp.Rules.{comparing};
ghost use Rattle.std.proofs.Common.{rules};

use crate::decimal::{digit_sum, order_of_decimals};
use crate::name::Name;
use crate::written::Written;
use std::alloc::{AllocError, Global};
use std::cmp::Ordering;

/// A cache tag: a thing that what is kept was made from, so that it is made again once the thing
/// changes (Drupal's Cache API, "Cache tags"). Tags are ordered by their texts.
#[derive(Clone, Copy, Debug)]
pub enum Tag {
    /// `config:system.site`: the site's own settings.
    Site,
    /// `config:node.type.<type>`: a content type.
    NodeType(Name),
    /// `config:user.role.<role>`: a role.
    Role(Name),
    /// `user:<uid>`: a user.
    User(u32),
    /// `taxonomy_term:<tid>`: a term.
    Term(u32),
    /// `taxonomy_term_list`: which terms there are.
    TermList,
    /// `node:<nid>`: a node.
    Node(u32),
    /// `node_list`: which nodes there are.
    NodeList,
    /// `node_list:<type>`: which nodes of a content type there are.
    NodeListOf(Name),
    /// `comment:<cid>`: a comment.
    Comment(u32),
    /// `comment_list:<nid>`: which comments a node has.
    CommentList(u32),
    /// `config:system.menu.<menu>`: a menu.
    Menu(Name),
    /// `config:views.view.<listing>`: a listing.
    Listing(Name),
    /// `config:block.block.<block>`: a block.
    Block(Name),
    /// `config:block_list`: which blocks there are.
    BlockList,
    /// `rendered`: all that was rendered.
    Rendered,
    /// `4xx-response`: answers that something is absent or denied.
    NotFound,
}

impl Tag {
    ghost use Rattle.cacheability.specs.Tag.{tag_text, tag_rank, tag_name, tag_number, tag_cmp, is_numbered};

    /// The text of the tag.
    pub fn text(&self, alloc: Global) -> Result<Vec<u8>, AllocError>
        ensures { IfOk result (λ text. text.items ≡ tag_text self.now) }
    {
        Vec::from_slice(alloc, self.written().as_slice())
    }

    /// The sum of the bytes of the tag's text, which is not written for it: the sum of what stands
    /// before the name or the number, and the sum of that.
    pub fn text_sum(&self) -> u32
        ensures { result ≡ sum (tag_text self.now) }
    {
        match self {
            Tag::Site => 1_848,
            Tag::NodeType(name) => 1_652 + name.byte_sum(),
            Tag::Role(name) => 1_661 + name.byte_sum(),
            Tag::User(number) => 505 + digit_sum(*number),
            Tag::Term(number) => 1_488 + digit_sum(*number),
            Tag::TermList => 1_969,
            Tag::Node(number) => 480 + digit_sum(*number),
            Tag::NodeList => 961,
            Tag::NodeListOf(name) => 1_019 + name.byte_sum(),
            Tag::Comment(number) => 813 + digit_sum(*number),
            Tag::CommentList(number) => 1_352 + digit_sum(*number),
            Tag::Menu(name) => 1_894 + name.byte_sum(),
            Tag::Listing(name) => 1_781 + name.byte_sum(),
            Tag::Block(name) => 1_826 + name.byte_sum(),
            Tag::BlockList => 1_750,
            Tag::Rendered => 841,
            Tag::NotFound => 1_216,
        }
    }

    /// Whether two tags are the same. They are exactly where their texts are.
    #[tactic(auto, using(crate::proofs::Texts::tags_apart))]
    pub fn equals(&self, other: &Tag) -> bool
        ensures same { IsTrue result ↔ (self.now ≡ other.now) }
        ensures same_text { IsTrue result ↔ (tag_text self.now ≡ tag_text other.now) }
    {
        self.has_parts_of(other)
    }

    /// Whether two tags are of one kind, and have the same name and number in them.
    #[tactic(auto, using(crate::proofs::Ranks::same_tags))]
    fn has_parts_of(&self, other: &Tag) -> bool
        ensures { IsTrue result ↔ (self.now ≡ other.now) }
    {
        self.rank() == other.rank()
            && self.number() == other.number()
            && self.name() == other.name()
    }

    /// Where the kind stands among the kinds, by the order of texts.
    fn rank(&self) -> u8
        ensures { result ≡ tag_rank self.now }
    {
        match self {
            Tag::NotFound => 0,
            Tag::Comment(_) => 1,
            Tag::CommentList(_) => 2,
            Tag::Block(_) => 3,
            Tag::BlockList => 4,
            Tag::NodeType(_) => 5,
            Tag::Menu(_) => 6,
            Tag::Site => 7,
            Tag::Role(_) => 8,
            Tag::Listing(_) => 9,
            Tag::Node(_) => 10,
            Tag::NodeList => 11,
            Tag::NodeListOf(_) => 12,
            Tag::Rendered => 13,
            Tag::Term(_) => 14,
            Tag::TermList => 15,
            Tag::User(_) => 16,
        }
    }

    /// The name in the tag; empty where there is none.
    fn name(&self) -> &[u8]
        ensures { result.now ≡ tag_name self.now }
    {
        match self {
            Tag::NodeType(name)
            | Tag::Role(name)
            | Tag::NodeListOf(name)
            | Tag::Menu(name)
            | Tag::Listing(name)
            | Tag::Block(name) => name.as_bytes(),
            _ => &[],
        }
    }

    /// The number in the tag; 0 where there is none.
    fn number(&self) -> u32
        ensures { result ≡ tag_number self.now }
    {
        match self {
            Tag::User(number)
            | Tag::Term(number)
            | Tag::Node(number)
            | Tag::Comment(number)
            | Tag::CommentList(number) => *number,
            _ => 0,
        }
    }

    /// Whether there is a number in the tag.
    fn is_numbered(&self) -> bool
        ensures { result ≡ is_numbered self.now }
    {
        matches!(
            self,
            Tag::User(_) | Tag::Term(_) | Tag::Node(_) | Tag::Comment(_) | Tag::CommentList(_)
        )
    }

    /// The order of two tags of one kind, by what their texts differ in.
    #[tactic(auto, using(crate::proofs::Ranks::tags_by_numbers, crate::proofs::Ranks::tags_by_names))]
    fn order_of_parts(&self, other: &Tag) -> Ordering
        requires { tag_rank self.now ≡ tag_rank other.now }
        ensures { result ≡ tag_cmp self.now other.now }
    {
        if self.is_numbered() {
            order_of_decimals(self.number(), other.number())
        } else {
            self.name().cmp(other.name())
        }
    }

    /// The text of the tag, held in place.
    fn written(&self) -> Written
        ensures { result ≡ tag_text self.now }
    {
        match self {
            Tag::Site => Written::of(b"config:system.site"),
            Tag::NodeType(name) => Written::with_name(b"config:node.type.", name),
            Tag::Role(name) => Written::with_name(b"config:user.role.", name),
            Tag::User(uid) => Written::with_number(b"user:", *uid),
            Tag::Term(tid) => Written::with_number(b"taxonomy_term:", *tid),
            Tag::TermList => Written::of(b"taxonomy_term_list"),
            Tag::Node(nid) => Written::with_number(b"node:", *nid),
            Tag::NodeList => Written::of(b"node_list"),
            Tag::NodeListOf(name) => Written::with_name(b"node_list:", name),
            Tag::Comment(cid) => Written::with_number(b"comment:", *cid),
            Tag::CommentList(nid) => Written::with_number(b"comment_list:", *nid),
            Tag::Menu(name) => Written::with_name(b"config:system.menu.", name),
            Tag::Listing(name) => Written::with_name(b"config:views.view.", name),
            Tag::Block(name) => Written::with_name(b"config:block.block.", name),
            Tag::BlockList => Written::of(b"config:block_list"),
            Tag::Rendered => Written::of(b"rendered"),
            Tag::NotFound => Written::of(b"4xx-response"),
        }
    }
}

impl PartialEq for Tag {
    ghost use Rattle.cacheability.specs.Tag.{tag_text};

    ghost eq = { on tag_text (pointwise nat_eq) };

    ghost laws = { Prim.search (comparing, rules) };

    fn eq(&self, other: &Self) -> bool {
        self.equals(other)
    }
}

impl Eq for Tag {
    ghost laws = { Prim.search (comparing, rules) };
}

impl PartialOrd for Tag {
    ghost use Rattle.cacheability.specs.Tag.{tag_text};

    ghost partial_cmp = { λ a b. Some (slice_cmp nat_cmp (tag_text a) (tag_text b)) };

    ghost laws = { Prim.search (comparing, rules) };

    fn partial_cmp(&self, other: &Self) -> Option<Ordering> {
        Some(self.cmp(other))
    }
}

impl Ord for Tag {
    ghost use Rattle.cacheability.specs.Tag.{tag_text};

    ghost cmp = { on tag_text (slice_cmp nat_cmp) };

    ghost total = { Prim.search (comparing, rules) };

    ghost matches_partial_cmp = { λ a b. refl };

    ghost matches_eq = { Prim.search (comparing, rules) };

    #[tactic(auto, using(crate::proofs::Ranks::tags_by_rank))]
    fn cmp(&self, other: &Self) -> Ordering {
        match self.rank().cmp(&other.rank()) {
            Ordering::Equal => self.order_of_parts(other),
            apart => apart,
        }
    }
}
