//! What the values of keys are to be: what the tables of keys are made of.

/// What a text is to be. A text is judged by its length first, then by its bytes.
#[derive(Clone, Copy, Debug, PartialEq, Eq)]
pub enum Form {
    /// A machine name.
    Name,
    /// A line of 1 to so many bytes: UTF-8 without control bytes.
    Line(usize),
    /// A line of so many bytes at most, which may be empty.
    Heading(usize),
    /// A text of 65,536 bytes at most, without control bytes but those of lines.
    Body,
    /// The body of a comment: such a text of at least 1 byte.
    Comment,
    /// A universal id: 1 to 64 lower-case letters, digits and `-`.
    Uuid,
    /// So many lower-case hex digits.
    Hex(usize),
    /// So many lower-case hex digits, or none.
    HexOrEmpty(usize),
    /// A path of the site.
    Target,
    /// A path of the site that its front page shows: a bare `/` is reserved.
    Front,
    /// A path that a node may have: the site's own are reserved.
    Path,
    /// A path that a listing may have: also `/node`.
    ListingPath,
    /// A path that a block may be placed at: also `/` and `<front>`.
    BlockPath,
    /// The word for what a block shows.
    BlockKind,
    /// The word for a part of the page.
    Region,
}

/// What a value that holds no others is to be.
#[derive(Clone, Copy, Debug, PartialEq, Eq)]
pub enum Plain {
    /// `true` or `false`.
    Flag,
    /// A whole number from the first to the second.
    Whole(u64, u64),
    /// A whole number from -1,000 to 1,000.
    Weight,
    /// A text.
    Text(Form),
}

/// What the value of a column is to be, or a member of a list.
#[derive(Clone, Copy, Debug, PartialEq, Eq)]
pub enum Entry {
    /// One plain value.
    One(Plain),
    /// `null`, or one plain value.
    NullOr(Plain),
}

/// What objects in a list are to be: each is a table of keys.
#[derive(Clone, Copy, Debug, PartialEq, Eq)]
pub enum Columns {
    /// A grant of a role or a user.
    Grant,
    /// An access record of a node.
    GrantRow,
    /// A field of a content type.
    Field,
    /// A link of a menu.
    Link,
}

/// What the value of a key is to be.
#[derive(Clone, Copy, Debug, PartialEq, Eq)]
pub enum Shape {
    /// Anything: it is judged elsewhere.
    Any,
    /// One value.
    Of(Entry),
    /// A list of so many values at most.
    Each(usize, Entry),
    /// A list of so many objects at most.
    Table(usize, Columns),
    /// An object of texts by machine names; whether `null` may stand for a text.
    Texts(bool),
}

/// Whether a key is to be there, and what its value is to be.
#[derive(Clone, Copy, Debug, PartialEq, Eq)]
pub enum Ask {
    /// It is to be there.
    Must(Shape),
    /// It may be there.
    May(Shape),
}

/// A key of an object, by its name.
pub type Key = (&'static str, Ask);

/// A key of an object in a list, by its name; it is to be there.
pub type Column = (&'static str, Entry);

/// The keys of a grant.
pub const GRANT: [Column; 2] = [
    ("gid", Entry::One(Plain::Whole(0, 4_294_967_295))),
    ("realm", Entry::One(Plain::Text(Form::Name))),
];

/// The keys of an access record.
pub const GRANT_ROW: [Column; 5] = [
    ("delete", Entry::One(Plain::Flag)),
    ("gid", Entry::One(Plain::Whole(0, 4_294_967_295))),
    ("realm", Entry::One(Plain::Text(Form::Name))),
    ("update", Entry::One(Plain::Flag)),
    ("view", Entry::One(Plain::Flag)),
];

/// The keys of a field of a content type.
pub const FIELD: [Column; 6] = [
    ("edit", Entry::NullOr(Plain::Text(Form::Line(128)))),
    ("label", Entry::One(Plain::Text(Form::Line(64)))),
    ("name", Entry::One(Plain::Text(Form::Name))),
    ("owner", Entry::One(Plain::Flag)),
    ("teaser", Entry::One(Plain::Flag)),
    ("view", Entry::NullOr(Plain::Text(Form::Line(128)))),
];

/// The keys of a link of a menu.
pub const LINK: [Column; 5] = [
    ("id", Entry::One(Plain::Text(Form::Name))),
    ("parent", Entry::NullOr(Plain::Text(Form::Name))),
    ("path", Entry::One(Plain::Text(Form::Target))),
    ("title", Entry::One(Plain::Text(Form::Line(255)))),
    ("weight", Entry::One(Plain::Weight)),
];
