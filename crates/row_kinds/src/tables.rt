//! The keys of each kind of row: its cell first, then its keys in the order of their bytes.
use json_keys::{Ask, Columns, Entry, Form, Key, Plain, Shape};

/// The keys of the settings of the site.
pub const SITE: [Key; 3] = [
    ("cell", Ask::Must(Shape::Any)),
    (
        "front",
        Ask::Must(Shape::Of(Entry::One(Plain::Text(Form::Front)))),
    ),
    (
        "name",
        Ask::Must(Shape::Of(Entry::One(Plain::Text(Form::Line(255))))),
    ),
];

/// The keys of the next ids.
pub const SEQ: [Key; 4] = [
    ("cell", Ask::Must(Shape::Any)),
    (
        "node",
        Ask::Must(Shape::Of(Entry::One(Plain::Whole(1, 4_294_967_295)))),
    ),
    (
        "term",
        Ask::Must(Shape::Of(Entry::One(Plain::Whole(1, 4_294_967_295)))),
    ),
    (
        "user",
        Ask::Must(Shape::Of(Entry::One(Plain::Whole(1, 4_294_967_295)))),
    ),
];

/// The keys of a content type.
pub const TYPE: [Key; 4] = [
    ("cell", Ask::Must(Shape::Any)),
    ("fields", Ask::Must(Shape::Table(32, Columns::Field))),
    (
        "label",
        Ask::Must(Shape::Of(Entry::One(Plain::Text(Form::Line(255))))),
    ),
    ("submitted", Ask::Must(Shape::Of(Entry::One(Plain::Flag)))),
];

/// The keys of a role.
pub const ROLE: [Key; 5] = [
    ("cell", Ask::Must(Shape::Any)),
    ("admin", Ask::Must(Shape::Of(Entry::One(Plain::Flag)))),
    ("grants", Ask::Must(Shape::Table(64, Columns::Grant))),
    (
        "label",
        Ask::Must(Shape::Of(Entry::One(Plain::Text(Form::Line(255))))),
    ),
    (
        "permissions",
        Ask::Must(Shape::Each(256, Entry::One(Plain::Text(Form::Line(128))))),
    ),
];

/// The keys of a user.
pub const USER: [Key; 9] = [
    ("cell", Ask::Must(Shape::Any)),
    (
        "created",
        Ask::Must(Shape::Of(Entry::One(Plain::Whole(0, 4_102_444_800)))),
    ),
    (
        "digest",
        Ask::Must(Shape::Of(Entry::NullOr(Plain::Text(Form::Hex(64))))),
    ),
    ("grants", Ask::Must(Shape::Table(64, Columns::Grant))),
    (
        "name",
        Ask::Must(Shape::Of(Entry::One(Plain::Text(Form::Line(60))))),
    ),
    (
        "roles",
        Ask::Must(Shape::Each(32, Entry::One(Plain::Text(Form::Name)))),
    ),
    (
        "salt",
        Ask::Must(Shape::Of(Entry::One(Plain::Text(Form::HexOrEmpty(32))))),
    ),
    ("status", Ask::Must(Shape::Of(Entry::One(Plain::Flag)))),
    (
        "uuid",
        Ask::Must(Shape::Of(Entry::One(Plain::Text(Form::Uuid)))),
    ),
];

/// The keys of a taxonomy term.
pub const TERM: [Key; 6] = [
    ("cell", Ask::Must(Shape::Any)),
    (
        "description",
        Ask::Must(Shape::Of(Entry::One(Plain::Text(Form::Body)))),
    ),
    (
        "name",
        Ask::Must(Shape::Of(Entry::One(Plain::Text(Form::Line(255))))),
    ),
    // rows of before terms had parents don't have it
    (
        "parent",
        Ask::May(Shape::Of(Entry::NullOr(Plain::Whole(1, 4_294_967_294)))),
    ),
    ("status", Ask::Must(Shape::Of(Entry::One(Plain::Flag)))),
    (
        "uuid",
        Ask::Must(Shape::Of(Entry::One(Plain::Text(Form::Uuid)))),
    ),
];

/// The keys of a node.
pub const NODE: [Key; 16] = [
    ("cell", Ask::Must(Shape::Any)),
    (
        "changed",
        Ask::Must(Shape::Of(Entry::One(Plain::Whole(0, 4_102_444_800)))),
    ),
    (
        "created",
        Ask::Must(Shape::Of(Entry::One(Plain::Whole(0, 4_102_444_800)))),
    ),
    ("fields", Ask::Must(Shape::Texts(false))),
    ("grants", Ask::Must(Shape::Table(64, Columns::GrantRow))),
    (
        "path",
        Ask::Must(Shape::Of(Entry::NullOr(Plain::Text(Form::Path)))),
    ),
    ("promote", Ask::Must(Shape::Of(Entry::One(Plain::Flag)))),
    (
        "refs",
        Ask::Must(Shape::Each(8, Entry::One(Plain::Whole(1, 4_294_967_294)))),
    ),
    ("status", Ask::Must(Shape::Of(Entry::One(Plain::Flag)))),
    ("sticky", Ask::Must(Shape::Of(Entry::One(Plain::Flag)))),
    (
        "terms",
        Ask::Must(Shape::Each(32, Entry::One(Plain::Whole(1, 4_294_967_294)))),
    ),
    (
        "title",
        Ask::Must(Shape::Of(Entry::One(Plain::Text(Form::Line(255))))),
    ),
    (
        "type",
        Ask::Must(Shape::Of(Entry::One(Plain::Text(Form::Name)))),
    ),
    (
        "uid",
        Ask::Must(Shape::Of(Entry::One(Plain::Whole(0, 4_294_967_294)))),
    ),
    (
        "uuid",
        Ask::Must(Shape::Of(Entry::One(Plain::Text(Form::Uuid)))),
    ),
    (
        "vid",
        Ask::Must(Shape::Of(Entry::One(Plain::Whole(1, 4_294_967_295)))),
    ),
];

/// The keys of a menu.
pub const MENU: [Key; 3] = [
    ("cell", Ask::Must(Shape::Any)),
    (
        "label",
        Ask::Must(Shape::Of(Entry::One(Plain::Text(Form::Line(255))))),
    ),
    ("links", Ask::Must(Shape::Table(256, Columns::Link))),
];

/// The keys of a listing.
pub const LISTING: [Key; 8] = [
    ("cell", Ask::Must(Shape::Any)),
    (
        "age",
        Ask::Must(Shape::Of(Entry::NullOr(Plain::Whole(0, 86_400)))),
    ),
    (
        "path",
        Ask::Must(Shape::Of(Entry::NullOr(Plain::Text(Form::ListingPath)))),
    ),
    ("promoted", Ask::Must(Shape::Of(Entry::One(Plain::Flag)))),
    (
        "recent",
        Ask::Must(Shape::Of(Entry::NullOr(Plain::Whole(1, 31_536_000)))),
    ),
    (
        "term",
        Ask::Must(Shape::Of(Entry::NullOr(Plain::Whole(1, 4_294_967_294)))),
    ),
    (
        "title",
        Ask::Must(Shape::Of(Entry::One(Plain::Text(Form::Line(255))))),
    ),
    (
        "types",
        Ask::Must(Shape::Each(32, Entry::One(Plain::Text(Form::Name)))),
    ),
];

/// The keys of a placed block.
pub const BLOCK: [Key; 11] = [
    ("cell", Ask::Must(Shape::Any)),
    (
        "age",
        Ask::Must(Shape::Of(Entry::NullOr(Plain::Whole(0, 86_400)))),
    ),
    ("hide", Ask::Must(Shape::Of(Entry::One(Plain::Flag)))),
    (
        "kind",
        Ask::Must(Shape::Of(Entry::One(Plain::Text(Form::BlockKind)))),
    ),
    (
        "label",
        Ask::Must(Shape::Of(Entry::One(Plain::Text(Form::Heading(255))))),
    ),
    (
        "name",
        Ask::Must(Shape::Of(Entry::NullOr(Plain::Text(Form::Name)))),
    ),
    (
        "paths",
        Ask::Must(Shape::Each(32, Entry::One(Plain::Text(Form::BlockPath)))),
    ),
    (
        "region",
        Ask::Must(Shape::Of(Entry::One(Plain::Text(Form::Region)))),
    ),
    (
        "roles",
        Ask::Must(Shape::Each(32, Entry::One(Plain::Text(Form::Name)))),
    ),
    (
        "text",
        Ask::Must(Shape::Of(Entry::NullOr(Plain::Text(Form::Body)))),
    ),
    ("weight", Ask::Must(Shape::Of(Entry::One(Plain::Weight)))),
];

/// The keys of a session.
pub const SESSION: [Key; 3] = [
    ("cell", Ask::Must(Shape::Any)),
    (
        "expires",
        Ask::Must(Shape::Of(Entry::One(Plain::Whole(0, 4_102_444_800)))),
    ),
    (
        "uid",
        Ask::Must(Shape::Of(Entry::One(Plain::Whole(1, 4_294_967_294)))),
    ),
];

/// The keys of a comment.
pub const COMMENT: [Key; 8] = [
    ("cell", Ask::Must(Shape::Any)),
    (
        "body",
        Ask::Must(Shape::Of(Entry::One(Plain::Text(Form::Comment)))),
    ),
    (
        "created",
        Ask::Must(Shape::Of(Entry::One(Plain::Whole(0, 4_102_444_800)))),
    ),
    (
        "node",
        Ask::Must(Shape::Of(Entry::One(Plain::Whole(1, 4_294_967_294)))),
    ),
    (
        "parent",
        Ask::Must(Shape::Of(Entry::NullOr(Plain::Whole(1, 4_294_967_294)))),
    ),
    ("status", Ask::Must(Shape::Of(Entry::One(Plain::Flag)))),
    (
        "uid",
        Ask::Must(Shape::Of(Entry::One(Plain::Whole(0, 4_294_967_294)))),
    ),
    (
        "uuid",
        Ask::Must(Shape::Of(Entry::One(Plain::Text(Form::Uuid)))),
    ),
];

/// The keys of the next id of a comment.
pub const TALK: [Key; 2] = [
    ("cell", Ask::Must(Shape::Any)),
    (
        "comment",
        Ask::Must(Shape::Of(Entry::One(Plain::Whole(1, 4_294_967_295)))),
    ),
];
