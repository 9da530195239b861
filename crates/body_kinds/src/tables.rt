//! The keys of each kind of body, in the order of their bytes.
use json_keys::{Ask, Columns, Entry, Form, Key, Plain, Shape};

const FLAG: Shape = Shape::Of(Entry::One(Plain::Flag));

const MOMENT: Shape = Shape::Of(Entry::One(Plain::Whole(0, 4_102_444_800)));

const OWNER: Shape = Shape::Of(Entry::One(Plain::Whole(0, 4_294_967_294)));

const VERSION: Shape = Shape::Of(Entry::One(Plain::Whole(1, 4_294_967_295)));

const ID: Entry = Entry::One(Plain::Whole(1, 4_294_967_294));

const NAME: Entry = Entry::One(Plain::Text(Form::Name));

const TYPE: Shape = Shape::Of(NAME);

const UUID: Shape = Shape::Of(Entry::One(Plain::Text(Form::Uuid)));

const TEXT: Shape = Shape::Of(Entry::One(Plain::Text(Form::Body)));

const COMMENT: Shape = Shape::Of(Entry::One(Plain::Text(Form::Comment)));

const TITLE: Shape = Shape::Of(Entry::One(Plain::Text(Form::Line(255))));

const USER_NAME: Shape = Shape::Of(Entry::One(Plain::Text(Form::Line(60))));

const PASSWORD: Shape = Shape::Of(Entry::One(Plain::Text(Form::Line(128))));

const PATH: Shape = Shape::Of(Entry::NullOr(Plain::Text(Form::Path)));

const PARENT: Shape = Shape::Of(Entry::NullOr(Plain::Whole(1, 4_294_967_294)));

const RECORDS: Shape = Shape::Table(64, Columns::GrantRow);

const GRANTS: Shape = Shape::Table(64, Columns::Grant);

const ROLES: Shape = Shape::Each(32, NAME);

const REFS: Shape = Shape::Each(8, ID);

const TERMS: Shape = Shape::Each(32, ID);

/// The keys of a node to be made.
pub(crate) const NEW_NODE: [Key; 13] = [
    ("created", Ask::May(MOMENT)),
    ("fields", Ask::May(Shape::Texts(false))),
    ("grants", Ask::May(RECORDS)),
    ("path", Ask::May(PATH)),
    ("promote", Ask::May(FLAG)),
    ("refs", Ask::May(REFS)),
    ("status", Ask::May(FLAG)),
    ("sticky", Ask::May(FLAG)),
    ("terms", Ask::May(TERMS)),
    ("title", Ask::Must(TITLE)),
    ("type", Ask::Must(TYPE)),
    ("uid", Ask::May(OWNER)),
    ("uuid", Ask::Must(UUID)),
];

/// The keys of a change of a node: `null` takes the value of a field away.
pub(crate) const NODE_PATCH: [Key; 12] = [
    ("created", Ask::May(MOMENT)),
    ("fields", Ask::May(Shape::Texts(true))),
    ("grants", Ask::May(RECORDS)),
    ("path", Ask::May(PATH)),
    ("promote", Ask::May(FLAG)),
    ("refs", Ask::May(REFS)),
    ("status", Ask::May(FLAG)),
    ("sticky", Ask::May(FLAG)),
    ("terms", Ask::May(TERMS)),
    ("title", Ask::May(TITLE)),
    ("uid", Ask::May(OWNER)),
    ("vid", Ask::Must(VERSION)),
];

/// The keys of a term to be made.
pub(crate) const NEW_TERM: [Key; 5] = [
    ("description", Ask::May(TEXT)),
    ("name", Ask::Must(TITLE)),
    ("parent", Ask::May(PARENT)),
    ("status", Ask::May(FLAG)),
    ("uuid", Ask::Must(UUID)),
];

/// The keys of a change of a term: `null` takes its parent away.
pub(crate) const TERM_PATCH: [Key; 4] = [
    ("description", Ask::May(TEXT)),
    ("name", Ask::May(TITLE)),
    ("parent", Ask::May(PARENT)),
    ("status", Ask::May(FLAG)),
];

/// The keys of a user to be made.
pub(crate) const NEW_USER: [Key; 6] = [
    ("grants", Ask::May(GRANTS)),
    ("name", Ask::Must(USER_NAME)),
    ("pass", Ask::May(PASSWORD)),
    ("roles", Ask::May(ROLES)),
    ("status", Ask::May(FLAG)),
    ("uuid", Ask::Must(UUID)),
];

/// The keys of a change of a user.
pub(crate) const USER_PATCH: [Key; 5] = [
    ("grants", Ask::May(GRANTS)),
    ("name", Ask::May(USER_NAME)),
    ("pass", Ask::May(PASSWORD)),
    ("roles", Ask::May(ROLES)),
    ("status", Ask::May(FLAG)),
];

/// The keys of a comment to be made.
pub(crate) const NEW_COMMENT: [Key; 3] = [
    ("body", Ask::Must(COMMENT)),
    ("parent", Ask::May(PARENT)),
    ("uuid", Ask::Must(UUID)),
];

/// The keys of a change of a comment.
pub(crate) const COMMENT_PATCH: [Key; 2] = [
    ("body", Ask::May(COMMENT)),
    ("status", Ask::May(FLAG)),
];
