//! The keys that edits know.
ghost use Rattle.std.specs.Prelude.{◌≡◌};
ghost use Rattle.sent_objects.specs.Brief.{has_pairs};
ghost use Rattle.sent_objects.specs.Keys.{is_among, is_column, is_key, texts_of};

/// The keys of all bodies, in the order of their bytes.
const KEYS: [&str; 37] = [
    "admin",
    "age",
    "body",
    "created",
    "description",
    "fields",
    "front",
    "grants",
    "hide",
    "kind",
    "label",
    "links",
    "name",
    "parent",
    "pass",
    "path",
    "paths",
    "permissions",
    "promote",
    "promoted",
    "recent",
    "refs",
    "region",
    "roles",
    "status",
    "sticky",
    "submitted",
    "term",
    "terms",
    "text",
    "title",
    "type",
    "types",
    "uid",
    "uuid",
    "vid",
    "weight",
];

/// The keys of all objects that stand in lists, in the order of their bytes.
const COLUMNS: [&str; 15] = [
    "delete", "edit", "gid", "id", "label", "name", "owner", "parent", "path", "realm", "teaser",
    "title", "update", "view", "weight",
];

/// Whether a name is among some.
fn is_among(keys: &[&'static str], name: &str) -> bool
    ensures { result ≡ is_among (texts_of keys.now) name.now }
{
    'keys: for key in keys {
        if *key == name {
            return true;
        }
    }
    false
}

/// Whether some body has a key.
pub(crate) fn is_key(name: &str) -> bool
    ensures { result ≡ is_key name.now }
{
    is_among(&KEYS, name)
}

/// Whether some object that stands in a list has a key.
pub(crate) fn is_column(name: &str) -> bool
    ensures { result ≡ is_column name.now }
{
    is_among(&COLUMNS, name)
}

/// Whether an object belongs below a key.
pub(crate) fn has_pairs(name: &str) -> bool
    ensures { result ≡ has_pairs name.now }
{
    name == "fields"
}
