//! What sqlite3 wrote.

/// The bytes of a file that sqlite3 3.40.1 wrote, each run of them at its offset; all others are 0:
///
/// `PRAGMA page_size=512; CREATE TABLE cell_row(cell TEXT PRIMARY KEY, body TEXT NOT NULL);`
/// `CREATE TABLE cachetags(tag TEXT PRIMARY KEY, invalidations BLOB NOT NULL);`
/// `INSERT INTO cell_row VALUES ('seq', '{"cell":"seq","node":2,"term":1,"user":2}');`
/// `INSERT INTO cell_row VALUES ('head', '7'); INSERT INTO cachetags VALUES ('node_list', x'0000000000000005');`
pub(crate) const SQLITE3: [(usize, &[u8]); 9] = [
    (
        0,
        b"SQLite format 3\x00\x02\x00\x01\x01\x00@  \x00\x00\x00\x05\x00\x00\x00\x05",
    ),
    (43, b"\x02\x00\x00\x00\x04"),
    (59, b"\x01"),
    (
        95,
        b"\x05\x00.c\x01\x0d\x01\xf8\x00\x04\x00\xcb\x00\x01h\x01\xc7\x00\xcb\x015",
    ),
    (
        203,
        b"h\x03\x07\x17\x1f\x1f\x01\x81\x1ftablecachetagscachetags\x04CREATE TABLE cachetags(tag TEXT PRIMARY KEY, invalidations BLOB NOT NULL)1\x04\x06\x17E\x1f\x01\x00indexsqlite_autoindex_cachetags_1cachetags\x05]\x01\x07\x17\x1d\x1d\x01\x81\x0dtablecell_rowcell_row\x02CREATE TABLE cell_row(cell TEXT PRIMARY KEY, body TEXT NOT NULL)/\x02\x06\x17C\x1d\x01\x00indexsqlite_autoindex_cell_row_1cell_row\x03\x00\x00\x00\x08\x00\x00\x00\x00\x0d\x00\x00\x00\x02\x01\xc5\x00\x01\xcf\x01\xc5",
    ),
    (
        965,
        b"\x08\x02\x03\x15\x0fhead7/\x01\x03\x13_seq{\"cell\":\"seq\",\"node\":2,\"term\":1,\"user\":2}\x0a\x00\x00\x00\x02\x01\xf0\x00\x01\xf0\x01\xf9",
    ),
    (
        1520,
        b"\x08\x03\x15\x01head\x02\x06\x03\x13\x09seq\x0d\x00\x00\x00\x01\x01\xea\x00\x01\xea",
    ),
    (
        2026,
        b"\x14\x01\x03\x1f\x1cnode_list\x00\x00\x00\x00\x00\x00\x00\x05\x0a\x00\x00\x00\x01\x01\xf3\x00\x01\xf3",
    ),
    (2547, b"\x0c\x03\x1f\x09node_list"),
];
