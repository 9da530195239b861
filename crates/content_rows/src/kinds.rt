//! Tests of the kinds of value that the keys of rows have.
ghost use Rattle.std.specs.Prelude.{◌≡◌, ◌↔◌, ◌||◌, IsTrue, All, ◌∷◌};
ghost use Rattle.std.specs.List.{list_all, list_any, slice_split, before_first, position};
ghost use Rattle.std.specs.Option.{ForSome};
ghost use Rattle.std.specs.Str.{is_utf8, bytes_eq};
ghost use Rattle.content_rows.specs.Kinds.{
  IsMoment,
  IsId,
  IsAge,
  IsSpan,
  IsWeight,
  is_line_byte,
  is_text_byte,
  is_hex_digit,
  is_uuid_byte,
  is_target_byte,
  is_line,
  is_text,
  is_comment_body,
  is_uuid,
  is_permission,
  is_hex,
  is_slash,
  is_something,
  is_target,
  reserved_segments,
  is_reserved,
  is_path,
  is_listing_path,
  is_block_path,
};

/// Whether these are whole seconds since 1970, up to the first second of the year 2100.
pub(crate) fn is_moment(seconds: u64) -> bool
    ensures { IsTrue result ↔ IsMoment seconds }
{
    seconds <= 4_102_444_800
}

/// Whether it can be the number of a node, a term, a user or a comment.
pub(crate) fn is_id(number: u32) -> bool
    ensures { IsTrue result ↔ IsId number }
{
    1 <= number && number <= 4_294_967_294
}

/// Whether each of the numbers can be that of a node, a term or a user.
pub(crate) fn are_ids(numbers: &[u32]) -> bool
    ensures { IsTrue result ↔ All IsId numbers.now }
{
    numbers.iter().all(|&number| is_id(number))
}

/// Whether it can be the number of a node, a term, a user or a comment, if it is there.
pub(crate) fn is_id_if_any(number: Option<u32>) -> bool
    ensures { IsTrue result ↔ ForSome number IsId }
{
    match number {
        Some(number) => is_id(number),
        None => true,
    }
}

/// Whether it is an age of at most a day, if it is there.
pub(crate) fn is_age_if_any(seconds: Option<u32>) -> bool
    ensures { IsTrue result ↔ ForSome seconds IsAge }
{
    match seconds {
        Some(seconds) => seconds <= 86_400,
        None => true,
    }
}

/// Whether it is a span of 1 second to 365 days, if it is there.
pub(crate) fn is_span_if_any(seconds: Option<u32>) -> bool
    ensures { IsTrue result ↔ ForSome seconds IsSpan }
{
    match seconds {
        Some(seconds) => 1 <= seconds && seconds <= 31_536_000,
        None => true,
    }
}

/// Whether it can be the weight of a block or a link.
pub(crate) fn is_weight(weight: i32) -> bool
    ensures { IsTrue result ↔ IsWeight weight }
{
    -1000 <= weight && weight <= 1000
}

/// Whether a text is a line: UTF-8 of 1 to so many bytes, without control bytes.
pub(crate) fn is_line(most: usize, text: &[u8]) -> bool
    ensures { result ≡ is_line most text.now }
{
    !text.is_empty() && text.len() <= most && has_line_bytes(text) && is_utf8(text)
}

/// Whether no byte is a control byte.
pub fn has_line_bytes(text: &[u8]) -> bool
    ensures { result ≡ list_all is_line_byte text.now }
{
    text.iter().all(|&byte| is_line_byte(byte))
}

/// Whether a byte is no control byte.
fn is_line_byte(byte: u8) -> bool
    ensures { result ≡ is_line_byte byte }
{
    32 <= byte && byte != 127
}

/// Whether a text is UTF-8 of at most 65,536 bytes, without control bytes but those of lines.
pub(crate) fn is_text(text: &[u8]) -> bool
    ensures { result ≡ is_text text.now }
{
    text.len() <= 65_536 && has_text_bytes(text) && is_utf8(text)
}

/// Whether a text may be the body of a comment: a text that is not empty.
pub(crate) fn is_comment_body(text: &[u8]) -> bool
    ensures { result ≡ is_comment_body text.now }
{
    !text.is_empty() && is_text(text)
}

/// Whether no byte is a control byte but those of lines.
pub fn has_text_bytes(text: &[u8]) -> bool
    ensures { result ≡ list_all is_text_byte text.now }
{
    text.iter().all(|&byte| is_text_byte(byte))
}

/// Whether a byte is no control byte, or a tab, a line feed or a carriage return.
fn is_text_byte(byte: u8) -> bool
    ensures { result ≡ is_text_byte byte }
{
    32 <= byte || byte == b'\t' || byte == b'\n' || byte == b'\r'
}

/// Whether bytes are UTF-8.
pub fn is_utf8(text: &[u8]) -> bool
    ensures { result ≡ is_utf8 text.now }
{
    str::from_utf8(text).is_ok()
}

/// Whether a text is a universal id: 1 to 64 lower-case letters, digits and `-`.
pub(crate) fn is_uuid(text: &[u8]) -> bool
    ensures { result ≡ is_uuid text.now }
{
    !text.is_empty() && text.len() <= 64 && has_uuid_bytes(text)
}

/// Whether each byte may stand in a universal id.
pub fn has_uuid_bytes(text: &[u8]) -> bool
    ensures { result ≡ list_all is_uuid_byte text.now }
{
    text.iter().all(|&byte| is_uuid_byte(byte))
}

/// Whether a byte is a lower-case letter, a digit or `-`.
fn is_uuid_byte(byte: u8) -> bool
    ensures { result ≡ is_uuid_byte byte }
{
    (b'a' <= byte && byte <= b'z') || (b'0' <= byte && byte <= b'9') || byte == b'-'
}

/// Whether a text is the name of a permission: a line of at most 128 bytes.
pub(crate) fn is_permission(text: &[u8]) -> bool
    ensures { result ≡ is_permission text.now }
{
    is_line(128, text)
}

/// Whether a text is so many lower-case hex digits.
pub(crate) fn is_hex(count: usize, text: &[u8]) -> bool
    ensures { result ≡ is_hex count text.now }
{
    text.len() == count && has_hex_digits(text)
}

/// Whether each byte is a lower-case hex digit.
pub fn has_hex_digits(text: &[u8]) -> bool
    ensures { result ≡ list_all is_hex_digit text.now }
{
    text.iter().all(|&byte| is_hex_digit(byte))
}

/// Whether a byte is one of `0` to `9` and `a` to `f`.
fn is_hex_digit(byte: u8) -> bool
    ensures { result ≡ is_hex_digit byte }
{
    (b'0' <= byte && byte <= b'9') || (b'a' <= byte && byte <= b'f')
}

/// Whether a text is a path of the site: `/` and 1 to 255 bytes more, no segment of which is empty.
pub fn is_target(text: &[u8]) -> bool
    ensures { result ≡ is_target text.now }
{
    match text {
        [first, rest @ ..] => *first == b'/' && is_target_after_slash(rest),
        [] => false,
    }
}

/// Whether `/` and these bytes are a path of the site.
fn is_target_after_slash(rest: &[u8]) -> bool
    ensures { result ≡ is_target (47 ∷ rest.now) }
{
    !rest.is_empty() && rest.len() <= 255 && has_target_bytes(rest) && has_no_empty_segment(rest)
}

/// Whether each byte may stand in a path.
fn has_target_bytes(rest: &[u8]) -> bool
    ensures { result ≡ list_all is_target_byte rest.now }
{
    rest.iter().all(|&byte| is_target_byte(byte))
}

/// Whether a byte is a lower-case letter, a digit, `-`, `_` or `/`.
fn is_target_byte(byte: u8) -> bool
    ensures { result ≡ is_target_byte byte }
{
    is_uuid_byte(byte) || byte == b'_' || byte == b'/'
}

/// Whether something stands before, between and after the slashes.
fn has_no_empty_segment(rest: &[u8]) -> bool
    ensures { result ≡ list_all is_something (slice_split is_slash rest.now) }
{
    rest.split(|&byte| byte == b'/')
        .all(|segment| !segment.is_empty())
}

/// Whether a path begins with a segment of the site's own.
pub fn is_reserved(text: &[u8]) -> bool
    ensures { result ≡ is_reserved text.now }
{
    match text {
        [_, rest @ ..] => is_reserved_segment(first_segment(rest)),
        [] => false,
    }
}

/// What stands before the first slash.
fn first_segment(rest: &[u8]) -> &[u8]
    ensures { result.now ≡ before_first is_slash rest.now }
{
    match first_slash(rest) {
        Some(end) => &rest[..end],
        None => rest,
    }
}

/// Where the first slash stands.
fn first_slash(rest: &[u8]) -> Option<usize>
    ensures { result ≡ position is_slash rest.now }
{
    rest.iter().position(|&byte| byte == b'/')
}

/// Whether paths that begin with the segment are given out by the site itself.
fn is_reserved_segment(segment: &[u8]) -> bool
    ensures { result ≡ list_any (bytes_eq segment.now) reserved_segments }
{
    segment == b"node".as_slice()
        || segment == b"taxonomy".as_slice()
        || segment == b"user".as_slice()
        || segment == b"config".as_slice()
        || segment == b"cache".as_slice()
        || segment == b"json".as_slice()
}

/// Whether a node may have the path.
pub(crate) fn is_path(text: &[u8]) -> bool
    ensures { result ≡ is_path text.now }
{
    is_target(text) && !is_reserved(text)
}

/// Whether a listing may have the path: also `/node`, that of all nodes.
pub(crate) fn is_listing_path(text: &[u8]) -> bool
    ensures { result ≡ is_listing_path text.now }
{
    is_path(text) || text == b"/node".as_slice()
}

/// Whether a block may be placed at the path: also at `/`, and at `<front>`, the front page.
pub fn is_block_path(text: &[u8]) -> bool
    ensures { result ≡ is_block_path text.now }
{
    is_target(text) || text == b"/".as_slice() || text == b"<front>".as_slice()
}
