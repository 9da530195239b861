//! The laws of what bytes begin with: each is the contract of a function that does nothing.
ghost use Rattle.http_heads.specs.Laws.{WholeStays, RefusedStays, WholeTakes, MoreIsShort, ParsesOnce, ReadsOnce, ReadsSome, LateCloses};

/// A whole request stays one, whatever bytes follow. So a connection may be read in pieces of any
/// length.
pub fn whole_stays()
    ensures { WholeStays }
{}

/// What is refused stays so, with its code, whatever bytes follow.
pub fn refused_stays()
    ensures { RefusedStays }
{}

/// A whole request takes at least one byte, and no more than there are.
pub fn whole_takes()
    ensures { WholeTakes }
{}

/// Bytes that are only a part of a request are fewer than a head and a body may have together,
/// 16,384 and 1,048,576.
pub fn more_is_short()
    ensures { MoreIsShort }
{}

/// Bytes begin with one thing only: a whole request with its length, a part of one, or a code.
pub fn parses_once()
    ensures { ParsesOnce }
{}

/// The requests of a text and its end are determined: two readings of it are equal.
pub fn reads_once()
    ensures { ReadsOnce }
{}

/// Every text has a reading, for every limit: some requests, and an end.
pub fn reads_some()
    ensures { ReadsSome }
{}

/// A request whose parts are to be sent late asks for a page, and asks to close.
pub fn late_closes()
    ensures { LateCloses }
{}
