//! Finding the head of a request.
ghost use Rattle.std.specs.Prelude.{◌≡◌, ◌*◌, ◌<◌, IfOk, length};
ghost use Rattle.http_heads.specs.Found.{Finds};

use crate::in_target::ends_in_target;
use httparse::Status;
use httparse::spans::{EMPTY_HEADER_SPAN, HeaderSpan, RequestSpans, parse_request};
use std::alloc::{AllocError, Global};

/// What the first bytes of a connection hold.
#[derive(Clone, Copy, Debug)]
pub(crate) enum Found {
    /// A whole head, whose parts the spans cover.
    Head(RequestSpans),
    /// The beginning of a head.
    Begun,
    /// No head, whatever follows.
    Nothing,
}

/// As many empty spans.
pub(crate) fn empty_spans(alloc: Global, count: usize) -> Result<Vec<HeaderSpan>, AllocError>
    ensures { IfOk result (λ spans. length spans.items ≡ count) }
{
    vec![in alloc; EMPTY_HEADER_SPAN; count]
}

/// What the bytes hold, and where the parts of a whole head are.
pub(crate) fn find_head(window: &[u8], spans: &mut [HeaderSpan]) -> Found
    requires { length window.now < 3 * length spans.old }
    ensures { Finds window.now spans.new result }
{
    match parse_request(window, spans) {
        Ok(Status::Complete(head)) => Found::Head(head),
        Ok(Status::Partial) => Found::Begun,
        Err(_) => {
            if ends_in_target(window) {
                Found::Begun
            } else {
                Found::Nothing
            }
        }
    }
}
