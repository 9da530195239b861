//! What a reply is, by how it begins.
ghost use Rattle.std.specs.Prelude.{◌≡◌, drop};
ghost use Rattle.site_drill.specs.Fronts.{shows_page, is_wanting};

/// Whether a reply shows a page: its status is 200 and its body is HTML.
#[tactic(auto, unfolding(crate::specs::Fronts::page_front))]
pub(crate) fn shows_page(text: &[u8]) -> bool
    ensures { result ≡ shows_page text.now }
{
    text.starts_with(b"HTTP/1.1 200 OK\r\nContent-Type: text/html")
}

/// Whether a reply says that memory was wanting: its status is 507.
#[tactic(auto, unfolding(crate::specs::Fronts::wanting_front))]
pub(crate) fn is_wanting(text: &[u8]) -> bool
    ensures { result ≡ is_wanting text.now }
{
    text.starts_with(b"HTTP/1.1 507 ")
}

/// The bytes from a place on.
pub(crate) fn bytes_from(bytes: &[u8], from: usize) -> &[u8]
    ensures { result.now ≡ drop from bytes.now }
{
    if from > bytes.len() {
        return &[];
    }
    let (_, rest) = bytes.split_at(from);
    rest
}
