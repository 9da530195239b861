//! Where requests of HTTP end.

use http_heads::{HeadRoom, extent_in};
use request_framing::{Extent, Framing};
use std::alloc::{AllocError, Global};

/// Where requests of HTTP end, with room for the places of a head's fields.
#[derive(Drop)]
pub struct HttpFraming {
    room: HeadRoom,
}

impl HttpFraming {
    /// Says of any bytes how far they reach. `Err` only where memory is wanting.
    pub fn new(alloc: Global) -> Result<HttpFraming, AllocError> {
        Ok(HttpFraming {
            room: HeadRoom::new(alloc)?,
        })
    }
}

impl Framing for HttpFraming {
    ghost use Rattle.site_places.specs.Framing.{reaches};

    ghost reaches = { reaches };

    fn extent(&mut self, bytes: &[u8]) -> Extent {
        match extent_in(bytes, &mut self.room) {
            http_heads::Extent::Whole(size) => Extent::Whole(size),
            http_heads::Extent::Head => Extent::Head,
            http_heads::Extent::Body(size) => Extent::Body(size),
            http_heads::Extent::Refused => Extent::Refused,
        }
    }
}
