//! A source in memory that never fails.
use site_io::{Failed, MemorySource, Source};
use std::marker::Model;

/// Bytes in memory, all of which are read: no read fails, so its count of faults is 0.
#[derive(Drop)]
pub(crate) struct SteadySource {
    source: MemorySource,
}

impl Model for SteadySource {
    ghost use Rattle.std.specs.Prelude.{◌≡◌, ℕ, List, []};

    ghost Value = { List ℕ };

    ghost view = { λ s. s.source.left };

    ghost invariant = { λ s. s.source.calls.failing ≡ [] };
}

impl SteadySource {
    ghost use Rattle.std.specs.Prelude.{◌≡◌};

    /// All of these bytes are left. They come in pieces of at most `piece` bytes.
    pub(crate) fn new(bytes: Vec<u8>, piece: usize) -> SteadySource
        ensures { result ≡ bytes.items }
    {
        SteadySource {
            source: MemorySource::new(bytes, piece),
        }
    }
}

impl Source for SteadySource {
    ghost use Rattle.std.specs.Prelude.{Some};

    ghost left = { λ s. Some s };

    ghost faults = { λ s. 0 };

    #[tactic(auto, using(crate::proofs::Listed::never_listed))]
    fn read(&mut self, buffer: &mut [u8]) -> Result<usize, Failed> {
        match self.source.read(buffer) {
            Ok(n) => Ok(n),
            Err(_) => unreachable!(),
        }
    }

    fn faults(&self) -> u64 {
        0
    }
}
