//! Where requests end.
ghost use Rattle.request_framing.specs.Gives.{Fits};

/// How far what the bytes of a socket begin with reaches.
#[derive(Clone, Copy, Debug, PartialEq, Eq)]
pub enum Extent {
    /// A whole request of so many bytes, head and body, is there.
    Whole(usize),
    /// A part of a head, or nothing.
    Head,
    /// A whole head and less than the body that it announces: the request will have so many bytes at least.
    Body(usize),
    /// What is refused, whatever follows.
    Refused,
}

/// What tells where requests end.
pub trait Framing {
    ghost use Rattle.std.specs.Prelude.{ℕ, List};
    ghost use Rattle.request_framing.specs.declared.framing.Extent.{Extent};

    /// That bytes reach so far.
    ghost reaches: { List ℕ → Extent → Type 0 };

    /// How far what these bytes begin with reaches. A whole request has no more bytes than there are.
    fn extent(&mut self, bytes: &[u8]) -> Extent
        ensures reaches { reaches bytes.now result }
        ensures fits { Fits bytes.now result };
}
