//! Why a call of a keeper came to nothing.
ghost use Rattle.std.specs.Prelude.{◌≡◌};
ghost use Rattle.site_keeper.specs.declared.fault.KeeperFault.TheVariants as keeper_fault;

use std::alloc::{AllocError, AllocFailed};

/// Why a call of a keeper came to nothing.
#[derive(Clone, Copy, Debug, PartialEq, Eq)]
pub enum KeeperFault {
    /// The keeper failed in this call, and its count of faults rose.
    Failed,
    /// Memory is wanting.
    OutOfMemory,
}

impl From<AllocError> for KeeperFault {
    ghost from_gives = { λ _ e. e ≡ keeper_fault.OutOfMemory };

    fn from(_error: AllocError) -> KeeperFault {
        KeeperFault::OutOfMemory
    }
}

impl<T: Drop> From<AllocFailed<T>> for KeeperFault {
    ghost from_gives = { λ _ e. e ≡ keeper_fault.OutOfMemory };

    fn from(_failed: AllocFailed<T>) -> KeeperFault {
        KeeperFault::OutOfMemory
    }
}
