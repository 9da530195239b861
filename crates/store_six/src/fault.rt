//! Why a call of a store came to nothing.
ghost use Rattle.std.specs.Prelude.{◌≡◌};
ghost use Rattle.store_six.specs.declared.fault.StoreFault.TheVariants as store_fault;

use std::alloc::{AllocError, AllocFailed};

/// Why a call of a store came to nothing.
#[derive(Clone, Copy, Debug, PartialEq, Eq)]
pub enum StoreFault {
    /// The statement was refused for another cause than memory, and the count of faults rose.
    Failed,
    /// Memory is wanting.
    OutOfMemory,
}

impl From<AllocError> for StoreFault {
    ghost from_gives = { λ _ e. e ≡ store_fault.OutOfMemory };

    fn from(_error: AllocError) -> StoreFault {
        StoreFault::OutOfMemory
    }
}

impl<T: Drop> From<AllocFailed<T>> for StoreFault {
    ghost from_gives = { λ _ e. e ≡ store_fault.OutOfMemory };

    fn from(_failed: AllocFailed<T>) -> StoreFault {
        StoreFault::OutOfMemory
    }
}
