//! Why an edit isn't kept.
ghost use Rattle.std.specs.Prelude.{◌≡◌};
ghost use Rattle.site_hall.specs.declared.stop.Stop.TheVariants as stop;

use site_commands::Refusal;
use site_keeper::KeeperFault;
use std::alloc::AllocError;

/// Why nothing of an edit was given to the keeper.
#[derive(Drop)]
pub enum Stop {
    /// The edit is refused.
    Refused(Refusal),
    /// The keeper failed to tell its number.
    Failed,
    /// Memory is wanting.
    OutOfMemory,
}

impl From<AllocError> for Stop {
    ghost from_gives = { λ _ e. e ≡ stop.OutOfMemory };

    fn from(_error: AllocError) -> Stop {
        Stop::OutOfMemory
    }
}

impl From<KeeperFault> for Stop {
    ghost use Rattle.site_hall.specs.Stopped.{stop_by};

    ghost from_gives = { λ fault e. e ≡ stop_by fault };

    fn from(fault: KeeperFault) -> Stop {
        match fault {
            KeeperFault::Failed => Stop::Failed,
            KeeperFault::OutOfMemory => Stop::OutOfMemory,
        }
    }
}
