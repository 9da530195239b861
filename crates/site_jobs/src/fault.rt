//! Why a job over a store came to nothing.
ghost use Rattle.std.specs.Prelude.{◌≡◌};

use content_rows::Text;
use site_keeper::KeeperFault;
use std::alloc::AllocError;

/// Why a job over a store came to nothing.
#[derive(Drop, Debug)]
pub enum NoJob {
    /// The rows are refused, as this text says.
    Refused(Text),
    /// The keeper failed, and its count of faults rose.
    Keeper,
    /// The source failed, and its count of faults rose.
    Input,
    /// Memory was wanting.
    OutOfMemory,
}

impl From<AllocError> for NoJob {
    ghost use Rattle.site_jobs.specs.declared.fault.NoJob.TheVariants.{OutOfMemory};

    ghost from_gives = { λ _ why. why ≡ OutOfMemory };

    fn from(_wanting: AllocError) -> NoJob {
        NoJob::OutOfMemory
    }
}

impl From<KeeperFault> for NoJob {
    ghost use Rattle.site_jobs.specs.Faults.{of_keeper};

    ghost from_gives = { λ fault why. why ≡ of_keeper fault };

    fn from(fault: KeeperFault) -> NoJob {
        match fault {
            KeeperFault::Failed => NoJob::Keeper,
            KeeperFault::OutOfMemory => NoJob::OutOfMemory,
        }
    }
}
