//! Loading the site of a file of rows.
ghost use Rattle.std.specs.Prelude.{◌≡◌, IfOk, IfErr};
ghost use Rattle.site_cli.specs.Load.{IsNoSiteOf, OfFile, Says};
ghost use Rattle.site_cli.specs.Run.{IsSiteOf};

use content_rows::Text;
use content_state::State;
use site_files::{ReadFault, read_site};
use site_jobs::{cell_fault_text, line_text};
use site_places::{NoDevice, Place};
use std::alloc::{AllocError, Global};

/// Why no site was loaded.
#[derive(Drop, Debug)]
pub(crate) enum NoSite {
    /// The place counted a fault: the file wasn't opened, or reading it failed.
    Failed,
    /// The rows are refused, as this text says.
    Refused(Text),
    /// Memory was wanting.
    OutOfMemory,
}

impl From<AllocError> for NoSite {
    ghost use Rattle.site_cli.specs.declared.load.NoSite.TheVariants.{OutOfMemory};

    ghost from_gives = { λ _ why. why ≡ OutOfMemory };

    fn from(_wanting: AllocError) -> NoSite {
        NoSite::OutOfMemory
    }
}

impl From<NoDevice> for NoSite {
    ghost use Rattle.site_cli.specs.Load.{as_no_site};

    ghost from_gives = { λ device why. why ≡ as_no_site device };

    fn from(device: NoDevice) -> NoSite {
        match device {
            NoDevice::Failed => NoSite::Failed,
            NoDevice::OutOfMemory => NoSite::OutOfMemory,
        }
    }
}

/// Why a fault of the rows gives no site.
fn told(alloc: Global, fault: &ReadFault) -> NoSite
    ensures { Says fault.now result }
{
    let text = match fault {
        ReadFault::Line { number, fault } => line_text(alloc, *number, fault),
        ReadFault::Cell(fault) => cell_fault_text(alloc, fault),
        ReadFault::Source => return NoSite::Failed,
        ReadFault::OutOfMemory => return NoSite::OutOfMemory,
    };
    match text {
        Ok(text) => NoSite::Refused(Text::from_vec(text)),
        Err(_) => NoSite::OutOfMemory,
    }
}

/// Loads the site of the file of rows of that path: opens it, reads it to its end, and gives it back.
#[tactic(auto, using(crate::proofs::Loading::site_before, crate::proofs::Loading::fault_before, crate::proofs::Loading::some_rose, crate::proofs::Loading::some_out, crate::proofs::Loading::back_again, crate::proofs::Loading::reading_fails))]
pub(crate) fn load<P: Place>(alloc: Global, place: &mut P, path: &str) -> Result<State, NoSite>
    ensures site { IfOk result (λ state. OfFile ((P.sees place.old).file path.now) (λ bytes. IsSiteOf bytes state)) }
    ensures steady { IfOk result (λ _. P.sees place.new ≡ P.sees place.old) }
    ensures fault { IfErr result (IsNoSiteOf ((P.sees place.old).file path.now) (P.sees place.old) (P.sees place.new)) }
{
    let mut rows = place.rows(path)?;
    let read = read_site(alloc, &mut rows);
    place.rows_back(rows);
    match read {
        Ok(state) => Ok(state),
        Err(fault) => Err(told(alloc, &fault)),
    }
}
