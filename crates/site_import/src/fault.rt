//! Why a file was not imported, and why one was not written.
ghost use Rattle.std.specs.Prelude.{◌≡◌};
ghost use Rattle.site_import.specs.Faults.{export_memory, import_memory, import_read, sink_failed};
ghost use Rattle.site_import.specs.declared.fault.ExportFault.TheVariants as unwritten;
ghost use Rattle.site_import.specs.declared.fault.ImportFault.TheVariants as why;

use content_rows::Cell;
use content_state::NotASite;
use site_files::{LineFault, ReadFault};
use site_io::Failed;
use std::alloc::{AllocError, AllocFailed};

/// Why a file was not imported.
#[derive(Drop, Debug)]
pub enum ImportFault {
    /// The first line that is no row.
    Line {
        /// Its number, from 1.
        number: u32,
        /// What is wrong with it.
        fault: LineFault,
    },
    /// The first cell that breaks a rule on the rows of a site.
    Cell(NotASite),
    /// The first cell whose change invalidates a tag whose count cannot be raised.
    Full(Cell),
    /// The source failed: its count of faults rose.
    Source,
    /// Memory was wanting.
    OutOfMemory,
}

impl From<AllocError> for ImportFault {
    ghost from_gives = { import_memory };

    fn from(_: AllocError) -> ImportFault {
        ImportFault::OutOfMemory
    }
}

impl<T: Drop> From<AllocFailed<T>> for ImportFault {
    ghost from_gives = { λ _ e. e ≡ why.OutOfMemory };

    fn from(_: AllocFailed<T>) -> ImportFault {
        ImportFault::OutOfMemory
    }
}

impl From<ReadFault> for ImportFault {
    ghost from_gives = { import_read };

    fn from(fault: ReadFault) -> ImportFault {
        match fault {
            ReadFault::Line { number, fault } => ImportFault::Line { number, fault },
            ReadFault::Cell(fault) => ImportFault::Cell(fault),
            ReadFault::Source => ImportFault::Source,
            ReadFault::OutOfMemory => ImportFault::OutOfMemory,
        }
    }
}

/// Why a file was not written.
#[derive(Clone, Copy, Debug, PartialEq, Eq)]
pub enum ExportFault {
    /// The sink failed: its count of faults rose.
    Sink,
    /// Memory was wanting.
    OutOfMemory,
}

impl From<AllocError> for ExportFault {
    ghost from_gives = { export_memory };

    fn from(_: AllocError) -> ExportFault {
        ExportFault::OutOfMemory
    }
}

impl<T: Drop> From<AllocFailed<T>> for ExportFault {
    ghost from_gives = { λ _ e. e ≡ unwritten.OutOfMemory };

    fn from(_: AllocFailed<T>) -> ExportFault {
        ExportFault::OutOfMemory
    }
}

impl From<Failed> for ExportFault {
    ghost from_gives = { sink_failed };

    fn from(_: Failed) -> ExportFault {
        ExportFault::Sink
    }
}
