//! Laws of files of rows, which the contracts of empty functions state.
ghost use Rattle.site_import.specs.Export.{ExportsComeBack, ExportsChangeNothing, LinesTellRows};

/// A file that was written of rows is read as these rows, and an import of it where they stand changes nothing.
pub fn import_of_export_changes_nothing()
    ensures back { ExportsComeBack }
    ensures nothing { ExportsChangeNothing }
{}

/// Rows for one cell whose lines tell their rows are equal where their lines are.
pub fn equal_lines_mean_equal_rows()
    ensures { LinesTellRows }
{}
