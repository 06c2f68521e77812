// The laws of the files. The definitions alone carry them: no body computes anything.
ghost use Rattle.clio_files.specs.Laws.{ComparedFilesAreOne, ComparedFilesExist, ComparedNamesAreApart};
ghost use Rattle.clio_files.specs.Laws.{FilesAreOne, FilesExist, NamesAreApart};

/// An exchange that fits its schema has files.
pub fn an_exchange_has_files()
    ensures { FilesExist }
{}

/// An exchange has one list of files: no file more or less, and no other names, bytes or counts.
pub fn files_are_one()
    ensures { FilesAreOne }
{}

/// No two files have one name, if no table of the target is named `nulls` or `fold`.
pub fn names_are_apart()
    ensures { NamesAreApart }
{}

/// A comparison that fits its schemas has one list of files, and no two of them have one name.
pub fn a_comparison_has_files()
    ensures exist { ComparedFilesExist }
    ensures one { ComparedFilesAreOne }
    ensures names { ComparedNamesAreApart }
{}
