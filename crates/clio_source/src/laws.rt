// The laws of the source. The definitions alone carry them: no body computes anything.
ghost use Rattle.clio_source.specs.Laws.{AllIsRead, OneSource, OneSourceLeft, ReadOrRefused, ReadOrRefusedLeft};
ghost use Rattle.clio_source.specs.Laws.{RootsHaveNoParent, SourceIsOfBoth};

/// Files say one source or are refused for one reason, and never both.
pub fn files_are_read_or_refused()
    ensures source { OneSource }
    ensures refused { ReadOrRefused }
{}

/// So it is with the number of bytes that are left, and the source is the same.
pub fn bytes_are_left_of_one_source()
    ensures source { OneSourceLeft }
    ensures refused { ReadOrRefusedLeft }
    ensures same { SourceIsOfBoth }
{}

/// The roots of a schema are its tables without a parent, in order.
pub fn roots_have_no_parent()
    ensures { RootsHaveNoParent }
{}

/// If no column has a mark, what is read has just the facts of the one source that the files hold.
pub fn all_is_read_without_marks()
    ensures { AllIsRead }
{}
