// The law of the cover fold. The definitions alone carry it: no body computes anything.
ghost use Rattle.dx_cover_fold.specs.Laws.{FoldUncovers};

/// The image of the canonical instance under the cover fold is its uncovered part.
pub fn fold_uncovers()
    ensures { FoldUncovers }
{}
